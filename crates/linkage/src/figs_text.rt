// The FIGs of blocks as text: each block has a line with its number, from 0, and a word where its check fails, and then a line
// for each FIG, with its type and the length of its body; where the walk finds a wrong FIG it says so and stops. Bytes left over
// at the end are counted in a last line. A block with a failing check is walked all the same.
// The walk goes by the reader of crate reader.
ghost use Rattle.std.specs.Prelude.{◌+◌, ◌<◌, length};

use figs::FigStep;
use input::{TURNS, fill, some_holds, write_whole};
use reader::FigReader;
use std::fmt::{InlineText, Write as WriteText};
use std::io::{Read, Write};
use std::{fmt, io};

// The lines of the FIGs that a walk of a block finds, to the end or to a wrong FIG. The rules give a walk 31 steps, which are never
// used up. No step gives a body that ends before its start: the difference is in order.
fn put_figs<T: WriteText>(text: &mut T, fib: &[u8]) -> fmt::Result {
    let mut reader = FigReader::over(fib);
    for _ in 0..31 {
        match reader.step() {
            FigStep::Fig {
                kind,
                start,
                end,
                next: _,
            } => writeln!(text, "type {} length {}", kind, end.saturating_sub(start))?,
            FigStep::End => return Ok(()),
            FigStep::Wrong => return writeln!(text, "wrong FIG"),
        }
    }
    Ok(())
}

// The lines of a block.
fn put_block<T: WriteText>(text: &mut T, number: usize, fib: &[u8]) -> fmt::Result {
    let check = if crc::check_holds(fib) {
        ""
    } else {
        " check fails"
    };
    writeln!(text, "block {number}{check}")?;
    put_figs(text, fib)
}

// The lines of a block to the output: at most 39 bytes and 17 a FIG, which find room.
fn write_block<W: Write>(output: &mut W, number: usize, fib: &[u8]) -> io::Result<()> {
    let mut text = InlineText::<640>::new();
    let _ = put_block(&mut text, number, fib);
    write_whole(output, text.as_str().as_bytes())
}

// The line of the bytes left over, if there are any, to the output.
fn write_rest<W: Write>(output: &mut W, rest: usize) -> io::Result<()> {
    if rest == 0 {
        return Ok(());
    }
    let text = InlineText::<32>::of(format_args!("rest {rest}\n"));
    write_whole(output, text.as_str().as_bytes())
}

// The lines of the whole blocks of a chunk, numbered from a number on, and of the bytes left over.
fn write_chunk<W: Write>(output: &mut W, number: usize, chunk: &[u8]) -> io::Result<()>
    requires { number + length chunk.now < 18446744073709551616 }
{
    let blocks = chunk.chunks_exact(32);
    let rest = blocks.remainder().len();
    for (i, fib) in blocks.enumerate() {
        write_block(output, number + i, fib)?;
    }
    write_rest(output, rest)
}

// What came of listing: how many bytes were read, whether the check of some block held, and why the last read failed, if it did.
#[derive(Clone, Copy)]
pub(crate) struct Listed {
    pub size: usize,
    pub good: bool,
    pub failed: Option<io::Error>,
}

// Lists the FIGs of an input to its end, or as far as it can be read and the text be written. An input of more than 2^48 chunks
// counts as one that failed.
pub(crate) fn list_figs<R: Read, W: Write>(input: &mut R, output: &mut W) -> io::Result<Listed> {
    let mut chunk = [0u8; 32768];
    let mut listed = Listed {
        size: 0,
        good: false,
        failed: None,
    };
    for turn in 0..TURNS {
        let filled = fill(input, &mut chunk);
        let bytes = &chunk[..filled.size];
        write_chunk(output, listed.size / 32, bytes)?;
        listed.size += filled.size;
        listed.good = listed.good || some_holds(bytes);
        listed.failed = filled.failed;
        if filled.size < chunk.len() {
            return Ok(listed);
        }
    }
    listed.failed = Some(io::Error::from_raw_os_error(0));
    Ok(listed)
}
