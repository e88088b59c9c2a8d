// The report of a recording while it is read (document 02, R-1), in fixed memory: a line for each refused block, as it comes, and the
// counts at the end. What is handed to the system to be written is proved to be the lines of the blocks that were just read, numbered
// after those before them, and at the end the counts of all that was read (specs/Checking.antt).
ghost use Rattle.std.specs.Prelude.{◌≡◌, true, ◌+◌, ◌/◌, ◌%◌, ◌≤◌, ◌<◌, length, IsNone, IsOk};
ghost use Rattle.rules.specs.Outcomes.{refused_of};
ghost use Rattle.report.specs.Report.{lines_of};
ghost use Rattle.out.specs.Page.{Writes};
ghost use Rattle.input.specs.Reading.{Reading};
ghost use Rattle.input.specs.Checking.{Checking, CheckedOn, Follows, Ends};

use crate::{Received, TURNS, add_chunk, next_blocks, no_reason, nothing, write_whole};
use out::{Page, front};
use report::{put_block, put_counts};
use std::io;
use std::io::{Read, Write};

// What is known of a recording that was checked: what it left, how many of its blocks are refused, and whether all that is to be
// told of it was written, or else why not.
#[derive(Clone, Copy)]
pub struct Checked {
    pub received: Received,
    pub refused: usize,
    pub written: io::Result<()>,
}

// ---- the lines

// The lines of the refused ones of some whole blocks, which come after so many blocks, and how many those are.
fn put_blocks(page: &mut Page, before: usize, bytes: &[u8]) -> usize
    requires { before + length bytes.now < 18446744073709551616 }
    ensures lines { Writes page.old (lines_of (length bytes.now / 32) before bytes.now) page.new }
    ensures refused_are { result ≡ refused_of (length bytes.now / 32) bytes.now }
{
    let mut refused = 0;
    for (i, block) in bytes.chunks_exact(32).enumerate() {
        refused += usize::from(put_block(page, before + i + 1, block));
    }
    refused
}

// Writes lines. Its caller shows that they are those of these blocks, which come after all that were read before.
fn write_lines<W: Write>(
    output: &mut W,
    before: &Received,
    chunk: &[u8],
    lines: &[u8],
) -> io::Result<()>
    requires { Follows before.now chunk.now lines.now }
{
    write_whole(output, lines)
}

// Tells the refused ones of at most 1,024 blocks, which come after all that were read before, and counts them.
fn tell_blocks<W: Write>(output: &mut W, checked: &mut Checked, chunk: &[u8])
    requires checking { Checking checked.old }
    requires size_value { checked.old.received.size % 32 ≡ 0 }
    requires chunk_len_bound { length chunk.now ≤ 32768 }
    requires size_bound { checked.old.received.size + length chunk.now ≤ 9223372036854775808 }
    ensures same_received { checked.new.received ≡ checked.old.received }
    ensures refused_value { checked.new.refused ≡ checked.old.refused + refused_of (length chunk.now / 32) chunk.now }
{
    let mut text = [0u8; 81920];
    let mut page = Page::over(&mut text);
    let refused = put_blocks(&mut page, checked.received.size / 32, chunk);
    let size = page.size();
    checked.refused += refused;
    checked.written = write_lines(output, &checked.received, chunk, front(&text, size));
}

// ---- the counts

// Writes the end of a report. Its caller shows that it is that of all that was read, to the input's end and with all lines written.
fn write_end<W: Write>(output: &mut W, checked: &Checked, text: &[u8]) -> io::Result<()>
    requires { Ends checked.now text.now }
{
    write_whole(output, text)
}

// The counts of what was checked to its end, written.
fn tell_counts<W: Write>(output: &mut W, checked: &Checked) -> io::Result<()>
    requires checking { Checking checked.now }
    requires to_its_end { IsNone checked.now.received.failed }
    requires lines_written { IsOk checked.now.written }
{
    let mut text = [0u8; 160];
    let received = &checked.received;
    let mut page = Page::over(&mut text);
    put_counts(
        &mut page,
        received.size / 32,
        checked.refused,
        received.full,
        received.rest,
    );
    let size = page.size();
    write_end(output, checked, front(&text, size))
}

// ---- the recording

// Nothing checked yet.
fn unchecked() -> Checked
    ensures { CheckedOn result true 0 }
{
    Checked {
        received: nothing(),
        refused: 0,
        written: Ok(()),
    }
}

// The blocks that come next, told and read; whether the input may go on.
fn check_on<R: Read, W: Write>(input: &mut R, output: &mut W, checked: &mut Checked) -> bool
    requires checking { Checking checked.old }
    requires size_value { checked.old.received.size % 32 ≡ 0 }
    requires size_bound { checked.old.received.size + 32768 ≤ 9223372036854775808 }
    ensures { CheckedOn checked.new result (checked.old.received.size + 32768) }
{
    let mut chunk = [0u8; 32768];
    let filled = next_blocks(input, &mut chunk);
    let n = filled.size;
    tell_blocks(output, checked, &chunk[..n]);
    add_chunk(&mut checked.received, &chunk[..n], filled.failed);
    checked.written.is_ok() && filled.failed.is_none() && 0 < n && n % 32 == 0
}

// Reads to the end as a recording, and writes its report as it goes; no counts where a read failed.
pub fn check_recording<R: Read, W: Write>(input: &mut R, output: &mut W) -> Checked
    ensures { Checking result }
{
    let mut checked = unchecked();
    for turn in 0..TURNS {
        if !check_on(input, output, &mut checked) {
            if checked.written.is_ok() && checked.received.failed.is_none() {
                checked.written = tell_counts(output, &checked);
            }
            return checked;
        }
    }
    checked.received.failed = Some(no_reason());
    checked
}
