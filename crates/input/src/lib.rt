// What stands at the input of the programs: a reader read to its end as a recording, or as a sheet, in fixed memory.
// No contract can say which bytes the system hands over. So each function says that there are bytes of which its answer is
// the reading; and it tells the end of the input from a read that failed.
#![tactic(auto)]

ghost use Rattle.std.specs.Prelude.{◌≡◌, true, ◌+◌, ◌≤◌, ◌%◌, length, OnOk};
ghost use Rattle.std.specs.Io.KnownBytes.{Appends};
ghost use Rattle.input.specs.Counts.{IsPrefixLen};
ghost use Rattle.input.specs.Reading.{good_in, Reading, ReadsMore, ReadOn, Loading};

mod checking;

pub use checking::{Checked, check_recording};
use sheet::Loaded;
use std::fmt::InlineText;
use std::io;
use std::io::{Read, Write};
use table::Table;

// ---- bytes

// How many bytes stand at the front of a buffer, and why the read after them failed, if it did. Where it did not, the buffer is
// full, the input has ended or the blocks that come next are there.
// Kept: of a read that fails the bytes before it count too, so that this is no Result.
#[derive(Clone, Copy)]
pub struct Filled {
    pub size: usize,
    pub failed: Option<io::Error>,
}

// Reads until the buffer is full, the input ends or a read fails; with `eager`, until whole blocks are there and no more.
fn fill_up<R: Read>(input: &mut R, buffer: &mut [u8], eager: bool) -> Filled
    ensures { IsPrefixLen result.size buffer.new }
{
    let mut size: usize = 0;
    while size < buffer.len() && !(eager && 0 < size && size % 32 == 0) {
        match input.read(&mut buffer[size..]) {
            Ok(0) => break,
            Ok(more) => size += more,
            Err(e) => {
                return Filled {
                    size,
                    failed: Some(e),
                };
            }
        }
    }
    Filled { size, failed: None }
}

// Reads until the buffer is full, the input ends or a read fails.
pub fn fill<R: Read>(input: &mut R, buffer: &mut [u8]) -> Filled
    ensures { IsPrefixLen result.size buffer.new }
{
    fill_up(input, buffer, false)
}

// Reads the blocks that come next, as soon as they are there: where no read fails, the buffer then begins with whole blocks, or the
// input has ended.
pub fn next_blocks<R: Read>(input: &mut R, buffer: &mut [u8]) -> Filled
    ensures { IsPrefixLen result.size buffer.new }
{
    fill_up(input, buffer, true)
}

// What a call that fails for no reason of the system's is said to have failed of: its number 0.
fn no_reason() -> io::Error {
    io::Error::from_raw_os_error(0)
}

// Writes all of some bytes, or stops at the first write that takes nothing or fails, when some of them may have been written. A write
// that a signal interrupts counts as one that fails.
pub fn write_whole<W: Write>(output: &mut W, bytes: &[u8]) -> io::Result<()>
    ensures { OnOk result (Appends (W.contents output.old) (W.contents output.new) bytes.now) }
{
    let mut rest = bytes;
    while !rest.is_empty() {
        let taken = output.write(rest)?;
        if taken == 0 {
            return Err(no_reason());
        }
        rest = &rest[taken..];
    }
    Ok(())
}

// ---- a recording

// Whether the check of some whole block among these bytes holds.
pub fn some_holds(bytes: &[u8]) -> bool
    ensures { result ≡ good_in bytes.now }
{
    for block in bytes.chunks_exact(32) {
        if crc::check_holds(block) {
            return true;
        }
    }
    false
}

// What a recording left: the table, which meets the rules, the bytes after its last whole block, how many of its starts found no
// room, how many of its blocks were refused, how many bytes there were, whether the check of some block held, and why a read
// failed, if one did: then this is of a part of the recording only.
#[derive(Clone, Copy)]
pub struct Received {
    pub table: Table,
    pub rest: usize,
    pub full: usize,
    pub refused: usize,
    pub size: usize,
    pub good: bool,
    pub failed: Option<io::Error>,
}

// Nothing received yet.
pub(crate) fn nothing() -> Received
    ensures { ReadOn result true 0 }
{
    Received {
        table: Table::empty(),
        rest: 0,
        full: 0,
        refused: 0,
        size: 0,
        good: false,
        failed: None,
    }
}

// A chunk of bytes more.
pub(crate) fn add_chunk(received: &mut Received, chunk: &[u8], failed: Option<io::Error>)
    requires reading { Reading received.old }
    requires size_value { received.old.size % 32 ≡ 0 }
    requires chunk_bound { received.old.size + length chunk.now ≤ 9223372036854775808 }
    ensures reads_more { ReadsMore received.old chunk.now received.new }
    ensures size_value_2 { received.new.size ≡ received.old.size + length chunk.now }
{
    let read = reading::read_recording(received.table, chunk);
    received.table = read.table;
    received.size += chunk.len();
    received.refused += read.refused;
    received.full += read.full;
    received.rest = read.rest;
    received.good = received.good || some_holds(chunk);
    received.failed = failed;
}

// The next chunk of the input; whether it may go on. A chunk has whole blocks and is filled before it is read, so that only the last
// one, which is not full, can end inside a block.
fn read_on<R: Read>(input: &mut R, received: &mut Received) -> bool
    requires reading { Reading received.old }
    requires size_value { received.old.size % 32 ≡ 0 }
    requires size_bound { received.old.size + 32768 ≤ 9223372036854775808 }
    ensures { ReadOn received.new result (received.old.size + 32768) }
{
    let mut chunk = [0u8; 32768];
    let filled = fill(input, &mut chunk);
    add_chunk(received, &chunk[..filled.size], filled.failed);
    filled.size == 32768
}

// Says how far the reading is, from eight mebibytes on and once in each, and clears that line at the end.
fn tell_progress<W: Write>(progress: &mut W, size: usize, whole: usize, more: bool) {
    if size < 8388608 || more && size % 1048576 != 0 {
        return;
    }
    let line = if more {
        InlineText::<80>::of(format_args!("\r{size} of {whole} bytes read "))
    } else {
        InlineText::of("\r                                                            \r")
    };
    let _ = write_whole(progress, line.as_str().as_bytes());
}

// A proved loop has to end, and nothing says that an input does: so it has so many turns, each for up to 32 KiB, and an input that is
// longer than they reach counts as one that failed.
pub const TURNS: usize = 281474976710656;

// Reads to the end as a recording. Where it knows the bytes that are expected, `whole`, it tells `progress` how far it is.
pub fn receive<R: Read, W: Write>(input: &mut R, whole: Option<usize>, progress: &mut W) -> Received
    ensures { Reading result }
{
    let mut received = nothing();
    for turn in 0..TURNS {
        let more = read_on(input, &mut received);
        if let Some(whole) = whole {
            tell_progress(progress, received.size, whole, more);
        }
        if !more {
            return received;
        }
    }
    received.failed = Some(no_reason());
    received
}

// ---- a sheet

// A sheet as it was loaded, how many bytes it had, and why a read failed, if one did: then this is of a part of the input only.
#[derive(Clone, Copy)]
pub struct Fetched {
    pub loaded: Loaded,
    pub size: usize,
    pub failed: Option<io::Error>,
}

// These bytes as a sheet.
fn as_sheet(bytes: &[u8], failed: Option<io::Error>) -> Fetched
    ensures { Loading result }
{
    Fetched {
        loaded: sheet::load_sheet(bytes),
        size: bytes.len(),
        failed,
    }
}

// Reads to the end as a sheet. A sheet has at most 24,801 bytes: with room for one more, a longer input is refused as it
// should be.
pub fn receive_sheet<R: Read>(input: &mut R) -> Fetched
    ensures { Loading result }
{
    let mut bytes = [0u8; 24802];
    let filled = fill(input, &mut bytes);
    as_sheet(&bytes[..filled.size], filled.failed)
}
