// What the program says to people: lines on standard error, each after the program's name, and the text of `help`.
use crate::session::Session;
use input::write_whole;
use out::{Page, front};
use std::fmt::InlineText;
use std::io;
use std::io::Write;

// What an action that is not done answers with: it has been said what is wrong.
#[derive(Clone, Copy)]
pub(crate) struct Told;

// Says a line: these parts, one behind another. It has room for the longest name and a sentence.
pub(crate) fn say(session: &Session, parts: &[&[u8]]) -> Told {
    let mut line = [0u8; 4864];
    let mut page = Page::over(&mut line);
    page.put_bytes(b"linkage: ");
    for part in parts {
        page.put_bytes(part);
    }
    page.put(b'\n');
    let size = page.size();
    let _ = write_whole(&mut session.rt.stderr(), front(&line, size));
    Told
}

// A line of words, a number and words.
pub(crate) fn say_number(session: &Session, words: &[u8], number: usize, after: &[u8]) -> Told {
    let digits = InlineText::<20>::of(number);
    say(session, &[words, digits.as_str().as_bytes(), after])
}

// The system's own words for an error: what stands before the number that the library puts behind them.
// Kept: the other programs have these lines too; one of them for all would be a promise of a library.
fn own_words(text: &str) -> &str {
    match text.split_once(" (os error ") {
        Some((words, _)) => words,
        None => text,
    }
}

// A line of words, a name and what the system says of a call that failed.
pub(crate) fn say_failed(session: &Session, words: &[u8], name: &[u8], error: io::Error) -> Told {
    let text = InlineText::<256>::of(error);
    let said = own_words(text.as_str()).as_bytes();
    say(session, &[words, name, b": ", said])
}

// The text of `help`, to a writer.
pub(crate) fn write_help<W: Write>(output: &mut W) -> io::Result<()> {
    write_whole(
        output,
        b"\
linkage list [RECORDING] [--confirmed | --table | --csv]
                                             the linkage sets of a recording
linkage sheet [RECORDING] -o SHEET [-f]      the stored sheet of a recording
linkage show [SHEET] [--table | --csv]       the linkage sets of a sheet
linkage air [SHEET] -o BLOCKS [-f]           a sheet as blocks for air
linkage figs [RECORDING]                     types and lengths of the FIGs of each block, and where a check fails
linkage check [RECORDING]                    which blocks are refused, why, and at which byte
linkage totals [RECORDING]                   how many sets are shown, how many of them are on, how many identifiers they have
linkage help | --version                     this text; the version

A file that is left out, or '-', is standard input; '-o -' is standard output. -f overwrites an existing file.
--confirmed adds to each set the number of the block at which it was last shown, after '#'; blocks count from 1.
--table prints columns for eyes, --csv the same for a spreadsheet: DAB services, FM (RDS) codes, DRM or AMSS apart.
After '--' every word is a file's name. The status is 0 where all was done, and else 1.
Example: linkage list examples/swiss-4001-regional.fib --table
",
    )
}
