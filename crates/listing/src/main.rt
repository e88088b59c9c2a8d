// The listing program (document 01, example 16): reads a recording of FIBs from standard input and
// prints the table that it leaves. Memory is fixed whatever the recording's length: one chunk, one
// table, one output. What is read and what is printed are proved in crates reading and text. A read or a
// write that fails is said on standard error; after a failed read nothing is printed.
#![tactic(auto)]

use out::front;
use std::fmt::InlineText;
use std::io;
use std::io::Write;

// The system's own words for an error: what stands before the number that the library puts behind them.
// Kept: the other programs have these lines too; one of them for all would be a promise of a library.
fn own_words(text: &str) -> &str {
    match text.split_once(" (os error ") {
        Some((words, _)) => words,
        None => text,
    }
}

// Says on standard error what failed, and what the system says of it.
fn fail(rt: &HostRuntime, what: &str, error: io::Error) {
    let text = InlineText::<256>::of(error);
    let said = own_words(text.as_str());
    let line = InlineText::<512>::of(format_args!("listing: {what}: {said}\n"));
    let _ = Write::write_all(&mut rt.stderr(), line.as_str().as_bytes());
}

fn main(rt: HostRuntime) {
    let received = input::receive(&mut rt.stdin(), None, &mut rt.stderr());
    if let Some(error) = received.failed {
        return fail(&rt, "cannot read standard input", error);
    }
    let mut made = [0u8; 49152];
    // A table that was read meets the rules, and the longest list finds room.
    let size = text::write_listing(received.table, received.rest, &mut made).unwrap_or(0);
    if let Err(error) = Write::write_all(&mut rt.stdout(), front(&made, size)) {
        fail(&rt, "cannot write to standard output", error);
    }
}
