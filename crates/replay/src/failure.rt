// Why a run ended before its input did, and the line of standard error that says so.
use std::fmt::InlineText;
use std::io;

// The read or the write that failed.
#[derive(Drop)]
pub(crate) enum Failure {
    Read(io::Error),
    Write(io::Error),
}

// The system's own words for an error: what stands before the number that the library writes after them.
// Kept: the other programs have these lines too; one of them for all would be a promise of a library.
fn own_words(text: &str) -> &str {
    match text.split_once(" (os error ") {
        Some((words, _)) => words,
        None => text,
    }
}

// Says on standard error what failed, and the system's words for why. Where that cannot be written nobody is told.
pub(crate) fn say(rt: &impl Eprint, failure: Failure) {
    let (what, error) = match failure {
        Failure::Read(error) => ("cannot read standard input", error),
        Failure::Write(error) => ("cannot write to standard output", error),
    };
    let text = InlineText::<256>::of(error);
    let words = own_words(text.as_str());
    let _ = eprintln!(rt; "replay: {what}: {words}");
}
