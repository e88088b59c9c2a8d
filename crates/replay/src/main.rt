// Answers a replay script on standard input, a line for each command: a thin program over the library,
// for tests. Every function is proved to be safe and to end; what it writes is tested. This file reads
// line after line and has each answered.
#![tactic(auto)]

mod answer;
mod command;
mod failure;
mod line;
mod spoil;

use command::{State, answer_line};
use failure::{Failure, say};
use out::{Page, front};
use std::io;
use std::io::{ErrorKind, Read, Write};

// The line that is being read, as far as it was gathered; what does not fit is left out. It has room for a few bytes more than a line
// may have, which tell one that is too long.
#[derive(Drop)]
struct Gathered {
    bytes: [u8; 65540],
    size: usize,
}

impl Gathered {
    // Adds a piece to it.
    fn gather(&mut self, piece: &[u8]) {
        let mut page = Page {
            buffer: &mut self.bytes,
            at: self.size,
        };
        page.put_bytes(piece);
        self.size = page.size();
    }
}

// Writes an answer. A write that a signal interrupts counts as one that fails.
// Kept: crate input has the same loop; this program uses nothing of it, and has words of its own for a write that takes nothing.
fn write_out<W: Write>(output: &mut W, answer: &[u8]) -> io::Result<()> {
    let mut done = 0;
    while done < answer.len() {
        let n = output.write(&answer[done..])?;
        if n == 0 {
            return Err(io::Error::from(ErrorKind::WriteZero));
        }
        done += n;
    }
    Ok(())
}

// Answers the line, which is whole, and begins a new one.
fn answer_whole<W: Write>(
    output: &mut W,
    state: &mut State,
    line: &mut Gathered,
    out: &mut [u8],
) -> io::Result<()> {
    let mut page = Page::over(out);
    answer_line(state, front(&line.bytes, line.size), &mut page);
    let size = page.size();
    line.size = 0;
    write_out(output, front(out, size))
}

// Answers the lines that end in a chunk, and keeps what stands after them for the next chunk.
fn answer_chunk<W: Write>(
    output: &mut W,
    state: &mut State,
    line: &mut Gathered,
    chunk: &[u8],
    out: &mut [u8],
) -> io::Result<()> {
    for piece in chunk.split_inclusive(|byte| *byte == b'\n') {
        let Some(words) = piece.strip_suffix(b"\n") else {
            line.gather(piece);
            return Ok(());
        };
        line.gather(words);
        answer_whole(output, state, line, out)?;
    }
    Ok(())
}

// Answers line after line; a line that a failed read cut short has no answer. A proved loop has to end, and nothing says that the
// input does: so it has a number of turns that no run uses up.
fn run<R: Read, W: Write>(
    input: &mut R,
    output: &mut W,
    line: &mut Gathered,
    out: &mut [u8],
) -> Result<(), Failure> {
    let mut chunk = [0u8; 65536];
    let mut state = State::start();
    for _ in 0..u64::MAX {
        let got = input.read(&mut chunk).map_err(Failure::Read)?;
        if got == 0 {
            return answer_whole(output, &mut state, line, out).map_err(Failure::Write);
        }
        answer_chunk(output, &mut state, line, &chunk[..got], out).map_err(Failure::Write)?;
    }
    Ok(())
}

// The longest answer is twice the bytes of a table written for air.
fn main(rt: HostRuntime) {
    let mut line = Gathered {
        bytes: [0; 65540],
        size: 0,
    };
    let mut out = [0u8; 300000];
    if let Err(failure) = run(&mut rt.stdin(), &mut rt.stdout(), &mut line, &mut out) {
        say(&rt, failure);
    }
}
