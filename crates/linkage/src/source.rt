// The input: a named file or standard input, opened and looked at before anything is read.
use crate::facts::{is_folder, regular_size};
use crate::path::text_of;
use crate::say::{Told, say, say_failed};
use crate::session::Session;
use std::fs::{File, Metadata};
use std::io::{ErrorKind, IsTerminal, Read};
use std::rt::Stdin;
use std::{fs, io};

// Where the bytes come from.
#[derive(Drop)]
pub(crate) enum Opened {
    Standard(Stdin),
    Named(File),
}

impl Read for Opened {
    fn read(&mut self, buf: &mut [u8]) -> io::Result<usize> {
        match self {
            Opened::Standard(stdin) => stdin.read(buf),
            Opened::Named(file) => file.read(buf),
        }
    }
}

// An open input, what it is called, and what is known of it.
#[derive(Drop)]
pub(crate) struct Source<'a> {
    pub opened: Opened,
    pub name: &'a [u8],
    pub facts: Option<Metadata>,
}

impl<'a> Source<'a> {
    // How many bytes a regular file has that was named.
    pub(crate) fn named_size(&self) -> Option<usize> {
        match self.opened {
            Opened::Named(_) => regular_size(&self.facts),
            Opened::Standard(_) => None,
        }
    }
}

// What a name among the words means: a file, or standard input or output, for which '-' stands and which is meant where there is none.
#[derive(Clone, Copy)]
pub(crate) enum Name<'a> {
    Standard,
    File(&'a [u8]),
}

// The name at a place among the words, in a buffer.
pub(crate) fn name_at<'a>(session: &Session, at: Option<usize>, room: &'a mut [u8]) -> Name<'a> {
    let Some(at) = at else {
        return Name::Standard;
    };
    match session.word(at, room) {
        b"-" => Name::Standard,
        name => Name::File(name),
    }
}

// The name by which the system tells of standard input.
const STANDARD_INPUT: &str = "/proc/self/fd/0";

// Standard input, unless it is a terminal.
fn standard_input<'a>(session: &Session) -> Result<Source<'a>, Told> {
    let stdin = session.rt.stdin();
    if stdin.is_terminal() {
        return Err(say(
            session,
            &[b"standard input is a terminal: give a file's name"],
        ));
    }
    Ok(Source {
        opened: Opened::Standard(stdin),
        name: b"standard input",
        facts: fs::metadata(&session.rt, STANDARD_INPUT).ok(),
    })
}

// Opens a file for reading.
fn open_read(session: &Session, name: &[u8]) -> io::Result<File> {
    fs::open(&session.rt, text_of(name)?)
}

// A file by its name.
fn open_file<'a>(session: &Session, name: &'a [u8]) -> Result<Source<'a>, Told> {
    match open_read(session, name) {
        Ok(file) => {
            let facts = file.metadata().ok();
            Ok(Source {
                opened: Opened::Named(file),
                name,
                facts,
            })
        }
        Err(e) if e.kind() == ErrorKind::NotFound => {
            Err(say(session, &[b"no such file: ", name]))
        }
        Err(e) => Err(say_failed(session, b"cannot read ", name, e)),
    }
}

// The input of this name, where it can be read. A folder is none.
pub(crate) fn open_source<'a>(session: &Session, name: Name<'a>) -> Result<Source<'a>, Told> {
    let source = match name {
        Name::Standard => standard_input(session)?,
        Name::File(name) => open_file(session, name)?,
    };
    if is_folder(&source.facts) {
        return Err(say(session, &[b"a folder, not a file: ", source.name]));
    }
    Ok(source)
}
