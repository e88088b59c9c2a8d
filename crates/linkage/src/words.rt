// The words after the program's name, as a request. A word is kept by its place among the arguments and read again where it
// is needed.
use crate::say::{Told, say};
use crate::session::Session;
use std::rt::Env;

// What is asked for.
#[derive(Clone, Copy, PartialEq, Eq)]
pub(crate) enum Action {
    List,
    Sheet,
    Show,
    Air,
    Figs,
    Check,
    Totals,
    Help,
}

// What is wrong with the words; a place is that of the word.
#[derive(Clone, Copy)]
enum Fault {
    NoSuchOption(usize),
    SecondInput(usize),
    SecondOutput(usize),
    TooLong,
    NoOutputName,
    TwoForms,
}

// What the words after the action ask for. Files are places among the arguments. `wants` says that the next word is the output's name,
// `plain` that every further word is a file's. `fault` is the first thing wrong.
#[derive(Clone, Copy)]
pub(crate) struct Options {
    pub confirmed: bool,
    pub table: bool,
    pub csv: bool,
    pub force: bool,
    pub help: bool,
    pub input: Option<usize>,
    pub output: Option<usize>,
    wants: bool,
    plain: bool,
    fault: Option<Fault>,
}

// The action that a word names.
pub(crate) fn action_of(word: &[u8]) -> Option<Action> {
    match word {
        b"list" => Some(Action::List),
        b"sheet" => Some(Action::Sheet),
        b"show" => Some(Action::Show),
        b"air" => Some(Action::Air),
        b"figs" => Some(Action::Figs),
        b"check" => Some(Action::Check),
        b"totals" => Some(Action::Totals),
        b"help" | b"--help" | b"-h" => Some(Action::Help),
        _ => None,
    }
}

impl Options {
    // Nothing asked for yet.
    fn none() -> Options {
        Options {
            confirmed: false,
            table: false,
            csv: false,
            force: false,
            help: false,
            input: None,
            output: None,
            wants: false,
            plain: false,
            fault: None,
        }
    }

    fn take_input(&mut self, i: usize) -> Result<(), Fault> {
        if self.input.is_some() {
            return Err(Fault::SecondInput(i));
        }
        self.input = Some(i);
        Ok(())
    }

    fn take_output(&mut self, i: usize) -> Result<(), Fault> {
        if self.output.is_some() {
            return Err(Fault::SecondOutput(i));
        }
        self.output = Some(i);
        self.wants = false;
        Ok(())
    }

    fn take_option(&mut self, i: usize, word: &[u8]) -> Result<(), Fault> {
        match word {
            b"--confirmed" => self.confirmed = true,
            b"--table" => self.table = true,
            b"--csv" => self.csv = true,
            b"-f" => self.force = true,
            b"-o" => self.wants = true,
            b"--" => self.plain = true,
            b"--help" | b"-h" => self.help = true,
            _ => return Err(Fault::NoSuchOption(i)),
        }
        Ok(())
    }

    // Takes the word at a place. One that begins with '-' and goes on is an option.
    fn take_word(&mut self, i: usize, word: &[u8]) -> Result<(), Fault> {
        match word {
            _ if self.wants => self.take_output(i),
            [b'-', _, ..] if !self.plain => self.take_option(i, word),
            _ => self.take_input(i),
        }
    }

    // Takes the argument at a place. After the first fault no word counts, but for one that is too long.
    fn take_argument(&mut self, session: &Session, i: usize) {
        let mut room = [0u8; 4096];
        match session.rt.arg(i, &mut room) {
            Ok(n) if self.fault.is_none() => self.fault = self.take_word(i, &room[..n]).err(),
            Ok(_) => {}
            Err(_) => self.fault = Some(Fault::TooLong),
        }
    }

    // What is wrong after the last word: of the forms there can be one.
    fn end_fault(self) -> Option<Fault> {
        if self.wants {
            return Some(Fault::NoOutputName);
        }
        if self.table && self.csv || self.confirmed && (self.table || self.csv) {
            return Some(Fault::TwoForms);
        }
        None
    }

    // Says what is wrong with the words, if anything is.
    pub(crate) fn see_right(self, session: &Session) -> Result<(), Told> {
        match self.fault {
            Some(fault) => Err(explain(session, fault)),
            None => Ok(()),
        }
    }
}

// Says what is wrong with a word.
fn explain(session: &Session, fault: Fault) -> Told {
    let mut room = [0u8; 4096];
    match fault {
        Fault::NoSuchOption(at) => {
            say(session, &[b"no such option: ", session.word(at, &mut room)])
        }
        Fault::SecondInput(at) => {
            let word = session.word(at, &mut room);
            say(session, &[b"one file at a time: what is ", word, b" for?"])
        }
        Fault::SecondOutput(at) => {
            let word = session.word(at, &mut room);
            say(
                session,
                &[b"one output at a time: what is ", word, b" for?"],
            )
        }
        Fault::TooLong => say(
            session,
            &[b"a word of the command is longer than a file's name can be"],
        ),
        Fault::NoOutputName => say(session, &[b"-o wants a file's name"]),
        Fault::TwoForms => say(
            session,
            &[b"--confirmed, --table or --csv: only one of them"],
        ),
    }
}

// What the words from the third on ask for: the first is the program's name, the second the action.
pub(crate) fn read_options(session: &Session) -> Options {
    let mut options = Options::none();
    for i in 2..session.word_count() {
        options.take_argument(session, i);
    }
    options.fault = options.fault.or(options.end_fault());
    options
}
