// The command `linkage`: linkage sets of digital radio, from recorded blocks to sheets and back. It takes its words, opens,
// reads and writes the files itself and says what is wrong; what it does with the bytes is proved in the crates below.
// Its exit status says nothing. So the last thing that it does is to say on descriptor 3, if the launcher opened one, how it
// ended: `done` after every byte is written and in its place, `no` after it has said what is wrong.
#![tactic(auto)]

mod facts;
mod figs_text;
mod path;
mod say;
mod session;
mod source;
mod target;
mod words;
mod work;

use outputs::Output;
use say::{Told, say, write_help};
use session::Session;
use source::{Source, name_at, open_source};
use std::fmt::InlineText;
use target::{Target, aim};
use words::{Action, Options, action_of, read_options};
use work::{help, use_check, use_figs, use_recording, use_sheet};

// ---- what goes with what

// The form in which the sets of a recording are listed: in columns they have their numbers.
fn list_form(options: Options) -> Output {
    if options.confirmed {
        return Output::Confirmed;
    }
    if options.table {
        return Output::Columns;
    }
    if options.csv {
        return Output::Spreadsheet;
    }
    Output::Lines
}

// The form in which those of a sheet are, which has no numbers.
fn show_form(options: Options) -> Output {
    if options.table {
        return Output::SheetColumns;
    }
    if options.csv {
        return Output::SheetSpreadsheet;
    }
    Output::Lines
}

// What an action makes: `list` and `show` make what the options say.
fn asked_for(action: Action, options: Options) -> Output {
    match action {
        Action::Sheet => Output::Sheet,
        Action::Air => Output::Blocks,
        Action::Totals => Output::Totals,
        Action::Show => show_form(options),
        _ => list_form(options),
    }
}

// Carries an action out on an open input.
fn carry_out(
    session: &Session,
    action: Action,
    options: Options,
    source: &mut Source,
    target: Target,
) -> Result<(), Told> {
    let asked = asked_for(action, options);
    match action {
        Action::Figs => use_figs(session, source),
        Action::Check => use_check(session, source),
        Action::Show | Action::Air => use_sheet(session, asked, source, target),
        _ => use_recording(session, asked, source, target),
    }
}

// Whether an action reads a recording.
fn reads_recording(action: Action) -> bool {
    matches!(
        action,
        Action::List | Action::Sheet | Action::Figs | Action::Check | Action::Totals
    )
}

// Whether an action wants a file to write into.
fn wants_output(action: Action) -> bool {
    matches!(action, Action::Sheet | Action::Air)
}

// Whether an action lists sets.
fn lists_sets(action: Action) -> bool {
    matches!(action, Action::List | Action::Show)
}

// A named file that is shorter than a block is no recording.
fn see_long_enough(session: &Session, action: Action, source: &Source) -> Result<(), Told> {
    match source.named_size() {
        Some(size) if size < 32 && reads_recording(action) => {
            let why = InlineText::<64>::of(format_args!(" has {size} bytes and a block has 32"));
            Err(say(
                session,
                &[b"not a recording: ", source.name, why.as_str().as_bytes()],
            ))
        }
        _ => Ok(()),
    }
}

// Finds out where the output goes, and carries the action out on an open input.
fn perform_on(
    session: &Session,
    action: Action,
    options: Options,
    source: &mut Source,
) -> Result<(), Told> {
    let mut output = [0u8; 4096];
    let mut path = [0u8; 4096];
    let to = name_at(session, options.output, &mut output);
    let target = aim(session, to, options.force, &mut path)?;
    if facts::is_same_file(&source.facts, &target.old) {
        return Err(say(session, &[source.name, b" is both input and output"]));
    }
    carry_out(session, action, options, source, target)
}

// Opens the input, and carries the action out.
fn perform(session: &Session, action: Action, options: Options) -> Result<(), Told> {
    let mut input = [0u8; 4096];
    let from = name_at(session, options.input, &mut input);
    let mut source = open_source(session, from)?;
    see_long_enough(session, action, &source)?;
    perform_on(session, action, options, &mut source)
}

// Sees that the forms that are asked for go with the action.
fn see_forms(session: &Session, action: Action, options: Options) -> Result<(), Told> {
    if !lists_sets(action) && options.table {
        return Err(say(session, &[b"--table goes with list and show"]));
    }
    if !lists_sets(action) && options.csv {
        return Err(say(session, &[b"--csv goes with list and show"]));
    }
    if action != Action::List && options.confirmed {
        return Err(say(session, &[b"--confirmed goes with list"]));
    }
    Ok(())
}

// Sees that the options go with the action, which a word named.
fn see_together(
    session: &Session,
    action: Action,
    options: Options,
    word: &[u8],
) -> Result<(), Told> {
    if wants_output(action) {
        if options.output.is_none() {
            return Err(say(session, &[word, b" wants -o FILE"]));
        }
    } else if options.output.is_some() {
        return Err(say(session, &[b"-o goes with sheet and air"]));
    } else if options.force {
        return Err(say(session, &[b"-f goes with sheet and air"]));
    }
    see_forms(session, action, options)
}

// Does what an action, which a word named, and the words after it ask for.
fn obey(session: &Session, action: Action, word: &[u8]) -> Result<(), Told> {
    let options = read_options(session);
    if action == Action::Help || options.help {
        return help(session);
    }
    options.see_right(session)?;
    see_together(session, action, options, word)?;
    perform(session, action, options)
}

// Does what the words ask for.
fn run(session: &Session) -> Result<(), Told> {
    if session.word_count() < 2 {
        let _ = write_help(&mut session.rt.stderr());
        return Err(Told);
    }
    let mut room = [0u8; 4096];
    let word = session.word(1, &mut room);
    let Some(action) = action_of(word) else {
        say(session, &[b"no such command: ", word]);
        let _ = write_help(&mut session.rt.stderr());
        return Err(Told);
    };
    obey(session, action, word)
}

fn main(rt: HostRuntime) {
    let session = Session::begin(rt);
    match run(&session) {
        Ok(()) => session.tell(b"done"),
        Err(Told) => session.tell(b"no"),
    }
}
