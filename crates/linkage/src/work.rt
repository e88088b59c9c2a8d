// The actions: a recording or a sheet is read to its end, what is asked for is made of it in memory, and only then is anything
// written. What is handed to `deliver` is proved to be all of what was asked for, of what was read (specs/Made.antt).
ghost use Rattle.linkage.specs.Made.{Holding};

use crate::facts::regular_size;
use crate::figs_text::list_figs;
use crate::say::{Told, say, say_failed, say_number, write_help};
use crate::session::Session;
use crate::source::Source;
use crate::target::{Target, close_output, deliver};
use input::Received;
use out::{Unwritten, front};
use outputs::{Output, write_output};
use rules::Outcome;
use std::io;
use std::io::IsTerminal;
use table::Table;

// Where progress is told, in bytes of so many: on a terminal, of a file whose size is known.
fn expected(session: &Session, source: &Source) -> Option<usize> {
    let size = regular_size(&source.facts)?;
    if 0 < size && session.rt.stderr().is_terminal() {
        Some(size)
    } else {
        None
    }
}

// Says that a read failed, after so many bytes.
fn say_broken(session: &Session, name: &[u8], size: usize, error: io::Error) -> Told {
    say_failed(session, b"cannot read ", name, error);
    say_number(
        session,
        b"reading broke off after ",
        size,
        b" bytes: nothing was written",
    )
}

// Says why nothing was written. Tables that were read meet the rules and buffers are long enough, so that nobody should see it.
fn say_unwritten(session: &Session, why: Unwritten) -> Told {
    match why {
        Unwritten::WrongTable => say(session, &[b"the table breaks its rules (9)"]),
        Unwritten::ShortBuffer => say(session, &[b"the output finds no room (8)"]),
    }
}

// Says that no set is shown in so many blocks, how many of them were refused, if any, and why that may be.
fn say_unshown(session: &Session, blocks: usize, refused: usize) {
    say_number(session, b"no set is shown in ", blocks, b" blocks");
    if refused != 0 {
        say_number(
            session,
            b"refused blocks: ",
            refused,
            b"; 'check' tells which",
        );
    }
    say(
        session,
        &[
            b"a set is shown when the next start of its list has come; a refused block drops open lists. 'figs' tells what the blocks hold",
        ],
    );
}

// What is worth knowing of a recording whose blocks are good, beside what is listed: that no set is shown, that the table is full.
fn remark_table(session: &Session, table: Table, blocks: usize, refused: usize) {
    let sets = table.sets;
    if sets.shown_count() == 0 {
        say_unshown(session, blocks, refused);
    }
    if sets.count == Table::KEYS {
        say(
            session,
            &[b"the table holds 32 sets, as many as it can: others may have found no room"],
        );
    }
}

// Says that these blocks are probably no recording, and what one is.
fn say_no_recording(session: &Session, blocks: usize) {
    say_number(
        session,
        b"the check fails in every one of ",
        blocks,
        b" blocks: this is probably no recording, or one that begins inside a block",
    );
    say(
        session,
        &[
            b"a recording is blocks of 32 bytes, one after another, the last two bytes of each a check over the 30 before them",
        ],
    );
}

// What is worth knowing of so many bytes that were read as blocks: none, or no block with a good check.
fn remark_blocks(session: &Session, size: usize, good: bool) {
    if size == 0 {
        say(session, &[b"the input is empty"]);
    } else if 32 <= size && !good {
        say_no_recording(session, size / 32);
    }
}

// What is worth knowing of a recording beside what is listed.
fn remark(session: &Session, received: &Received) {
    if received.rest != 0 {
        say_number(
            session,
            b"a rest of ",
            received.rest,
            b" bytes at the end is no block",
        );
    }
    remark_blocks(session, received.size, received.good);
    if received.good {
        remark_table(
            session,
            received.table,
            received.size / 32,
            received.refused,
        );
    }
}

// A table that was read, with its rest, made into what is asked for, and delivered.
fn hand_over(
    session: &Session,
    asked: Output,
    table: Table,
    rest: usize,
    target: Target,
) -> Result<(), Told>
    requires { Holding table rest }
{
    let mut made = [0u8; 264000];
    match write_output(asked, table, rest, &mut made) {
        Ok(size) => deliver(session, asked, target, front(&made, size)),
        Err(why) => Err(say_unwritten(session, why)),
    }
}

// A recording: read, handed over, and remarked on.
pub(crate) fn use_recording(
    session: &Session,
    asked: Output,
    source: &mut Source,
    target: Target,
) -> Result<(), Told> {
    let whole = expected(session, source);
    let received = input::receive(&mut source.opened, whole, &mut session.rt.stderr());
    if let Some(e) = received.failed {
        return Err(say_broken(session, source.name, received.size, e));
    }
    hand_over(session, asked, received.table, received.rest, target)?;
    remark(session, &received);
    Ok(())
}

// A sheet: loaded, and handed over.
pub(crate) fn use_sheet(
    session: &Session,
    asked: Output,
    source: &mut Source,
    target: Target,
) -> Result<(), Told> {
    let fetched = input::receive_sheet(&mut source.opened);
    if let Some(e) = fetched.failed {
        return Err(say_broken(session, source.name, fetched.size, e));
    }
    let Outcome::Done = fetched.loaded.outcome else {
        return Err(say(session, &[b"not a sheet (10)"]));
    };
    hand_over(session, asked, fetched.loaded.table, 0, target)
}

// Says that standard output could not be written to.
fn say_unwritable(session: &Session, error: io::Error) -> Told {
    say_failed(session, b"cannot write to standard output", b"", error)
}

// How a text ends that is written while a recording is read, which was read to its end where no read failed: whether it is kept, and
// what is worth knowing beside it.
fn end_text(
    session: &Session,
    source: &Source,
    failed: Option<io::Error>,
    size: usize,
    good: bool,
) -> Result<(), Told> {
    if let Some(e) = failed {
        return Err(say_failed(session, b"cannot read ", source.name, e));
    }
    close_output(session).map_err(|e| say_unwritable(session, e))?;
    remark_blocks(session, size, good);
    Ok(())
}

// The FIGs of a recording, listed while it is read.
pub(crate) fn use_figs(session: &Session, source: &mut Source) -> Result<(), Told> {
    let listed = list_figs(&mut source.opened, &mut session.rt.stdout()).map_err(|e| say_unwritable(
        session, e,
    ))?;
    end_text(session, source, listed.failed, listed.size, listed.good)
}

// The refused blocks of a recording, told while it is read, and its counts.
pub(crate) fn use_check(session: &Session, source: &mut Source) -> Result<(), Told> {
    let checked = input::check_recording(&mut source.opened, &mut session.rt.stdout());
    checked.written.map_err(|e| say_unwritable(session, e))?;
    let received = &checked.received;
    end_text(
        session,
        source,
        received.failed,
        received.size,
        received.good,
    )
}

// The text of `help`, to standard output.
pub(crate) fn help(session: &Session) -> Result<(), Told> {
    write_help(&mut session.rt.stdout())
        .and_then(|()| close_output(session))
        .map_err(|e| say_unwritable(session, e))
}
