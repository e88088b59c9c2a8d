// Reading blocks into a table (document 01, Collecting and Numbered outcomes): one block with its notes,
// and a whole recording in one call. Every function is proved and none that is `pub` has a `requires`.
// What a block does is read_block of crate rules, on the table's stored form.

#![tactic(auto)]

ghost use Rattle.std.specs.Prelude.{◌≡◌, unwrap_or, not, ◌&&◌, ◌+◌, ◌<◌, ◌≤◌, get_or, eqb};
ghost use Rattle.field.specs.FieldStep.{has_list_in, continues};
ghost use Rattle.rules.specs.Block.{bit};
ghost use Rattle.rules.specs.Collecting.{next_block, most_keys, most_ids};
ghost use Rattle.rules.specs.Outcomes.{read_block, is_full};
ghost use Rattle.table.specs.Stored.{Stored, Given};
ghost use Rattle.sets.specs.Stored.{opened_sets};
ghost use Rattle.lists.specs.Grown.{with_field};
ghost use Rattle.lists.specs.Stored.{empty_list};
ghost use Rattle.reading.specs.Steps.{opens_in, unheld_note, confirmed_by, no_notes, noted_at, is_done};
ghost use Rattle.reading.specs.Desks.{sets_of, LaidOut, Shelved, Ready, Exchanges, Takes};
ghost use Rattle.reading.specs.Runs.{no_reply, reply_to, reply_with, Runs, run_as, refused_table, recorded_as, unrecorded};

mod rows;

use field::Field;
use lists::IdList;
use rows::{Column, Rows};
use rules::{Note, Outcome};
use sets::Sets;
use table::Table;
use totals::Totals;

// Whether a field is a start: it has a list, and continues none.
fn is_start(f: Field) -> bool
    ensures { result ≡ (has_list_in f && not (continues f)) }
{
    f.has_list() && !f.is_continuation()
}

// Whether a field of a key that is not held opens a list: a start, and room for one key more.
#[tactic(auto, unfolding(crate::specs::Steps::opens_in))]
fn opens(f: Field, count: usize) -> bool
    ensures { result ≡ opens_in f count }
{
    is_start(f) && count < Table::KEYS
}

// The note of a field that changes nothing: a start that finds no room, or an unknown key.
#[tactic(auto, unfolding(crate::specs::Steps::unheld_note))]
fn unheld_note(f: Field) -> Note
    ensures { result ≡ unheld_note f }
{
    if is_start(f) {
        Note::Full
    } else {
        Note::UnknownKey
    }
}

// One note of a block.
#[derive(Clone, Copy)]
pub struct Noted {
    pub note: Note,
}

// The notes of a taken block, one a field: the first `count` places.
// Kept: an array with its count, for notes stand in fixed memory, with no heap.
#[derive(Clone, Copy)]
pub struct Notes {
    pub notes: [Noted; 14],
    pub count: usize,
}

impl Notes {
    // No note.
    fn none() -> Self
        ensures { result ≡ no_notes }
    {
        Notes {
            notes: [Noted { note: Note::Opened }; 14],
            count: 0,
        }
    }

    // With a note more at a place.
    fn noted(self, at: usize, note: Note) -> Self
        requires { at < 14 }
        ensures { result ≡ noted_at self at note }
    {
        let mut next = self;
        next.notes[at] = Noted { note };
        next.count = at + 1;
        next
    }
}

// How many starts found no room, with one note more.
fn with_start(full: usize, note: Note) -> usize
    requires { full < 18446744073709551615 }
    ensures { result ≡ full + bit (is_full note) }
{
    full + usize::from(note == Note::Full)
}

// How many blocks were refused, with one more of this outcome.
fn with_refusal(refused: usize, outcome: Outcome) -> usize
    requires { refused < 18446744073709551615 }
    ensures { result ≡ refused + bit (not (is_done outcome)) }
{
    refused + usize::from(outcome != Outcome::Done)
}

// The number of the block after so many: blocks are numbered from 1, and the number stops.
#[tactic(auto, unfolding(rules::specs::Collecting::next_block))]
fn next_block(blocks: u32) -> u32
    ensures { result ≡ next_block blocks }
{
    blocks.saturating_add(1)
}

// The number of a held key's set after a field with this note in the block of this number: at a showing, the block's.
fn confirmed_by(note: Note, before: u32, block: u32) -> u32
    ensures { result ≡ confirmed_by note before block }
{
    if note == Note::ShownAndOpened {
        block
    } else {
        before
    }
}

// The answer to a block: its outcome, the place where a refused block broke and else 0, one note a field where it is taken, and
// the table then.
// Kept: no Result, for a refused block leaves a place and a table too (read_block_refused, read_block_place of crate promises).
#[derive(Clone, Copy)]
pub struct Answer {
    pub outcome: Outcome,
    pub place: usize,
    pub notes: Notes,
    pub table: Table,
}

// What is said of the present block, so far; and of all blocks how many starts found no room, and how many were refused.
#[derive(Clone, Copy)]
struct Reply {
    outcome: Outcome,
    place: usize,
    full: usize,
    refused: usize,
    notes: Notes,
}

impl Reply {
    // Before the first block.
    fn none() -> Self
        ensures { result ≡ no_reply }
    {
        Reply {
            outcome: Outcome::Done,
            place: 0,
            full: 0,
            refused: 0,
            notes: Notes::none(),
        }
    }

    // To a further block, with this outcome at this place, before its fields.
    fn to(self, outcome: Outcome, place: usize) -> Self
        requires { self.refused < 18446744073709551615 }
        ensures { result ≡ reply_to self outcome place }
    {
        Reply {
            outcome,
            place,
            refused: with_refusal(self.refused, outcome),
            notes: Notes::none(),
            ..self
        }
    }

    // With the note of a field more.
    fn noted(self, at: usize, note: Note) -> Self
        requires { (at < 14) × (self.full < 18446744073709551615) }
        ensures { result ≡ reply_with self at note }
    {
        Reply {
            full: with_start(self.full, note),
            notes: self.notes.noted(at, note),
            ..self
        }
    }

    // The answer, with this table.
    fn answer(self, table: Table) -> Answer
        ensures { result ≡ record { outcome = self.outcome; place = self.place; notes = self.notes; table = table } }
    {
        Answer {
            outcome: self.outcome,
            place: self.place,
            notes: self.notes,
            table,
        }
    }
}

// What blocks one after another come to: what is said of the last, and the table then.
#[derive(Clone, Copy)]
struct Run {
    reply: Reply,
    table: Table,
}

// A table on the desk, while blocks are read into it: its sets as they were laid out, and since then their states and numbers, the
// lists in columns, the totals and the blocks.
#[derive(Clone, Copy)]
struct Desk {
    laid: Sets,
    on: [bool; Table::KEYS],
    confirmed: [u32; Table::KEYS],
    shown: Column,
    draft: Column,
    totals: Totals,
    blocks: u32,
}

// Sets with the key of a field that starts a list.
fn opened(sets: Sets, at: usize, key: u32, body: &[u8], f: Field) -> Sets
    ensures { result ≡ opened_sets sets at key (eqb f.la 1) (unwrap_or (with_field empty_list body.now f) empty_list) }
{
    let list = IdList::empty()
        .with_field(body, f)
        .unwrap_or(IdList::empty());
    sets.opened_at(at, key, f.la == 1, list)
}

impl Desk {
    // Sets laid out, with totals and blocks.
    fn of(sets: Sets, totals: Totals, blocks: u32) -> Self
        ensures { LaidOut sets totals blocks result }
    {
        let on = sets.on;
        let confirmed = sets.confirmed;
        Desk {
            laid: sets,
            on,
            confirmed,
            shown: Column::of(&sets.shown),
            draft: Column::of(&sets.draft),
            totals,
            blocks,
        }
    }

    // The sets as they are now.
    fn sets(&self) -> Sets
        requires { Shelved self.now }
        ensures { result ≡ sets_of self.now }
    {
        let mut sets = self.laid;
        let on = self.on;
        let confirmed = self.confirmed;
        sets.on = on;
        sets.confirmed = confirmed;
        self.shown.gather(&mut sets.shown);
        self.draft.gather(&mut sets.draft);
        sets
    }

    // A field of the key at a place: its note.
    fn exchange(&mut self, p: usize, body: &[u8], f: Field) -> Note
        requires { Shelved self.old × (p < most_keys) × (get_or self.old.draft.rows.lens p 0 ≤ most_ids) }
        ensures { Exchanges self.old p body.now f self.new result }
    {
        let a = p * IdList::MOST;
        let e = a + IdList::MOST;
        let row = self.shown.rows.at(p);
        let held = rows::on_held(
            &mut self.shown.numbers[a..e],
            &mut self.shown.kinds[a..e],
            row,
            &mut self.draft.numbers[a..e],
            &mut self.draft.kinds[a..e],
            self.draft.rows.at(p),
            body,
            f,
        );
        let on = f.la == 1;
        self.totals = self
            .totals
            .exchanged(row.len, self.on[p], held.shown.len, on);
        self.confirmed[p] = confirmed_by(held.note, self.confirmed[p], self.blocks);
        self.shown.rows.put(p, held.shown, true);
        self.draft.rows.put(p, held.draft, true);
        self.on[p] = on;
        held.note
    }

    // A start of a new key, at its place: all sets are laid out anew with its list.
    fn open(&mut self, p: usize, key: u32, body: &[u8], f: Field)
        requires { Shelved self.old }
        ensures { LaidOut (opened_sets (sets_of self.old) p key (eqb f.la 1) (unwrap_or (with_field empty_list body.now f) empty_list)) self.old.totals self.old.blocks self.new }
    {
        let sets = opened(self.sets(), p, key, body, f);
        let on = sets.on;
        let confirmed = sets.confirmed;
        self.laid = sets;
        self.on = on;
        self.confirmed = confirmed;
        self.shown.lay(&sets.shown);
        self.draft.lay(&sets.draft);
    }

    // A field of a taken block, in its FIG's body: its note.
    fn take(&mut self, body: &[u8], f: Field) -> Note
        requires { Ready self.old }
        ensures { Takes self.old body.now f self.new result }
    {
        let key = f.key();
        let count = self.laid.count;
        let p = sets::place_of(&self.laid.keys, count, key);
        if sets::stands_at(&self.laid.keys, count, p, key) {
            return self.exchange(p, body, f);
        }
        if !opens(f, count) {
            return unheld_note(f);
        }
        self.open(p, key, body, f);
        Note::Opened
    }
}

// Reads the whole blocks of some bytes in order: each is judged, and each field of a taken one goes onto the desk.
fn run_blocks(table: Table, bytes: &[u8]) -> Run
    requires { Stored table }
    ensures { Runs table bytes.now result }
{
    let mut desk = Desk::of(table.sets, table.totals, table.blocks);
    let mut reply = Reply::none();
    for b in 0..bytes.len() / 32 {
        let at = 32 * b;
        let fib = &bytes[at..at + 32];
        desk.blocks = next_block(desk.blocks);
        match block::judge(fib) {
            Err(refused) => {
                reply = reply.to(Outcome::from(refused.fault), refused.place);
                desk.draft.rows = Rows::none();
            }
            Ok(found) => {
                reply = reply.to(Outcome::Done, 0);
                for i in 0..found.count {
                    let spot = found.spots[i];
                    let body = &fib[spot.start as usize..spot.end as usize];
                    let note = desk.take(body, spot.field(body));
                    reply = reply.noted(i, note);
                }
            }
        }
    }
    Run {
        reply,
        table: Table::of(desk.sets(), desk.totals, desk.blocks),
    }
}

// Reads one block into a table: 9, then 1 to 6, each with its place, or 0 with one note a field.
pub fn read_block(table: Table, fib: &[u8]) -> Answer
    ensures { Given table (λ c. result ≡ run_as (read_block c fib.now)) (result ≡ refused_table table) }
{
    if !table.meets() {
        return Answer {
            outcome: Outcome::WrongTable,
            place: 0,
            notes: Notes::none(),
            table,
        };
    }
    if fib.len() != 32 {
        return Answer {
            outcome: Outcome::NotABlock,
            place: 0,
            notes: Notes::none(),
            table,
        };
    }
    let run = run_blocks(table, fib);
    run.reply.answer(run.table)
}

// What reading a whole recording leaves: 0 or 9, how many bytes were left over, how many starts found no room, how many blocks were
// refused, and the table.
// Kept: no Result, for a refused table is handed back with the counts, and a recording of refused blocks leaves them too (`unrecorded`).
#[derive(Clone, Copy)]
pub struct Recorded {
    pub outcome: Outcome,
    pub rest: usize,
    pub full: usize,
    pub refused: usize,
    pub table: Table,
}

// Reads the whole blocks of a recording in order, refused ones too. The table is tested once.
pub fn read_recording(table: Table, bytes: &[u8]) -> Recorded
    ensures { Given table (λ c. result ≡ recorded_as c bytes.now) (result ≡ unrecorded table) }
{
    if !table.meets() {
        return Recorded {
            outcome: Outcome::WrongTable,
            rest: 0,
            full: 0,
            refused: 0,
            table,
        };
    }
    let run = run_blocks(table, bytes);
    Recorded {
        outcome: Outcome::Done,
        rest: bytes.len() % 32,
        full: run.reply.full,
        refused: run.reply.refused,
        table: run.table,
    }
}
