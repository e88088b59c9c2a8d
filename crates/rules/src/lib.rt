// The rules of document 01 as definitions, on plain data: see specs/, one module for each section of
// the document and in its order, and proofs/ for the laws above them. The only code here are the two
// enums that an answer is made of, with their numbers, and the kinds of identifiers, so that the definitions and every program speak
// of the same ones. The numbers in document 01 are number_of and note_number of specs/Outcomes.antt. The outcomes above 11 and the note
// above 8 are document 02's and wait for their requests.
#![tactic(auto)]

ghost use Rattle.std.specs.Prelude.{◌≡◌};
ghost use Rattle.rules.specs.Outcomes.{number_of, note_number};

// The numbered outcomes (document 01, Numbered outcomes), in their order.
#[derive(Clone, Copy, PartialEq, Eq)]
pub enum Outcome {
    // 0: done
    Done,
    // 1: the block is not 32 bytes long
    NotABlock,
    // 2: the block's check fails
    CheckFails,
    // 3: a FIG's length is wrong
    WrongFig,
    // 4: linking fields do not fill their FIG
    WrongField,
    // 5: LSN 0, Rfu or shorthand 1, qualifier 2, or P/D 1 with a qualifier not 0
    WrongValue,
    // 6: a start with count 0
    EmptyStart,
    // 7: the key is not held
    NotHeld,
    // 8: a lent buffer is shorter than needed
    ShortBuffer,
    // 9: the table breaks the table rules or has another stored form
    WrongTable,
    // 10: not a sheet
    NotASheet,
    // 11: the key is held and its set not shown
    NotShown,
    // 12: a recording of more than 4,096 blocks or with a rest, or too many codes (R-10, R-14)
    TooMuch,
    // 13: more pieces than can be sent (R-13)
    TooManyPieces,
    // 14: no location code (R-14)
    BadCode,
}

impl From<Outcome> for usize {
    ghost from_gives = { λ outcome n. n ≡ number_of outcome };

    fn from(outcome: Outcome) -> usize {
        match outcome {
            Outcome::Done => 0,
            Outcome::NotABlock => 1,
            Outcome::CheckFails => 2,
            Outcome::WrongFig => 3,
            Outcome::WrongField => 4,
            Outcome::WrongValue => 5,
            Outcome::EmptyStart => 6,
            Outcome::NotHeld => 7,
            Outcome::ShortBuffer => 8,
            Outcome::WrongTable => 9,
            Outcome::NotASheet => 10,
            Outcome::NotShown => 11,
            Outcome::TooMuch => 12,
            Outcome::TooManyPieces => 13,
            Outcome::BadCode => 14,
        }
    }
}

// What one field of a taken block did (document 01, Collecting).
#[derive(Clone, Copy, PartialEq, Eq)]
pub enum Note {
    // 1: a list opened
    Opened,
    // 2: the open list became the shown set, and a new list opened
    ShownAndOpened,
    // 3: identifiers were added to the open list
    Added,
    // 4: skipped, no list is open
    NoOpenList,
    // 5: skipped, the table is full
    Full,
    // 6: the open list was dropped, too long
    TooLong,
    // 7: on or off alone
    StateOnly,
    // 8: unknown key
    UnknownKey,
    // 9: the open list was dropped by a count of 0 (R-4)
    Dropped,
}

impl From<Note> for usize {
    ghost from_gives = { λ note n. n ≡ note_number note };

    fn from(note: Note) -> usize {
        match note {
            Note::Opened => 1,
            Note::ShownAndOpened => 2,
            Note::Added => 3,
            Note::NoOpenList => 4,
            Note::Full => 5,
            Note::TooLong => 6,
            Note::StateOnly => 7,
            Note::UnknownKey => 8,
            Note::Dropped => 9,
        }
    }
}

// The kinds of identifiers, by their qualifier: a DAB service, an RDS code, DRM or AMSS.
pub const DAB: u8 = 0;

pub const RDS: u8 = 1;

pub const DRM: u8 = 3;
