// What is in a block (document 01, Numbered outcomes): a block is taken, with its fields in order, or refused for 1 to 6 in
// that order, each over the whole block before the next, at the place of the first fault of the class answered. One pass over the
// block finds all of it: of two faults the one of the smaller number counts, and of two of one number the first.
#![tactic(auto)]

ghost use Rattle.std.specs.Prelude.{◌≡◌, length};
ghost use Rattle.block.specs.Judged.{outcome_of, nothing, field_in, no_spots, judged};
ghost use Rattle.block.specs.Faults.{fault_in, worse, JudgesFigs, Concludes, CanPush, Pushes};

use field::{Field, FieldStep};
use figs::{Cursor, FigStep};
use rules::Outcome;

// Where a field of a taken block stands: its FIG's body fib[start..end], and its place in that body. Three bytes, which are
// copied with the block's verdict; the field itself is read again there.
#[derive(Clone, Copy)]
pub struct Spot {
    pub start: u8,
    pub end: u8,
    pub place: u8,
}

// The fields of a block, in order: the first count places, with nothing in the others. A block has 14 at most.
// Kept: an array with its count, for a block's fields stand in fixed memory, with no heap.
#[derive(Clone, Copy)]
pub struct Spots {
    pub spots: [Spot; 14],
    pub count: usize,
}

// Why a block is refused: outcomes 1 to 6, in the order in which they are answered.
#[derive(Clone, Copy, PartialEq, Eq, PartialOrd, Ord)]
pub enum Fault {
    // 1: the block is not 32 bytes long
    NotABlock,
    // 2: the block's check fails
    CheckFails,
    // 3: a FIG's length is wrong
    WrongFig,
    // 4: linking fields do not fill their FIG
    WrongField,
    // 5: a field has a wrong value
    WrongValue,
    // 6: a start with count 0
    EmptyStart,
}

impl From<Fault> for Outcome {
    ghost from_gives = { λ fault o. o ≡ outcome_of fault };

    fn from(fault: Fault) -> Outcome {
        match fault {
            Fault::NotABlock => Outcome::NotABlock,
            Fault::CheckFails => Outcome::CheckFails,
            Fault::WrongFig => Outcome::WrongFig,
            Fault::WrongField => Outcome::WrongField,
            Fault::WrongValue => Outcome::WrongValue,
            Fault::EmptyStart => Outcome::EmptyStart,
        }
    }
}

// A refused block: why, and the place of the first fault of that class, counted from 0 in the block; 0 where it is no block or
// its check fails.
#[derive(Clone, Copy, PartialEq, Eq)]
pub struct Refused {
    pub fault: Fault,
    pub place: usize,
}

impl Fault {
    // The fault at a place of the block.
    fn at(self, place: usize) -> Refused
        ensures { result ≡ record { fault = self; place = place } }
    {
        Refused { fault: self, place }
    }
}

// What has been found in the FIGs so far: the first fault of the smallest number, if any, and the fields.
#[derive(Clone, Copy)]
struct Pushed {
    fault: Option<Refused>,
    spots: Spots,
}

// No fields.
#[tactic(auto, unfolding(crate::specs::Judged::no_spots))]
pub fn no_spots() -> Spots
    ensures { result ≡ no_spots }
{
    Spots {
        spots: [Spot {
            start: 0,
            end: 0,
            place: 0,
        }; 14],
        count: 0,
    }
}

// A field with nothing in it.
fn no_field() -> Field
    ensures { result ≡ nothing }
{
    Field {
        cn: 0,
        oe: 0,
        pd: 0,
        flag: 0,
        la: 0,
        hard: 0,
        ils: 0,
        lsn: 0,
        rfu: 0,
        qualifier: 0,
        shorthand: 0,
        count: 0,
        from: 0,
    }
}

impl Spot {
    // The field that stands at a spot of its FIG's body; one with nothing in it where none does.
    #[tactic(auto, unfolding(crate::specs::Judged::field_in, crate::specs::Judged::field_or))]
    pub fn field(self, body: &[u8]) -> Field
        ensures { result ≡ field_in body.now self.place }
    {
        match field::field_at(body, self.place as usize) {
            FieldStep::Found(f, _) => f,
            FieldStep::End => no_field(),
            FieldStep::Wrong => no_field(),
        }
    }
}

// The fault of a field at a place of the block, if it has one: 5 a wrong value, 6 an empty start.
#[tactic(auto, unfolding(crate::specs::Faults::fault_in))]
fn fault_in(f: Field, place: usize) -> Option<Refused>
    ensures { result ≡ fault_in f place }
{
    if f.wrong_value() {
        Some(Fault::WrongValue.at(place))
    } else if f.empty_start() {
        Some(Fault::EmptyStart.at(place))
    } else {
        None
    }
}

// Of the first fault so far and one behind it: the one of the smaller number, and of one number the first.
fn worse_of(first: Option<Refused>, behind: Option<Refused>) -> Option<Refused>
    ensures { result ≡ worse first behind }
{
    let Some(a) = first else {
        return behind;
    };
    let Some(b) = behind else {
        return first;
    };
    if b.fault < a.fault { behind } else { first }
}

// With the fields of a FIG's body fib[start..end] besides.
fn push_fields(fib: &[u8], start: usize, end: usize, before: Pushed) -> Pushed
    requires { CanPush fib.now start end before }
    ensures { Pushes fib.now start end before result }
{
    let body = &fib[start..end];
    let mut fault = before.fault;
    let mut spots = before.spots;
    let mut at = 1;
    loop {
        match field::field_at(body, at) {
            FieldStep::End => return Pushed { fault, spots },
            FieldStep::Wrong => {
                let misfit = Fault::WrongField.at(start + at);
                return Pushed {
                    fault: worse_of(fault, Some(misfit)),
                    spots,
                };
            }
            FieldStep::Found(f, next) => {
                fault = worse_of(fault, fault_in(f, start + at));
                let n = spots.count;
                spots.spots[n] = Spot {
                    start: start as u8,
                    end: end as u8,
                    place: at as u8,
                };
                spots.count = n + 1;
                at = next;
            }
        }
    }
}

// The answer to a block whose FIGs are all right: where its fields stand, unless one is at fault.
#[tactic(auto, unfolding(crate::specs::Faults::Concludes, crate::specs::Faults::answer_of))]
fn conclude(found: Pushed) -> Result<Spots, Refused>
    ensures { Concludes found result }
{
    match found.fault {
        Some(refused) => Err(refused),
        None => Ok(found.spots),
    }
}

// What the FIGs of a block and the fields in them come to: 3, then 4, 5 and 6.
fn judge_figs(fib: &[u8]) -> Result<Spots, Refused>
    requires { length fib.now ≡ 32 }
    ensures { JudgesFigs fib.now result }
{
    let mut cursor = Cursor::first();
    let mut found = Pushed {
        fault: None,
        spots: no_spots(),
    };
    loop {
        match cursor.step(fib) {
            FigStep::End => return conclude(found),
            FigStep::Wrong => return Err(Fault::WrongFig.at(cursor.at)),
            FigStep::Fig {
                kind,
                start,
                end,
                next,
            } => {
                if field::is_linking(kind, &fib[start..end]) {
                    found = push_fields(fib, start, end, found);
                }
                cursor = next;
            }
        }
    }
}

// What is in a block: where its fields stand, or why it is refused (1 to 6 in that order, each over the whole block before the
// next), with the place of the first fault of the class answered.
pub fn judge(fib: &[u8]) -> Result<Spots, Refused>
    ensures { result ≡ judged fib.now }
{
    if fib.len() != 32 {
        return Err(Fault::NotABlock.at(0));
    }
    if !crc::check_holds(fib) {
        return Err(Fault::CheckFails.at(0));
    }
    judge_figs(fib)
}
