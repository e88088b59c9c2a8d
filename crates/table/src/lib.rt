// The table of linkage sets (document 01, Collecting): its limits, its empty table, the test of the table rules, its totals
// (document 02, R-7), its count of blocks (R-9), forgetting a key and copying a set out. Every function is proved and none that is
// `pub` has a `requires`. The stored form is store_table of specs/Stored.antt; what a table may hold is `meets` of crate rules.
#![tactic(auto)]

ghost use Rattle.std.specs.Prelude.{◌≡◌, length, ◌<◌, ◌≤◌, Ok, Err, IfSome};
ghost use Rattle.rules.specs.declared.Outcome.TheVariants as Outcome;
ghost use Rattle.rules.specs.Collecting.{nothing, most_keys};
ghost use Rattle.rules.specs.Outcomes.{copy_out, not_copied};
ghost use Rattle.lists.specs.Stored.{Tested};
ghost use Rattle.totals.specs.Totals.{totals_of};
ghost use Rattle.table.specs.Stored.{table_of, store_table, Stored, Given};
ghost use Rattle.table.specs.Answers.{no_totals_told, place_held, forgotten_as, outcome_of, copied_as, all_within, copy_stored};

use lists::IdList;
use rules::Outcome;
use sets::Sets;
use totals::Totals;

// What a table holds: its sets, the totals of those that it shows, and how many blocks were read into it.
#[derive(Clone, Copy)]
pub struct Table {
    pub sets: Sets,
    pub totals: Totals,
    pub blocks: u32,
}

// Whether none of these numbers is above another.
fn all_within(numbers: &[u32], most: u32) -> bool
    ensures { result ≡ all_within most numbers.now }
{
    numbers.iter().all(|n| *n <= most)
}

impl Table {
    // The keys that a table holds at most.
    pub const KEYS: usize = Sets::KEYS;
    // The identifiers that a set holds at most.
    pub const IDENTIFIERS: usize = IdList::MOST;
    // The number at which its count of blocks stops.
    pub const BLOCKS: u32 = 4294967295;

    // The table with these sets, totals and blocks and nothing else.
    pub fn of(sets: Sets, totals: Totals, blocks: u32) -> Self
        ensures { result ≡ table_of sets totals blocks }
    {
        Self {
            sets,
            totals,
            blocks,
        }
    }

    // The table that holds nothing.
    pub fn empty() -> Self
        ensures { result ≡ store_table nothing }
    {
        Self::of(Sets::empty(), Totals::none(), 0)
    }

    // Whether this is the stored form of a content that meets the table rules.
    pub fn meets(self) -> bool
        ensures { Tested result (Stored self) }
    {
        let sets = self.sets;
        if !sets.meets() {
            return false;
        }
        if !all_within(&sets.confirmed, self.blocks) {
            return false;
        }
        let totals = self.totals;
        totals.are_of(sets)
    }
}

// ---- the totals

// Why no totals are told, 9: the table breaks the table rules or has another stored form.
#[derive(Clone, Copy, PartialEq, Eq)]
pub struct WrongTable;

impl From<WrongTable> for Outcome {
    ghost from_gives = { λ _ o. o ≡ Outcome.WrongTable };

    fn from(_why: WrongTable) -> Outcome {
        Outcome::WrongTable
    }
}

impl Table {
    // The totals as they are stored, which are the sums over the shown sets; or 9.
    pub fn totals(self) -> Result<Totals, WrongTable>
        ensures { Given self (λ c. result ≡ Ok (totals_of c)) (result ≡ Err no_totals_told) }
    {
        if !self.meets() {
            return Err(WrongTable);
        }
        Ok(self.totals)
    }
}

// The place at which a key stands, where it is held.
fn held_at(sets: &Sets, key: u32) -> Option<usize>
    requires { sets.now.count ≤ most_keys }
    ensures held { result ≡ place_held sets.now key }
    ensures short { IfSome result (λ at. at < most_keys) }
{
    let at = sets::place_of(&sets.keys, sets.count, key);
    if !sets::stands_at(&sets.keys, sets.count, at, key) {
        return None;
    }
    Some(at)
}

// ---- forgetting

// What forgetting a key answers and leaves.
// Kept: a refusal hands the table back too (forget_key_refused of crate promises), which a Result with an error enum would not.
#[derive(Clone, Copy)]
pub struct Forgotten {
    pub outcome: Outcome,
    pub table: Table,
}

// Forgets a key, all of it: 9, then 7, each with the table as it was.
pub fn forget_key(table: Table, key: u32) -> Forgotten
    ensures { Given table (λ c. result ≡ forgotten_as key c) (result ≡ record { outcome = Outcome.WrongTable; table = table }) }
{
    if !table.meets() {
        return Forgotten {
            outcome: Outcome::WrongTable,
            table,
        };
    }
    let sets = table.sets;
    let Some(at) = held_at(&sets, key) else {
        return Forgotten {
            outcome: Outcome::NotHeld,
            table,
        };
    };
    let left = sets.shut_at(at);
    let gone = sets.shown[at];
    let totals = table.totals;
    let rest = totals.without(gone.len, sets.on[at]);
    Forgotten {
        outcome: Outcome::Done,
        table: Table::of(left, rest, table.blocks),
    }
}

// ---- copying out

// A set copied out: `confirmed` is the number of the block at which the set was last shown, 0 for none since it was loaded. Its
// `count` identifiers go into the lent buffers.
#[derive(Clone, Copy, PartialEq, Eq)]
pub struct Copied {
    pub key: u32,
    pub on: bool,
    pub named: u8,
    pub confirmed: u32,
    pub count: usize,
}

// Why no set is copied out.
#[derive(Clone, Copy, PartialEq, Eq)]
pub enum NotCopied {
    // 9: the table breaks the table rules or has another stored form
    WrongTable,
    // 7: the key is not held
    NotHeld,
    // 11: the key is held and its set not shown
    NotShown,
    // 8: one of the lent buffers is shorter than the set
    ShortBuffer,
}

impl From<NotCopied> for Outcome {
    ghost from_gives = { λ why o. o ≡ outcome_of why };

    fn from(why: NotCopied) -> Outcome {
        match why {
            NotCopied::WrongTable => Outcome::WrongTable,
            NotCopied::NotHeld => Outcome::NotHeld,
            NotCopied::NotShown => Outcome::NotShown,
            NotCopied::ShortBuffer => Outcome::ShortBuffer,
        }
    }
}

// Copies a set out, where there is one: 11 and 8 (either buffer), with both as they were.
fn copy_set(
    set: &IdList,
    key: u32,
    on: bool,
    confirmed: u32,
    numbers: &mut [u32],
    kinds: &mut [u8],
) -> Result<Copied, NotCopied>
    requires { (set.now.len ≤ length set.now.numbers) × (set.now.len ≤ length set.now.kinds) }
    ensures { copied_as result numbers.new kinds.new ≡ copy_stored set.now key on confirmed numbers.old kinds.old }
{
    let count = set.len;
    if count == 0 {
        return Err(NotCopied::NotShown);
    }
    if numbers.len() < count || kinds.len() < count {
        return Err(NotCopied::ShortBuffer);
    }
    numbers[..count].copy_from_slice(&set.numbers[..count]);
    kinds[..count].copy_from_slice(&set.kinds[..count]);
    Ok(Copied {
        key,
        on,
        named: set.named,
        confirmed,
        count,
    })
}

// Copies a shown set out: its key, on or off, named kinds, the number of its block and count, the numbers and the kinds of its
// identifiers to the front of two lent buffers. 9, then 7, 11 and 8 (either buffer), with both as they were.
pub fn copy_out(
    table: Table,
    key: u32,
    numbers: &mut [u32],
    kinds: &mut [u8],
) -> Result<Copied, NotCopied>
    ensures { Given table
        (λ c. copied_as result numbers.new kinds.new ≡ copy_out key c numbers.old kinds.old)
        (copied_as result numbers.new kinds.new ≡ not_copied Outcome.WrongTable numbers.old kinds.old) }
{
    if !table.meets() {
        return Err(NotCopied::WrongTable);
    }
    let sets = table.sets;
    let Some(at) = held_at(&sets, key) else {
        return Err(NotCopied::NotHeld);
    };
    let set = sets.shown[at];
    copy_set(&set, key, sets.on[at], sets.confirmed[at], numbers, kinds)
}
