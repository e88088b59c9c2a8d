// Totals of the sets that a table shows (document 02, R-7): how many are shown, how many of these are on, how many identifiers they
// have. They are kept by what changes, a set shown, exchanged or forgotten; adding them up over the sets is for the table's test alone.
// Every function is proved and none that is `pub` has a `requires`. The sums are those of specs/Totals.antt.
#![tactic(auto)]

ghost use Rattle.std.specs.Prelude.{◌≡◌};
ghost use Rattle.totals.specs.Totals.{no_totals};
ghost use Rattle.totals.specs.Kept.{of_set, alike, with_set, without_set, exchanged_set, totals_in, same_totals};

use sets::Sets;

// The three figures.
#[derive(Clone, Copy, PartialEq, Eq)]
pub struct Totals {
    pub shown: usize,
    pub on: usize,
    pub identifiers: usize,
}

// Whether a set is counted as another is: as long, and both on or both off.
fn is_alike(old_len: usize, was_on: bool, len: usize, on: bool) -> bool
    ensures { result ≡ alike old_len was_on len on }
{
    old_len == len && was_on == on
}

impl Totals {
    // No set.
    pub fn none() -> Self
        ensures { result ≡ no_totals }
    {
        Self {
            shown: 0,
            on: 0,
            identifiers: 0,
        }
    }

    // The figures of one set by its length, on or off. No identifier is no set.
    fn of_set(len: usize, on: bool) -> Self
        ensures { result ≡ of_set len on }
    {
        if len == 0 {
            return Self::none();
        }
        Self {
            shown: 1,
            on: usize::from(on),
            identifiers: len,
        }
    }

    // With a set more, of so many identifiers, on or off.
    // Kept: `len` and `on` apart here, in `without` and in `exchanged`, whose signatures docs/STATEMENTS.md names.
    pub fn with(self, len: usize, on: bool) -> Self
        ensures { result ≡ with_set self len on }
    {
        let set = Self::of_set(len, on);
        Self {
            shown: self.shown.saturating_add(set.shown),
            on: self.on.saturating_add(set.on),
            identifiers: self.identifiers.saturating_add(set.identifiers),
        }
    }

    // With a set less.
    pub fn without(self, len: usize, on: bool) -> Self
        ensures { result ≡ without_set self len on }
    {
        let set = Self::of_set(len, on);
        Self {
            shown: self.shown.saturating_sub(set.shown),
            on: self.on.saturating_sub(set.on),
            identifiers: self.identifiers.saturating_sub(set.identifiers),
        }
    }

    // With a set in the place of another, each by its length, 0 where there is none, and on or off. Most fields leave a set as
    // it was: then nothing is counted.
    pub fn exchanged(self, old_len: usize, was_on: bool, len: usize, on: bool) -> Self
        ensures { result ≡ exchanged_set self old_len was_on len on }
    {
        if is_alike(old_len, was_on, len, on) {
            return self;
        }
        let rest = self.without(old_len, was_on);
        rest.with(len, on)
    }

    // Added up over the sets shown, from the last entry back to the first.
    fn added_up(sets: Sets) -> Self
        ensures { result ≡ totals_in sets }
    {
        let mut totals = Self::none();
        for k in (0..sets.count.min(Sets::KEYS)).rev() {
            totals = totals.with(sets.shown[k].len, sets.on[k]);
        }
        totals
    }

    // Whether these are the totals of these sets.
    pub fn are_of(self, sets: Sets) -> bool
        ensures { result ≡ same_totals self (totals_in sets) }
    {
        let sums = Self::added_up(sets);
        self == sums
    }
}
