// The linkage sets of a table as they are stored (document 01, Collecting): the test of their rules, finding a key's place, opening
// and shutting a place, counting the sets. Every function is proved and none that is `pub` has a `requires`. The stored form is
// store_sets of specs/Stored.antt; what sets may hold is `sets_meet` of crate rules.
#![tactic(auto)]

ghost use Rattle.std.specs.Prelude.{◌≡◌, [], length, take, ◌<◌, ◌≤◌};
ghost use Rattle.rules.specs.Arrays.{opened, shut};
ghost use Rattle.rules.specs.Collecting.{most_keys};
ghost use Rattle.lists.specs.Stored.{Tested, empty_list};
ghost use Rattle.sets.specs.Stored.{store_sets, EachHolds, NoneFrom, NumbersHold, SetsStored, opened_sets, shut_sets};
ghost use Rattle.sets.specs.Places.{place_in, stands_at, keys_meet, all_off};
ghost use Rattle.sets.specs.Shown.{sets_in};

use lists::IdList;

// The entries of the held keys, in ascending key order from place 0 on: key, on or off, the number of the
// block at which the set was last shown (0 where none is shown, or none since it was loaded), shown set
// and open list. Every unused place is zero.
// Kept: five arrays side by side, the one stored form that store_sets of specs/Stored.antt says.
#[derive(Clone, Copy)]
pub struct Sets {
    pub count: usize,
    pub keys: [u32; Sets::KEYS],
    pub on: [bool; Sets::KEYS],
    pub confirmed: [u32; Sets::KEYS],
    pub shown: [IdList; Sets::KEYS],
    pub draft: [IdList; Sets::KEYS],
}

impl Sets {
    // The keys that are held at most.
    pub const KEYS: usize = 32;

    // No key held.
    pub fn empty() -> Self
        ensures { result ≡ store_sets [] }
    {
        let none = IdList::empty();
        Self {
            count: 0,
            keys: [0u32; Sets::KEYS],
            on: [false; Sets::KEYS],
            confirmed: [0u32; Sets::KEYS],
            shown: [none; Sets::KEYS],
            draft: [none; Sets::KEYS],
        }
    }
}

// ---- the test of the table rules

// Whether these numbers are keys, and ascend.
fn keys_meet(keys: &[u32]) -> bool
    ensures { result ≡ keys_meet 0 keys.now }
{
    let mut last = 0;
    for &key in keys {
        if key <= last || !lists::is_key(key) {
            return false;
        }
        last = key;
    }
    true
}

// Whether every flag is off.
fn all_off(flags: &[bool]) -> bool
    ensures { result ≡ all_off flags.now }
{
    flags.iter().all(|on| !*on)
}

// Whether each list is the stored form of one that meets the rules for its key, or of none.
fn lists_meet(keys: &[u32; Sets::KEYS], lists: &[IdList; Sets::KEYS]) -> bool
    ensures { Tested result (EachHolds keys.now lists.now) }
{
    keys.iter()
        .zip(lists.iter())
        .all(|(key, list)| list.meets(*key))
}

// Whether there is no list from a place on.
fn none_from(from: usize, lists: &[IdList; Sets::KEYS]) -> bool
    requires { from ≤ most_keys }
    ensures { Tested result (NoneFrom from lists.now) }
{
    lists[from..].iter().all(|list| list.len == 0)
}

// Whether no number stands where there is no list.
fn numbers_meet(numbers: &[u32; Sets::KEYS], lists: &[IdList; Sets::KEYS]) -> bool
    ensures { Tested result (NumbersHold numbers.now lists.now) }
{
    numbers
        .iter()
        .zip(lists.iter())
        .all(|(number, list)| list.len != 0 || *number == 0)
}

impl Sets {
    // Whether this is the stored form of sets that meet their rules.
    pub fn meets(self) -> bool
        ensures { Tested result (SetsStored self) }
    {
        let count = self.count;
        if Self::KEYS < count {
            return false;
        }
        if !keys_meet(&self.keys[..count]) {
            return false;
        }
        if !lists::all_zero(&self.keys, count) {
            return false;
        }
        if !all_off(&self.on[count..]) {
            return false;
        }
        if !lists_meet(&self.keys, &self.shown) {
            return false;
        }
        if !none_from(count, &self.shown) {
            return false;
        }
        if !numbers_meet(&self.confirmed, &self.shown) {
            return false;
        }
        if !lists_meet(&self.keys, &self.draft) {
            return false;
        }
        none_from(count, &self.draft)
    }
}

// ---- a key's place

// The first place among the first `count` whose key is not smaller than this one, of any keys, ascending or not: so no search by halves.
pub fn place_of(keys: &[u32], count: usize, key: u32) -> usize
    ensures { result ≡ place_in (take count keys.now) key }
{
    let end = count.min(keys.len());
    keys[..end]
        .iter()
        .position(|held| key <= *held)
        .unwrap_or(end)
}

// Whether a key stands at its place; past the keys there is key 0.
pub fn stands_at(keys: &[u32], count: usize, at: usize, key: u32) -> bool
    ensures { result ≡ stands_at keys.now count at key }
{
    at < count && keys.get(at).copied().unwrap_or(0) == key
}

// ---- an array with one value more or one less

// With a value at a place, the later ones one place further, the last lost.
fn opened<T: Copy>(values: [T; Sets::KEYS], at: usize, value: T) -> [T; Sets::KEYS]
    requires { at < most_keys }
    ensures { result ≡ opened at value values }
{
    let mut moved = values;
    moved.copy_within(at..Sets::KEYS - 1, at + 1);
    moved[at] = value;
    moved
}

// Without the value at a place, the later ones one place nearer, another at the end.
fn shut<T: Copy>(values: [T; Sets::KEYS], at: usize, last: T) -> [T; Sets::KEYS]
    requires { at < most_keys }
    ensures { result ≡ shut at last values }
{
    let mut moved = values;
    moved.copy_within(at + 1.., at);
    moved[Sets::KEYS - 1] = last;
    moved
}

impl Sets {
    // With one key more at a place, its list open and no set shown; the same where there is no such
    // place. The caller gives the place that keeps the keys ascending.
    pub fn opened_at(self, at: usize, key: u32, on: bool, list: IdList) -> Self
        ensures { result ≡ opened_sets self at key on list }
    {
        if Self::KEYS <= at || Self::KEYS <= self.count {
            return self;
        }
        Self {
            count: self.count + 1,
            keys: opened(self.keys, at, key),
            on: opened(self.on, at, on),
            confirmed: opened(self.confirmed, at, 0),
            shown: opened(self.shown, at, IdList::empty()),
            draft: opened(self.draft, at, list),
        }
    }
}

impl Sets {
    // With one key less, the one at a place; the same where no key stands there.
    pub fn shut_at(self, at: usize) -> Self
        ensures { result ≡ shut_sets self at }
    {
        if Self::KEYS <= at || self.count <= at {
            return self;
        }
        Self {
            count: self.count - 1,
            keys: shut(self.keys, at, 0),
            on: shut(self.on, at, false),
            confirmed: shut(self.confirmed, at, 0),
            shown: shut(self.shown, at, IdList::empty()),
            draft: shut(self.draft, at, IdList::empty()),
        }
    }
}

// ---- counting

impl Sets {
    // How many sets are shown: of all entries, of which there are 32 at most, those whose list is not
    // empty.
    pub fn shown_count(self) -> usize
        ensures { result ≡ length (sets_in self) }
    {
        self.shown
            .iter()
            .take(self.count)
            .filter(|list| list.len != 0)
            .count()
    }
}
