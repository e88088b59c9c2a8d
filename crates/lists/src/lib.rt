// Lists of identifiers as they are stored: a shown set or an open list (document 01, Collecting).
// Every function is proved and none that is `pub` has a `requires`. The stored form is store_list of
// specs/Stored.antt; what a list may hold is if_there of crate rules.
#![tactic(auto)]

ghost use Rattle.std.specs.Prelude.{◌≡◌, Bool, ltb, eqb, ◌^◌, drop, length};
ghost use Rattle.rules.specs.Field.{pair, named_by};
ghost use Rattle.rules.specs.Family.{member};
ghost use Rattle.rules.specs.Collecting.{linkage, join_names, is_key, key_width, first_of, may_begin, kind_named, names_meet, pairs_meet, all_differ};
ghost use Rattle.lists.specs.Kinds.{has_kind, is_dead};
ghost use Rattle.lists.specs.Grown.{with_field};
ghost use Rattle.lists.specs.Stored.{empty_list, listed, pairs_in, all_are, is_padded, meets_rules, Holds, Tested};

use field::Field;

// Numbers and kinds of `len` identifiers, in order, and the kinds that the list names: 1 RDS plus
// 2 DRM or AMSS. Every place past them is zero. Length 0 means that there is no list.
#[derive(Clone, Copy)]
pub struct IdList {
    pub numbers: [u32; IdList::MOST],
    // Kept: numbers and no enum, since a stored kind may be any byte: `meets` tests it, by `Holds`.
    pub kinds: [u8; IdList::MOST],
    pub len: usize,
    // Kept: a number and no enum, for the same reason.
    pub named: u8,
}

impl IdList {
    // The identifiers that a list holds at most.
    pub const MOST: usize = 128;

    // No list.
    #[tactic(auto, unfolding(crate::specs::Stored::empty_list))]
    pub fn empty() -> Self
        ensures { result ≡ empty_list }
    {
        Self {
            numbers: [0u32; Self::MOST],
            kinds: [0u8; Self::MOST],
            len: 0,
            named: 0,
        }
    }

    // Its identifiers.
    pub fn pairs(&self) -> Pairs<'_>
        ensures pairs { listed result ≡ pairs_in self.now.kinds self.now.numbers self.now.len }
        ensures alike { length result.kinds.now ≡ length result.numbers.now }
    {
        Pairs::first(&self.numbers, &self.kinds, self.len)
    }
}

// Identifiers in order, their numbers and kinds side by side: as many as there are of both.
#[derive(Clone, Copy)]
pub struct Pairs<'a> {
    pub numbers: &'a [u32],
    pub kinds: &'a [u8],
}

impl<'a> Pairs<'a> {
    // The first `len` of these, or all where there are fewer.
    pub fn first(numbers: &'a [u32], kinds: &'a [u8], len: usize) -> Pairs<'a>
        ensures pairs { listed result ≡ pairs_in kinds.now numbers.now len }
        ensures alike { length result.kinds.now ≡ length result.numbers.now }
    {
        let end = len.min(kinds.len()).min(numbers.len());
        Pairs {
            numbers: &numbers[..end],
            kinds: &kinds[..end],
        }
    }

    // Those from a place on.
    pub fn after(self, from: usize) -> Pairs<'a>
        ensures pairs { listed result ≡ drop from (listed self.entry) }
        ensures numbers { result.numbers.now ≡ drop from self.entry.numbers.now }
        ensures kinds { result.kinds.now ≡ drop from self.entry.kinds.now }
    {
        Pairs {
            numbers: &self.numbers[from.min(self.numbers.len())..],
            kinds: &self.kinds[from.min(self.kinds.len())..],
        }
    }

    // How many there are.
    #[tactic(auto, using(crate::proofs::PairLaws::length_paired))]
    pub fn len(self) -> usize
        ensures { result ≡ length (listed self.entry) }
    {
        self.kinds.len().min(self.numbers.len())
    }

    // Whether a pair is among them.
    pub fn has(self, kind: u8, number: u32) -> bool
        ensures { result ≡ member linkage (pair kind number) (listed self.entry) }
    {
        self.kinds
            .iter()
            .zip(self.numbers)
            .any(|(k, n)| *k == kind && *n == number)
    }

    // Whether a kind is among them.
    pub fn has_kind(self, kind: u8) -> bool
        ensures { result ≡ has_kind kind (listed self.entry) }
    {
        self.kinds[..self.len()].contains(&kind)
    }

    // Whether a kind, named or not, is a named kind without identifiers.
    pub fn is_dead(self, kind: u8, named: bool) -> bool
        ensures { result ≡ is_dead kind named (listed self.entry) }
    {
        named && !self.has_kind(kind)
    }

    // Whether every number is within the key's width and every kind among the named.
    fn meet(self, key: u32, named: u8) -> bool
        ensures { result ≡ pairs_meet (key_width key) named (listed self.entry) }
    {
        self.kinds
            .iter()
            .zip(self.numbers)
            .all(|(k, n)| fits_key(key, *n) && kind_named(named, *k))
    }

    // Whether none stands twice.
    fn all_differ(self) -> bool
        ensures { result ≡ all_differ (listed self.entry) }
    {
        for i in 0..self.len() {
            if self.after(i + 1).has(self.kinds[i], self.numbers[i]) {
                return false;
            }
        }
        true
    }
}

// ---- the test of the table rules, for one list

// A number of a stored array.
pub trait Number: Copy + PartialEq {
    ghost ZERO: { Self };

    const ZERO: Self;
}

impl Number for u8 {
    ghost ZERO = { 0 };

    const ZERO: u8 = 0;
}

impl Number for u32 {
    ghost ZERO = { 0 };

    const ZERO: u32 = 0;
}

// Whether every number from a place on is zero: of `u8` and `u32`, all_zero of what is there. It looks at all of them, so that
// several are taken in one step.
pub fn all_zero<T: Number>(numbers: &[T], from: usize) -> bool
    ensures { result ≡ all_are T.eq T.ZERO (drop from numbers.now) }
{
    let mut zero = true;
    for n in &numbers[from.min(numbers.len())..] {
        zero &= *n == T::ZERO;
    }
    zero
}

// Whether a number is a key: below 65,536, with LSN not 0.
pub fn is_key(number: u32) -> bool
    ensures { result ≡ is_key number }
{
    number < 65536 && number % 4096 != 0
}

// The bytes of an identifier of a key.
#[tactic(auto, unfolding(rules::specs::Collecting::key_width, rules::specs::Field::width))]
pub fn width_of(key: u32) -> usize
    ensures { result ≡ key_width key }
{
    match (key / 16384 % 2, key / 4096 % 2) {
        (1, _) => 4,
        (_, 1) => 3,
        _ => 2,
    }
}

// Whether a number is within a key's width.
#[tactic(auto, unfolding(rules::specs::Collecting::key_width, rules::specs::Field::width))]
pub fn fits_key(key: u32, number: u32) -> bool
    ensures { result ≡ ltb number (256 ^ key_width key) }
{
    match width_of(key) {
        4 => true,
        3 => number < 16777216,
        _ => number < 65536,
    }
}

// Whether a kind is one that there is, and named if it is RDS or DRM.
#[tactic(auto, unfolding(rules::specs::Collecting::kind_named))]
pub fn kind_named(named: u8, kind: u8) -> bool
    ensures { result ≡ kind_named named kind }
{
    match kind {
        rules::DAB => true,
        rules::RDS => named % 2 == 1,
        rules::DRM => named / 2 == 1,
        _ => false,
    }
}

// The kind of the first identifier of a key's start, by the start's qualifier.
#[tactic(auto, unfolding(rules::specs::Collecting::first_of))]
pub fn first_of(key: u32, qualifier: u8) -> u8
    ensures { result ≡ first_of key qualifier }
{
    field::first_kind((key / 32768 % 2) as u8, qualifier)
}

// Whether a list of a key may begin with a kind: one that a start with that qualifier begins with.
#[tactic(auto, unfolding(rules::specs::Collecting::may_begin))]
pub fn may_begin(key: u32, kind: u8) -> bool
    ensures { result ≡ may_begin key kind }
{
    first_of(key, kind) == kind
}

// Whether a key's list may name these kinds.
#[tactic(auto, unfolding(rules::specs::Collecting::names_meet))]
pub fn names_meet(key: u32, named: u8) -> bool
    ensures { result ≡ names_meet key named }
{
    if key / 16384 % 2 == 1 {
        named == 0
    } else {
        named < 4
    }
}

impl IdList {
    // Whether every place past the identifiers is zero.
    fn is_padded(&self) -> bool
        ensures { result ≡ is_padded self.now }
    {
        self.len <= Self::MOST
            && all_zero(&self.numbers, self.len)
            && all_zero(&self.kinds, self.len)
    }

    // Whether this is the stored form of a list that meets the rules for its key, or of none.
    pub fn meets(self, key: u32) -> bool
        ensures { Tested result (Holds key self) }
    {
        if !self.is_padded() {
            return false;
        }
        if self.len == 0 {
            return self.named == 0;
        }
        self.meets_rules(key)
    }

    // Whether the identifiers, of which there are some, and the named kinds meet the rules for a key.
    fn meets_rules(&self, key: u32) -> bool
        ensures { result ≡ meets_rules key self.now }
    {
        let pairs = self.pairs();
        may_begin(key, self.kinds[0])
            && names_meet(key, self.named)
            && pairs.meet(key, self.named)
            && pairs.all_differ()
    }
}

// ---- adding a field's identifiers

// The kinds that a list with this qualifier names.
#[tactic(auto, unfolding(rules::specs::Field::named_by))]
fn named_by(qualifier: u8) -> u8
    ensures { result ≡ named_by qualifier }
{
    match qualifier {
        rules::RDS => 1,
        rules::DRM => 2,
        _ => 0,
    }
}

// The named kinds of two lists together.
#[tactic(auto, unfolding(rules::specs::Collecting::join_names))]
fn join_names(a: u8, b: u8) -> u8
    ensures { result ≡ join_names a b }
{
    (a % 2).max(b % 2) + 2 * (a / 2).max(b / 2)
}

// The kinds that a list names once a field with this qualifier is added.
pub fn names_with(named: u8, qualifier: u8) -> u8
    ensures { result ≡ join_names named (named_by qualifier) }
{
    join_names(named, named_by(qualifier))
}

impl IdList {
    // With the identifiers of a field at its end, in order, each once, and the kinds that it names; none where it would grow
    // beyond 128.
    pub fn with_field(self, body: &[u8], f: Field) -> Option<IdList>
        ensures { result ≡ with_field self body.now f }
    {
        let mut next = self;
        next.named = names_with(self.named, f.qualifier);
        for i in 0..f.count {
            let id = f.identifier(body, i);
            let kind = id.kind();
            let number = id.number();
            if !next.pairs().has(kind, number) {
                let len = next.len;
                if Self::MOST <= len {
                    return None;
                }
                next.numbers[len] = number;
                next.kinds[len] = kind;
                next.len = len + 1;
            }
        }
        Some(next)
    }
}
