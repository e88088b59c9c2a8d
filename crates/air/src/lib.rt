// Writing the shown sets of a table for air (document 01, Writing for air): whole blocks into a lent
// buffer. Every function is proved, and write_air, the one that is `pub`, has no `requires`.
// A set is cut from its front on: each piece is a slice of the set's numbers (specs/Parts.antt).
#![tactic(auto)]

ghost use Rattle.std.specs.Prelude.{◌≡◌, false, ◌+◌, ◌*◌, ◌/◌, ◌%◌, ◌^◌, ◌≤◌, ◌<◌, length};
ghost use Rattle.std.specs.Iterator.{YieldsFirstBy, item_count};
ghost use Rattle.rules.specs.Collecting.{key_width, most_keys};
ghost use Rattle.pieces.specs.Air.{piece_most, cut, dead_link, pieces, big_bytes, all_bytes, fig_bytes, block_of, blocks_of, set_blocks, all_blocks, air};
ghost use Rattle.lists.specs.Stored.{Holds};
ghost use Rattle.sets.specs.Stored.{EachHolds};
ghost use Rattle.sets.specs.Shown.{set_in, shown_as, sets_from};
ghost use Rattle.out.specs.Page.{Writes};
ghost use Rattle.out.specs.Answer.{Outputs};
ghost use Rattle.air.specs.Parts.{run, qualifier_of, piece_of, to_come, Alike, Fitting};

use lists::{IdList, Pairs};
use out::{Page, Unwritten};
use sets::Sets;
use table::Table;

// What every FIG of a set says: its key, and whether it is on.
#[derive(Clone, Copy)]
struct Head {
    key: u32,
    on: bool,
}

// A piece of a set, which one FIG carries: a start or a continuation, its qualifier and its identifiers' numbers.
#[derive(Clone, Copy)]
struct Piece<'a> {
    more: bool,
    qualifier: u8,
    numbers: &'a [u32],
}

// ---- cutting a set

// The most identifiers to a piece of a key's set.
#[tactic(auto, unfolding(pieces::specs::Air::piece_most))]
fn most_of(key: u32) -> usize
    ensures { (result ≡ piece_most (key_width key)) × (0 < result) × (result ≤ 12) }
{
    match lists::width_of(key) {
        4 => 6,
        3 => 8,
        _ => 12,
    }
}

// The qualifier of a start: the next identifier's kind, where a start of that kind begins with the first; else the
// first's own.
fn start_qualifier(key: u32, kinds: &[u8]) -> u8
    requires { 0 < length kinds.now }
    ensures { result ≡ qualifier_of key false kinds.now }
{
    let first = kinds[0];
    let Some(&next) = kinds.get(1) else {
        return lists::first_of(key, first);
    };
    if lists::first_of(key, next) == first {
        next
    } else {
        first
    }
}

// The qualifier of the next piece, by the kinds that are left: a continuation's is the first of them.
#[tactic(auto, using(crate::proofs::Cuts::qualifier_begun))]
fn qualifier_of(key: u32, begun: bool, kinds: &[u8]) -> u8
    requires { 0 < length kinds.now }
    ensures { result ≡ qualifier_of key begun kinds.now }
{
    if begun {
        kinds[0]
    } else {
        start_qualifier(key, kinds)
    }
}

// How many at the front are of a kind.
fn run_of(kinds: &[u8], kind: u8) -> usize
    ensures { (result ≡ run kind kinds.now) × (result ≤ length kinds.now) }
{
    kinds.iter().position(|k| *k != kind).unwrap_or(kinds.len())
}

// The pieces that are still to come: the identifiers of a key's set that are left, and whether there was a piece before them.
#[derive(Drop)]
struct Pieces<'a> {
    key: u32,
    begun: bool,
    left: Pairs<'a>,
}

impl<'a> Iterator for Pieces<'a> {
    type Item = Piece<'a>;

    ghost can_next = { λ p. Alike p.left };

    ghost next_gives = { YieldsFirstBy piece_of to_come };

    ghost remaining = { item_count to_come };

    fn next(&mut self) -> Option<Piece<'a>> {
        let Pairs { numbers, kinds } = self.left;
        if kinds.is_empty() {
            return None;
        }
        let qualifier = qualifier_of(self.key, self.begun, kinds);
        let end = kinds.len().min(most_of(self.key));
        let count = 1 + run_of(&kinds[1..end], qualifier);
        let piece = Piece {
            more: self.begun,
            qualifier,
            numbers: &numbers[..count],
        };
        self.begun = true;
        self.left = self.left.after(count);
        Some(piece)
    }
}

// The pieces of a list's identifiers.
#[tactic(auto, unfolding(crate::specs::Parts::pieces_left, sets::specs::Shown::set_in))]
fn pieces_of(key: u32, list: &IdList) -> Pieces<'_>
    ensures alike { Alike result.left }
    ensures all { to_come result ≡ cut key (set_in list.now).items }
{
    Pieces {
        key,
        begun: false,
        left: list.pairs(),
    }
}

// How many pieces a set is cut into.
fn piece_count(key: u32, list: &IdList) -> usize
    requires { Holds key list.now }
    ensures { (result ≡ length (pieces key (set_in list.now))) × (result ≤ 130) }
{
    let pairs = list.pairs();
    let rds = pairs.is_dead(rules::RDS, list.named % 2 == 1);
    let drm = pairs.is_dead(rules::DRM, list.named / 2 == 1);
    pieces_of(key, list).count() + usize::from(rds) + usize::from(drm)
}

// ---- a piece as a block

// A number in this many bytes, the highest first.
fn put_number(page: &mut Page, width: usize, n: u32)
    requires { width ≤ 4 }
    ensures { Writes page.old (big_bytes width n) page.new }
{
    page.put_bytes(&n.to_be_bytes()[4 - width..]);
}

// Numbers, each in this many bytes.
fn put_numbers(page: &mut Page, width: usize, numbers: &[u32])
    requires { width ≤ 4 }
    ensures { Writes page.old (all_bytes width numbers.now) page.new }
{
    for n in numbers {
        put_number(page, width, *n);
    }
}

// The linking FIG of a piece.
fn put_fig(page: &mut Page, head: Head, piece: Piece)
    requires { Fitting head.key (piece_of piece) }
    ensures { Writes page.old (fig_bytes head.key head.on (piece_of piece.entry)) page.new }
{
    let width = lists::width_of(head.key);
    let count = piece.numbers.len();
    let more = usize::from(piece.more);
    let state = usize::from(head.on);
    let k = head.key as usize;
    let first = [
        (4 + count * width) as u8,
        (more * 128 + k / 32768 % 2 * 64 + k / 16384 % 2 * 32 + 6) as u8,
        (128 + state * 64 + k / 8192 % 2 * 32 + k / 4096 % 2 * 16 + k % 4096 / 256) as u8,
        (k % 256) as u8,
        piece.qualifier * 32 + count as u8,
    ];
    page.put_bytes(&first);
    put_numbers(page, width, piece.numbers);
}

// The block of a piece: its FIG, FF, zeros, and the check of the 30 bytes before it.
fn block_of(head: Head, piece: Piece) -> [u8; 32]
    requires { Fitting head.key (piece_of piece) }
    ensures { result ≡ block_of (fig_bytes head.key head.on (piece_of piece.entry)) }
{
    let mut block = [0u8; 32];
    let mut page = Page::over(&mut block);
    put_fig(&mut page, head, piece);
    page.put(255);
    let check = crc::check_of(&block[..30]);
    block[30] = (check / 256) as u8;
    block[31] = (check % 256) as u8;
    block
}

// The block of a piece.
fn put_block(page: &mut Page, head: Head, piece: Piece)
    requires { Fitting head.key (piece_of piece) }
    ensures { Writes page.old (block_of (fig_bytes head.key head.on (piece_of piece.entry))) page.new }
{
    page.put_bytes(&block_of(head, piece));
}

// ---- a set

// The blocks of a list's identifiers.
fn put_cut(page: &mut Page, head: Head, list: &IdList)
    requires { Holds head.key list.now }
    ensures { Writes page.old (blocks_of head.key head.on (cut head.key (set_in list.now).items)) page.new }
{
    for piece in pieces_of(head.key, list) {
        put_block(page, head, piece);
    }
}

// The block of a kind's dead link, if it is one: a continuation without identifiers.
fn put_dead(page: &mut Page, head: Head, list: &IdList, kind: u8, named: bool)
    requires { kind < 4 }
    ensures { Writes page.old (blocks_of head.key head.on (dead_link kind named (set_in list.now).items)) page.new }
{
    if list.pairs().is_dead(kind, named) {
        let piece = Piece {
            more: true,
            qualifier: kind,
            numbers: &[],
        };
        put_block(page, head, piece);
    }
}

// The blocks of a set: none where there is no set.
fn put_set(page: &mut Page, head: Head, list: &IdList)
    requires { Holds head.key list.now }
    ensures { Writes page.old (set_blocks (shown_as head.key head.on list.now)) page.new }
{
    let named = list.named;
    put_cut(page, head, list);
    put_dead(page, head, list, rules::RDS, named % 2 == 1);
    put_dead(page, head, list, rules::DRM, named / 2 == 1);
}

// ---- a table

// How many pieces the sets of the first entries are cut into.
fn count_all(sets: &Sets, count: usize) -> usize
    requires { (count ≤ most_keys) × EachHolds sets.now.keys sets.now.shown }
    ensures { (32 * result ≡ length (all_blocks (sets_from sets.now 0 count))) × (result ≤ 4160) }
{
    let mut n: usize = 0;
    for i in 0..count {
        let list = &sets.shown[i];
        n += piece_count(sets.keys[i], list);
    }
    n
}

// The blocks of these sets.
fn put_all(page: &mut Page, sets: &Sets, count: usize)
    requires { (count ≤ most_keys) × EachHolds sets.now.keys sets.now.shown }
    ensures { Writes page.old (all_blocks (sets_from sets.now 0 count)) page.new }
{
    for i in 0..count {
        let head = Head {
            key: sets.keys[i],
            on: sets.on[i],
        };
        let set = &sets.shown[i];
        put_set(page, head, set);
    }
}

// The shown sets of a table as whole blocks: 9; then 8 with nothing written; the buffer past the output
// untouched.
pub fn write_air(table: Table, out: &mut [u8]) -> Result<usize, Unwritten>
    ensures { Outputs air table out.old result out.new }
{
    if !table.meets() {
        return Err(Unwritten::WrongTable);
    }
    let sets = &table.sets;
    let count = sets.count;
    if out.len() < 32 * count_all(sets, count) {
        return Err(Unwritten::ShortBuffer);
    }
    let mut page = Page::over(out);
    put_all(&mut page, sets, count);
    Ok(page.size())
}
