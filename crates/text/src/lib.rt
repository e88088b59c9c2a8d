// The listing's text (document 01, example 16), over a lent buffer, and the same with the numbers of blocks
// (document 02, R-9): write_listing and write_confirmed refuse a buffer that is too short, and else write
// the whole at its front. Both are one function inside, which is told whether lines are `numbered`; for
// each part there are its size and a writer on a page. put_state and put_pairs are `pub` too, for a
// program that prints other lines of a table in the same words. Every function is proved and none that is
// `pub` has a `requires`.
#![tactic(auto)]

ghost use Rattle.std.specs.Prelude.{◌≡◌, cond, [], ◌∷◌, ◌++◌, ◌+◌, ◌*◌, ◌≤◌, ◌<◌, length};
ghost use Rattle.rules.specs.Field.{pair};
ghost use Rattle.rules.specs.Collecting.{key_width, most_keys, most_ids};
ghost use Rattle.out.specs.Text.{hex_text, decimal};
ghost use Rattle.text.specs.Listing.{state_text, kind_letter, pair_text, pairs_text, ids_text, tail_text, listing};
ghost use Rattle.text.specs.Confirmed.{confirmed_listing};
ghost use Rattle.text.specs.Lines.{mark_text, line_at, line_in, number_text, lines_in, first_text, listed};
ghost use Rattle.lists.specs.Stored as Stored;
ghost use Rattle.out.specs.Page.{Writes};
ghost use Rattle.out.specs.Answer.{Outputs};
ghost use Rattle.sets.specs.Shown.{confirmed_sets_in};

use lists::{IdList, Pairs, kind_named, width_of};
use out::{Page, Unwritten, decimal_size};
use sets::Sets;
use table::Table;

// What stands in the line of a set beside its identifiers: its key, on or off, and its number, where lines are numbered.
// Kept: no Option of a number, for all lines of a listing are numbered or none, and write_confirmed and write_listing say which.
#[derive(Clone, Copy)]
struct Line {
    numbered: bool,
    key: u32,
    on: bool,
    block: u32,
}

impl Line {
    // Of the set at a place.
    fn at(numbered: bool, sets: &Sets, i: usize) -> Line
        requires { i < most_keys }
        ensures { result ≡ line_at numbered sets.now i }
    {
        Line {
            numbered,
            key: sets.keys[i],
            on: sets.on[i],
            block: sets.confirmed[i],
        }
    }
}

// ---- the parts of a set's line

// The letter of a kind: D, R, M.
#[tactic(auto, unfolding(crate::specs::Listing::kind_letter))]
fn letter_of(kind: u8) -> u8
    ensures { result ≡ kind_letter kind }
{
    match kind {
        rules::DAB => b'D',
        rules::RDS => b'R',
        _ => b'M',
    }
}

// The mark of a kind: ` R-` or ` M-` of one that the list names without identifiers, nothing of another.
#[tactic(auto, using(out::proofs::Pages::writes_then, out::proofs::Pages::writes_none), unfolding(crate::specs::Listing::dead_text))]
fn put_mark(page: &mut Page, kind: u8, list: &IdList)
    ensures { Writes page.old (mark_text kind list.now) page.new }
{
    if list.pairs().is_dead(kind, kind_named(list.named, kind)) {
        page.put(b' ');
        page.put(letter_of(kind));
        page.put(b'-');
    }
}

// The size of that.
#[tactic(auto, unfolding(crate::specs::Listing::dead_text))]
fn mark_size(kind: u8, list: &IdList) -> usize
    ensures { (result ≡ length (mark_text kind list.now)) × (result ≤ 3) }
{
    if list.pairs().is_dead(kind, kind_named(list.named, kind)) {
        3
    } else {
        0
    }
}

// An identifier of a key: a blank, its letter, and its number in 4, 6 or 8 digits.
fn put_pair(page: &mut Page, key: u32, kind: u8, number: u32)
    ensures { Writes page.old (pair_text (key_width key) (pair kind number)) page.new }
{
    page.put(b' ');
    page.put(letter_of(kind));
    page.put_hex(2 * width_of(key), number);
}

// The identifiers of a key.
pub fn put_pairs(page: &mut Page, key: u32, pairs: Pairs)
    ensures { Writes page.old (pairs_text (key_width key) (Stored.listed pairs.entry)) page.new }
{
    for (kind, number) in pairs.kinds.iter().zip(pairs.numbers) {
        put_pair(page, key, *kind, *number);
    }
}

// The size of this many identifiers of a key.
fn pairs_size(key: u32, n: usize) -> usize
    requires { n ≤ most_ids }
    ensures { (result ≡ n * (2 + 2 * key_width key)) × (result ≤ 1280) }
{
    n * (2 + 2 * width_of(key))
}

// A blank and on or off.
#[tactic(auto, unfolding(crate::specs::Listing::state_text))]
pub fn put_state(page: &mut Page, on: bool)
    ensures { Writes page.old (32 ∷ state_text on) page.new }
{
    if on {
        page.put_bytes(b" on");
    } else {
        page.put_bytes(b" off");
    }
}

// The size of that.
#[tactic(auto, unfolding(crate::specs::Listing::state_text))]
fn state_size(on: bool) -> usize
    ensures { (result ≡ length (32 ∷ state_text on)) × (result ≤ 4) }
{
    if on { 3 } else { 4 }
}

// A word and a count.
fn put_counted(page: &mut Page, word: &[u8], n: usize)
    ensures { Writes page.old (word.now ++ decimal n) page.new }
{
    page.put_bytes(word);
    page.put_decimal(n);
}

// The same of a block's number, where lines are numbered; else nothing.
fn put_numbered(page: &mut Page, numbered: bool, word: &[u8], n: u32)
    ensures { Writes page.old (cond numbered (word.now ++ decimal n) []) page.new }
{
    if numbered {
        put_counted(page, word, n as usize);
    }
}

// The size of that, of a word of this many bytes.
fn numbered_size(numbered: bool, word: usize, n: u32) -> usize
    requires { word ≤ 8 }
    ensures { (result ≡ cond numbered (word + length (decimal n)) 0) × (result ≤ word + 20) }
{
    if numbered {
        word + decimal_size(n as usize)
    } else {
        0
    }
}

// ---- the line of a set

// The line up to the identifiers, of which there are n.
fn put_head(page: &mut Page, line: Line, n: usize)
    ensures { Writes page.old (hex_text 4 line.key ++ 32 ∷ state_text line.on ++ (number_text line.numbered line.block ++ ids_text n)) page.new }
{
    page.put_hex(4, line.key);
    put_state(page, line.on);
    put_numbered(page, line.numbered, b" #", line.block);
    put_counted(page, b" ids ", n);
}

// The size of the line of a set.
fn line_size(line: Line, list: &IdList) -> usize
    ensures { (result ≡ length (line_in line list.now)) × (result ≤ 1342) }
{
    let n = list.len.min(IdList::MOST);
    let head = 4
        + state_size(line.on)
        + numbered_size(line.numbered, 2, line.block)
        + 5
        + decimal_size(n);
    let marks = mark_size(rules::RDS, list) + mark_size(rules::DRM, list);
    head + pairs_size(line.key, n) + marks + 1
}

// The line of a set.
fn put_line(page: &mut Page, line: Line, list: &IdList)
    ensures { Writes page.old (line_in line list.now) page.new }
{
    put_head(page, line, list.len.min(IdList::MOST));
    put_pairs(page, line.key, list.pairs());
    put_mark(page, rules::RDS, list);
    put_mark(page, rules::DRM, list);
    page.put(b'\n');
}

// ---- the first line and the tail

// The size of the first line.
#[tactic(auto, using(crate::proofs::Texts::length_first))]
fn first_size(numbered: bool, count: usize, blocks: u32) -> usize
    ensures { (result ≡ length (first_text numbered count blocks)) × (result ≤ 54) }
{
    6 + decimal_size(count) + numbered_size(numbered, 8, blocks)
}

// The first line.
fn put_first(page: &mut Page, numbered: bool, count: usize, blocks: u32)
    ensures { Writes page.old (first_text numbered count blocks) page.new }
{
    put_counted(page, b"sets ", count);
    put_numbered(page, numbered, b" blocks ", blocks);
    page.put(b'\n');
}

// The size of the tail: 0 where no byte is left over.
#[tactic(auto, unfolding(crate::specs::Listing::tail_text))]
fn tail_size(over: usize) -> usize
    ensures { (result ≡ length (tail_text over)) × (result ≤ 26) }
{
    if over == 0 { 0 } else { 6 + decimal_size(over) }
}

// The tail.
fn put_tail(page: &mut Page, over: usize)
    ensures { Writes page.old (tail_text over) page.new }
{
    if over != 0 {
        put_counted(page, b"tail ", over);
        page.put(b'\n');
    }
}

// ---- the whole listing

// The size of the lines of the sets.
fn lines_size(numbered: bool, sets: &Sets) -> usize
    requires { sets.now.count ≤ most_keys }
    ensures { (result ≡ length (lines_in numbered (confirmed_sets_in sets.now))) × (result ≤ 42944) }
{
    let mut size = 0;
    for i in 0..sets.count {
        let list = &sets.shown[i];
        if list.len != 0 {
            size += line_size(Line::at(numbered, sets, i), list);
        }
    }
    size
}

// The lines of the sets.
fn put_lines(page: &mut Page, numbered: bool, sets: &Sets)
    requires { sets.now.count ≤ most_keys }
    ensures { Writes page.old (lines_in numbered (confirmed_sets_in sets.now)) page.new }
{
    for k in 0..sets.count {
        let set = &sets.shown[k];
        if set.len != 0 {
            put_line(page, Line::at(numbered, sets, k), set);
        }
    }
}

// The listing of a table, with the numbers or without, at the front of a buffer.
fn write_lines(
    table: Table,
    numbered: bool,
    over: usize,
    out: &mut [u8],
) -> Result<usize, Unwritten>
    ensures { Outputs (λ c. listed numbered c over) table out.old result out.new }
{
    if !table.meets() {
        return Err(Unwritten::WrongTable);
    }
    let sets = &table.sets;
    let count = table.sets.shown_count();
    let blocks = table.blocks;
    let size = first_size(numbered, count, blocks) + lines_size(numbered, sets) + tail_size(over);
    if out.len() < size {
        return Err(Unwritten::ShortBuffer);
    }
    let mut page = Page::over(out);
    put_first(&mut page, numbered, count, blocks);
    put_lines(&mut page, numbered, sets);
    put_tail(&mut page, over);
    Ok(page.size())
}

// The listing of a table, with this many bytes left over, at the front of a buffer: 9, then 8, each
// with the buffer as it was.
pub fn write_listing(table: Table, over: usize, out: &mut [u8]) -> Result<usize, Unwritten>
    ensures { Outputs (λ c. listing c over) table out.old result out.new }
{
    write_lines(table, false, over, out)
}

// The same with the numbers: of each set that of the block at which it was last shown, and how many blocks
// the table has counted.
pub fn write_confirmed(table: Table, over: usize, out: &mut [u8]) -> Result<usize, Unwritten>
    ensures { Outputs (λ c. confirmed_listing c over) table out.old result out.new }
{
    write_lines(table, true, over, out)
}
