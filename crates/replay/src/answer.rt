// The words of an answer, each with a blank before it.
ghost use Rattle.std.specs.Prelude.{◌<◌};

use lists::IdList;
use out::{Page, Unwritten, front};
use reading::Notes;
use rules::Outcome;
use sets::Sets;
use table::Table;

// A letter and an outcome's number, without the line's end.
pub(crate) fn put_head(page: &mut Page, letter: u8, outcome: Outcome) {
    page.put(letter);
    put_number(page, usize::from(outcome));
}

// A line of a letter and an outcome's number.
pub(crate) fn put_outcome(page: &mut Page, letter: u8, outcome: Outcome) {
    put_head(page, letter, outcome);
    page.put(b'\n');
}

// A number in decimal.
pub(crate) fn put_number(page: &mut Page, number: usize) {
    page.put(b' ');
    page.put_decimal(number);
}

// The number of a block.
pub(crate) fn put_block(page: &mut Page, number: u32) {
    page.put_bytes(b" #");
    page.put_decimal(number as usize);
}

// The place, after an outcome that is not 0.
pub(crate) fn put_place(page: &mut Page, outcome: Outcome, place: usize) {
    if outcome != Outcome::Done {
        page.put_bytes(b" @");
        page.put_decimal(place);
    }
}

// The notes' numbers.
pub(crate) fn put_notes(page: &mut Page, notes: Notes) {
    for noted in notes.notes.iter().take(notes.count) {
        put_number(page, usize::from(noted.note));
    }
}

// How many hexadecimal digits a key is printed with: four, and as many as needed above FFFF.
fn key_digits(key: u32) -> usize {
    match key {
        0..=0xFFFF => 4,
        0x10000..=0xFFFFF => 5,
        0x100000..=0xFFFFFF => 6,
        0x1000000..=0xFFFFFFF => 7,
        0x10000000..=0xFFFFFFFF => 8,
    }
}

// A key.
pub(crate) fn put_key(page: &mut Page, key: u32) {
    page.put_hex(key_digits(key), key);
}

// The named kinds and identifiers of a key's set or list, or a dash where there is none.
fn put_list(page: &mut Page, key: u32, list: &IdList) {
    if list.len == 0 {
        return page.put_bytes(b" -");
    }
    put_number(page, usize::from(list.named));
    text::put_pairs(page, key, list.pairs());
}

// The line of the held key at a place.
fn put_entry(page: &mut Page, sets: &Sets, i: usize)
    requires { i < 32 }
{
    let key = sets.keys[i];
    put_key(page, key);
    text::put_state(page, sets.on[i]);
    put_block(page, sets.confirmed[i]);
    page.put_bytes(b" shown");
    put_list(page, key, &sets.shown[i]);
    page.put_bytes(b" open");
    put_list(page, key, &sets.draft[i]);
    page.put(b'\n');
}

// A whole table, or its outcome 9.
pub(crate) fn put_table(page: &mut Page, table: &Table) {
    if !table.meets() {
        return put_outcome(page, b't', Outcome::WrongTable);
    }
    page.put(b't');
    put_number(page, table.sets.count);
    put_block(page, table.blocks);
    page.put(b'\n');
    for i in 0..table.sets.count.min(32) {
        put_entry(page, &table.sets, i);
    }
}

// The three totals, or the table's outcome 9.
pub(crate) fn put_totals(page: &mut Page, table: &Table) {
    page.put_bytes(b"totals");
    match table.totals() {
        Ok(totals) => {
            put_number(page, totals.shown);
            put_number(page, totals.on);
            put_number(page, totals.identifiers);
        }
        Err(why) => put_number(page, usize::from(Outcome::from(why))),
    }
    page.put(b'\n');
}

// Bytes in hexadecimal, or a dash for none.
fn put_digits(page: &mut Page, bytes: &[u8]) {
    if bytes.is_empty() {
        return page.put_bytes(b" -");
    }
    page.put(b' ');
    for byte in bytes {
        page.put_hex(2, u32::from(*byte));
    }
}

// Whether every place of a buffer from one on holds its filling.
pub(crate) fn is_kept<T: PartialEq + Drop>(buffer: &[T], from: usize, filling: &T) -> bool {
    buffer.iter().skip(from).all(|x| *x == *filling)
}

// The last word of a line: whether what must stay unchanged was kept.
pub(crate) fn put_kept(page: &mut Page, kept: bool) {
    if kept {
        page.put_bytes(b" kept\n");
    } else {
        page.put_bytes(b" changed\n");
    }
}

// The answer of a function that wrote an output into this buffer: what it wrote, and whether the rest is as it was.
pub(crate) fn put_written(
    page: &mut Page,
    letter: u8,
    written: Result<usize, Unwritten>,
    bytes: &[u8],
) {
    match written {
        Ok(size) => {
            put_head(page, letter, Outcome::Done);
            put_digits(page, front(bytes, size));
            put_kept(page, is_kept(bytes, size, &0xAA));
        }
        Err(why) => {
            put_head(page, letter, Outcome::from(why));
            put_kept(page, is_kept(bytes, 0, &0xAA));
        }
    }
}
