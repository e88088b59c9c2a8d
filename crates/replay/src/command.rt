// The commands of a script: each is done to the tables, and answered on a page. A line that is no command changes nothing and has no
// answer of its own.
ghost use Rattle.std.specs.Prelude.{◌≤◌};

use crate::answer::{is_kept, put_head, put_kept, put_outcome, put_written};
use crate::line::{bytes_of, count_of, key_of, word_of};
use crate::{answer, spoil};
use lists::Pairs;
use out::{Page, Unwritten};
use rules::Outcome;
use table::{Copied, Table};

// The table, and the one that was remembered, if any was.
#[derive(Clone, Copy)]
pub(crate) struct State {
    table: Table,
    before: Option<Table>,
}

impl State {
    // The state before the first line.
    pub(crate) fn start() -> State {
        State {
            table: Table::empty(),
            before: None,
        }
    }
}

// `b HH..` reads a block.
fn answer_block(state: &mut State, words: Option<&[u8]>, page: &mut Page) -> Option<()> {
    let mut bytes = [0u8; 64];
    let read = reading::read_block(state.table, bytes_of(words, &mut bytes)?);
    state.table = read.table;
    put_head(page, b'b', read.outcome);
    answer::put_place(page, read.outcome, read.place);
    answer::put_notes(page, read.notes);
    page.put(b'\n');
    Some(())
}

// `f K` forgets a key.
fn answer_forget(state: &mut State, words: &[u8], page: &mut Page) -> Option<()> {
    let forgotten = table::forget_key(state.table, key_of(words)?);
    state.table = forgotten.table;
    put_outcome(page, b'f', forgotten.outcome);
    Some(())
}

// The words of a set that was copied out.
fn put_set(page: &mut Page, copied: Copied, numbers: &[u32], kinds: &[u8]) {
    page.put(b' ');
    answer::put_key(page, copied.key);
    text::put_state(page, copied.on);
    answer::put_number(page, usize::from(copied.named));
    answer::put_block(page, copied.confirmed);
    text::put_pairs(page, copied.key, Pairs::first(numbers, kinds, copied.count));
}

// Copies a set out into the first `n` and `m` places of two buffers, and answers it.
fn put_copied(page: &mut Page, table: Table, key: u32, n: usize, m: usize)
    requires { (n ≤ 256) × (m ≤ 256) }
{
    let mut numbers = [0xAAAAAAAAu32; 256];
    let mut kinds = [0xAAu8; 256];
    let from = match table::copy_out(table, key, &mut numbers[..n], &mut kinds[..m]) {
        Ok(copied) => {
            put_head(page, b'c', Outcome::Done);
            put_set(page, copied, &numbers, &kinds);
            copied.count
        }
        Err(why) => {
            put_head(page, b'c', Outcome::from(why));
            0
        }
    };
    let kept = is_kept(&numbers, from, &0xAAAAAAAA) && is_kept(&kinds, from, &0xAA);
    put_kept(page, kept);
}

// `c K N M` copies a set out.
fn answer_copy(table: Table, words: &[u8], page: &mut Page) -> Option<()> {
    let mut words = words.splitn(3, |byte| *byte == b' ');
    let key = key_of(words.next()?)?;
    let n = count_of(words.next()?, 256)?;
    let m = count_of(words.next()?, 256)?;
    put_copied(page, table, key, n, m);
    Some(())
}

// Writes for air, or else the sheet.
fn write_as(table: Table, letter: u8, bytes: &mut [u8]) -> Result<usize, Unwritten> {
    if letter == b'a' {
        air::write_air(table, bytes)
    } else {
        sheet::write_sheet(table, bytes)
    }
}

// `a N` writes for air, and `s N` the sheet, into a buffer of at most this size.
fn answer_output(
    table: Table,
    letter: u8,
    most: usize,
    words: &[u8],
    page: &mut Page,
) -> Option<()> {
    let n = count_of(words, most)?;
    let mut bytes = [0xAAu8; 140000];
    let written = write_as(table, letter, bytes.get_mut(..n)?);
    put_written(page, letter, written, &bytes);
    Some(())
}

// `l HH..` loads a sheet.
fn answer_load(state: &mut State, words: Option<&[u8]>, page: &mut Page) -> Option<()> {
    let mut bytes = [0u8; 32768];
    let loaded = sheet::load_sheet(bytes_of(words, &mut bytes)?);
    state.table = loaded.table;
    put_outcome(page, b'l', loaded.outcome);
    Some(())
}

// `x N` spoils the table, and remembers the one before.
fn answer_spoil(state: &mut State, words: &[u8], page: &mut Page) -> Option<()> {
    let way = count_of(words, 26)?;
    if !spoil::is_way(way) {
        return None;
    }
    let mut spoilt = state.table;
    if spoil::spoil(&mut spoilt, way) {
        state.before = Some(state.table);
        state.table = spoilt;
        page.put_bytes(b"x\n");
    } else {
        page.put_bytes(b"x ?\n");
    }
    Some(())
}

// `count N` sets the table's own count, whatever the table is.
fn answer_count(state: &mut State, words: &[u8], page: &mut Page) -> Option<()> {
    state.table.blocks = word_of(words)?;
    page.put_bytes(b"count\n");
    Some(())
}

// `e` empties the table, and `u` brings the remembered one back, if there is any.
fn answer_letter(state: &mut State, letter: u8, page: &mut Page) {
    if letter == b'e' {
        state.table = Table::empty();
    } else if let Some(before) = state.before {
        state.table = before;
    }
    page.put(letter);
    page.put(b'\n');
}

// The commands with arguments; `b` and `l` may stand alone.
fn answer_words(
    state: &mut State,
    letter: u8,
    words: Option<&[u8]>,
    page: &mut Page,
) -> Option<()> {
    match letter {
        b'b' => answer_block(state, words, page),
        b'l' => answer_load(state, words, page),
        b'f' => answer_forget(state, words?, page),
        b'c' => answer_copy(state.table, words?, page),
        b'a' => answer_output(state.table, letter, 140000, words?, page),
        b's' => answer_output(state.table, letter, 32768, words?, page),
        b'x' => answer_spoil(state, words?, page),
        _ => None,
    }
}

// The answer to a command. A line is too long above 65,536.
fn answer_command(state: &mut State, line: &[u8], page: &mut Page) -> Option<()> {
    if 65536 < line.len() {
        return None;
    }
    match line {
        b"totals" => Some(answer::put_totals(page, &state.table)),
        b"t" => Some(answer::put_table(page, &state.table)),
        b"e" | b"u" => Some(answer_letter(state, line[0], page)),
        [letter] => answer_words(state, *letter, None, page),
        [letter, b' ', words @ ..] => answer_words(state, *letter, Some(words), page),
        _ => answer_count(state, line.strip_prefix(b"count ")?, page),
    }
}

// The answer to a line: nothing to an empty one.
pub(crate) fn answer_line(state: &mut State, line: &[u8], page: &mut Page) {
    if !line.is_empty() && answer_command(state, line, page).is_none() {
        page.put_bytes(b"?\n");
    }
}
