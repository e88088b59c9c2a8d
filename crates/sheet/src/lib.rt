// The stored sheet of a table (document 01, The stored sheet): writing it into a lent buffer, and loading a
// table from it. Every function is proved, and none that is `pub` has a `requires`. The sheet's bytes are
// `sheet` of crate layout, and a sheet is read as that crate's parser reads it, test by test.

#![tactic(auto)]

ghost use Rattle.std.specs.Prelude.{◌≡◌, ℕ, Bool, not, ◌&&◌, ◌||◌, [], ◌≤◌, eqb, ltb, length};
ghost use Rattle.rules.specs.Collecting.{most_keys, most_ids};
ghost use Rattle.layout.specs.Sheet.{sheet_number, sheet_pairs, sheet_set, sheet_sets, sheet};
ghost use Rattle.layout.specs.Parse.{read_number, read_if, read_pair, read_pairs, read_head, read_set, read_sets, parse_sheet};
ghost use Rattle.lists.specs.Stored.{pairs_in, listed};
ghost use Rattle.sets.specs.Stored.{SetsStored};
ghost use Rattle.sets.specs.Shown.{shown_as, sets_in};
ghost use Rattle.out.specs.Page.{Writes};
ghost use Rattle.out.specs.Answer.{Outputs};
ghost use Rattle.sheet.specs.Reading.{Reads, Decides, head_of, longer, list_of, set_as, sets_as, table_of_sheet};
ghost use Rattle.sheet.specs.Loading.{Loads};

use lists::{IdList, Pairs};
use out::{Page, Unwritten};
use rules::Outcome;
use sets::Sets;
use table::Table;
use totals::Totals;

// ---- writing

// How many bytes a number takes.
fn number_size(n: u32) -> usize
    ensures { result ≡ length (sheet_number n) }
{
    let mut q = n;
    let mut size = 1;
    while 128 <= q {
        q /= 128;
        size += 1;
    }
    size
}

// A number.
fn put_number(page: &mut Page, n: u32)
    ensures { Writes page.old (sheet_number n) page.new }
{
    let mut q = n;
    while 128 <= q {
        page.put((q % 128 + 128) as u8);
        q /= 128;
    }
    page.put(q as u8);
}

// How many bytes a list's identifiers take.
fn pairs_size(list: IdList) -> usize
    requires { list.len ≤ most_ids }
    ensures { result ≡ length (sheet_pairs (pairs_in list.kinds list.numbers list.len)) }
{
    let mut size = 0;
    for i in 0..list.len {
        size += number_size(u32::from(list.kinds[i])) + number_size(list.numbers[i]);
    }
    size
}

// A list's identifiers.
fn put_pairs(page: &mut Page, list: IdList)
    requires { list.len ≤ most_ids }
    ensures { Writes page.old (sheet_pairs (pairs_in list.kinds list.numbers list.len)) page.new }
{
    for i in 0..list.len {
        put_number(page, u32::from(list.kinds[i]));
        put_number(page, list.numbers[i]);
    }
}

// How many bytes a set takes.
fn set_size(key: u32, on: bool, list: IdList) -> usize
    requires { list.len ≤ most_ids }
    ensures { result ≡ length (sheet_set (shown_as key on list)) }
{
    let state = number_size(u32::from(on));
    let named = number_size(u32::from(list.named));
    let count = number_size(list.len as u32);
    number_size(key) + state + named + count + pairs_size(list)
}

// A set.
fn put_set(page: &mut Page, key: u32, on: bool, list: IdList)
    requires { list.len ≤ most_ids }
    ensures { Writes page.old (sheet_set (shown_as key on list)) page.new }
{
    put_number(page, key);
    put_number(page, u32::from(on));
    put_number(page, u32::from(list.named));
    put_number(page, list.len as u32);
    put_pairs(page, list);
}

// How many bytes the shown sets take.
fn sets_size(sets: Sets) -> usize
    requires { SetsStored sets }
    ensures { result ≡ length (sheet_sets (sets_in sets)) }
{
    let mut size = 0;
    for i in 0..sets.count {
        let list = sets.shown[i];
        if list.len != 0 {
            size += set_size(sets.keys[i], sets.on[i], list);
        }
    }
    size
}

// The shown sets.
fn put_sets(page: &mut Page, sets: Sets)
    requires { SetsStored sets }
    ensures { Writes page.old (sheet_sets (sets_in sets)) page.new }
{
    for i in 0..sets.count {
        let list = sets.shown[i];
        if list.len != 0 {
            put_set(page, sets.keys[i], sets.on[i], list);
        }
    }
}

// The sheet of a table into a lent buffer, which stays as it was past the sheet. Outcome 9 where the
// table is not a stored one that meets the rules; then 8 where the buffer is too short for the sheet.
// With either nothing is written.
pub fn write_sheet(table: Table, out: &mut [u8]) -> Result<usize, Unwritten>
    ensures { Outputs sheet table out.old result out.new }
{
    if !table.meets() {
        return Err(Unwritten::WrongTable);
    }
    let sets = table.sets;
    let count = sets.shown_count() as u32;
    let size = number_size(count) + sets_size(sets);
    if out.len() < size {
        return Err(Unwritten::ShortBuffer);
    }
    let mut page = Page::over(out);
    put_number(&mut page, count);
    put_sets(&mut page, sets);
    Ok(page.size())
}

// ---- loading

// A sheet that is read from its front, and the place that reading has come to.
#[derive(Clone, Copy)]
struct Reader<'a> {
    bytes: &'a [u8],
    at: usize,
}

// What stands in front of a set's identifiers.
#[derive(Clone, Copy)]
struct SetHead {
    key: u32,
    on: bool,
    named: u8,
    count: usize,
}

// A set: its key, on or off, and its list.
#[derive(Clone, Copy)]
struct ReadSet {
    key: u32,
    on: bool,
    list: IdList,
}

// Whether byte `i` of a number cannot be: the fifth is at most 15, and a last byte 0 stands only alone.
fn wrong_byte(i: usize, scale: u32, b: u32) -> bool
    ensures { result ≡ (eqb i 4 && ltb 15 b) || (eqb b 0 && not (eqb scale 1)) }
{
    (i == 4 && 15 < b) || (b == 0 && scale != 1)
}

impl<'a> Reader<'a> {
    // The next number; none where no number stands there.
    fn number(&mut self) -> Option<u32>
        ensures { Reads (λ n. n) (read_number self.old.bytes.now self.old.at) self.old result self.new }
    {
        let mut value = 0u32;
        let mut scale = 1u32;
        for i in 0..5 {
            let b = u32::from(*self.bytes.get(self.at)?);
            if wrong_byte(i, scale, b) {
                return None;
            }
            self.at += 1;
            if b < 128 {
                return Some(value + b * scale);
            }
            value += b % 128 * scale;
            scale *= 128;
        }
        None
    }

    // The next number, where it passes a test: that of the parser which the code's test decides.
    fn number_if<F: Fn(u32) -> bool>(&mut self, test: F) -> Option<u32>
        requires { F.IsAlwaysCallable test }
        ensures { (t : ℕ → Bool) → Decides (F.post test) t → Reads (λ n. n) (read_if t self.old.bytes.now self.old.at) self.old result self.new }
    {
        let n = self.number()?;
        if test(n) { Some(n) } else { None }
    }

    // What stands in front of a set's identifiers, the set's key after `last`.
    fn head(&mut self, last: u32) -> Option<SetHead>
        ensures { Reads head_of (read_head last self.old.bytes.now self.old.at) self.old result self.new }
    {
        let key = self.number_if(|key| last < key && lists::is_key(key))?;
        let on = self.number_if(|on| on <= 1)?;
        let named = self.number_if(|named| named < 256 && lists::names_meet(key, named as u8))?;
        let count = self.number_if(|count| 1 <= count && count as usize <= IdList::MOST)?;
        Some(SetHead {
            key,
            on: on == 1,
            named: named as u8,
            count: count as usize,
        })
    }

    // The next identifier, its kind and its number, after those before it.
    fn pair(&mut self, before: Pairs<'_>, key: u32, named: u8) -> Option<(u8, u32)>
        ensures { Reads (λ l. l) (read_pair key named (listed before.entry) self.old.bytes.now self.old.at)
            self.old (longer (listed before.entry) result) self.new }
    {
        let kind = self.number_if(|kind| {
            kind < 256
                && lists::kind_named(named, kind as u8)
                && (before.len() != 0 || lists::may_begin(key, kind as u8))
        })? as u8;
        let number = self.number_if(|number| lists::fits_key(key, number)
            && !before.has(kind, number))?;
        Some((kind, number))
    }

    // The list of this many identifiers.
    fn list(&mut self, key: u32, named: u8, count: usize) -> Option<IdList>
        requires { count ≤ most_ids }
        ensures { Reads (list_of named) (read_pairs count key named [] self.old.bytes.now self.old.at) self.old result self.new }
    {
        let mut list = IdList::empty();
        list.named = named;
        for i in 0..count {
            let (kind, number) = self.pair(list.pairs(), key, named)?;
            list.kinds[i] = kind;
            list.numbers[i] = number;
            list.len = i + 1;
        }
        Some(list)
    }

    // A set whose key comes after `last`.
    fn set(&mut self, last: u32) -> Option<ReadSet>
        ensures { Reads set_as (read_set last self.old.bytes.now self.old.at) self.old result self.new }
    {
        let head = self.head(last)?;
        let list = self.list(head.key, head.named, head.count)?;
        Some(ReadSet {
            key: head.key,
            on: head.on,
            list,
        })
    }

    // This many sets, in ascending key order, and their totals.
    fn sets(&mut self, count: usize) -> Option<(Sets, Totals)>
        requires { count ≤ most_keys }
        ensures { Reads sets_as (read_sets count 0 [] self.old.bytes.now self.old.at) self.old result self.new }
    {
        let mut sets = Sets::empty();
        let mut totals = Totals::none();
        let mut last = 0u32;
        for i in 0..count {
            let set = self.set(last)?;
            sets.keys[i] = set.key;
            sets.on[i] = set.on;
            sets.shown[i] = set.list;
            sets.count = i + 1;
            totals = totals.with(set.list.len, set.on);
            last = set.key;
        }
        Some((sets, totals))
    }
}

// The table of a sheet: its sets, no open list, no block counted and no number. None where the bytes are not a sheet.
fn read_sheet(bytes: &[u8]) -> Option<Table>
    ensures { result ≡ table_of_sheet (parse_sheet bytes.now) }
{
    let mut reader = Reader { bytes, at: 0 };
    let count = reader.number_if(|n| n as usize <= Sets::KEYS)?;
    let (sets, totals) = reader.sets(count as usize)?;
    if reader.at != bytes.len() {
        return None;
    }
    Some(Table::of(sets, totals, 0))
}

// A table that was loaded, with the outcome.
// Kept: a refusal leaves the empty table too, which `Loads` and the theorem `load_sheet_refused` say; a Result would leave none.
#[derive(Clone, Copy)]
pub struct Loaded {
    pub outcome: Outcome,
    pub table: Table,
}

// A table from a sheet: its sets, no open list, no block counted and no number. Where the bytes are not a sheet, outcome 10 and the
// empty table.
pub fn load_sheet(bytes: &[u8]) -> Loaded
    ensures { Loads bytes.now result }
{
    match read_sheet(bytes) {
        Some(table) => Loaded {
            outcome: Outcome::Done,
            table,
        },
        None => Loaded {
            outcome: Outcome::NotASheet,
            table: Table::empty(),
        },
    }
}
