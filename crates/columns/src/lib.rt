// The sets of a table in columns (specs/Columns.antt), over a lent buffer, in two forms: `csv` for a
// spreadsheet, else for eyes; `numbered` with the numbers of blocks in a last column (document 02, R-9),
// else without. A row has one code. Every function is proved; the one that is `pub` has no `requires`,
// refuses a buffer that is too short, and else writes the text at its front.
#![tactic(auto)]

ghost use Rattle.std.specs.Prelude.{◌≡◌, cond, [], ◌++◌, ◌+◌, ◌*◌, ◌≤◌, ◌<◌, length, replicate};
ghost use Rattle.rules.specs.Collecting.{key_width, most_keys, most_ids, kind_named};
ghost use Rattle.lists.specs.Kinds.{is_dead};
ghost use Rattle.text.specs.Listing.{state_text};
ghost use Rattle.lists.specs.Stored.{pairs_in};
ghost use Rattle.out.specs.Page.{Writes};
ghost use Rattle.out.specs.Answer.{Outputs};
ghost use Rattle.sets.specs.Shown.{shown_as, confirmed_sets_in};
ghost use Rattle.columns.specs.Columns.{blank, number_if, row_of, code_rows, dead_rows, rows_of, filled, gap, end_text, code_text, cell_text, number_text, row_text, rows_text, line_width, rule_text, names_text, last_name, heading_text, sets_text, columns};
ghost use Rattle.columns.specs.Cells.{cell_of, number_in, rows_at, set_text, row_size};

use lists::{IdList, kind_named, width_of};
use out::{Page, Unwritten, decimal_size};
use sets::Sets;
use table::Table;

// The form of the whole: for a spreadsheet or for eyes, and whether rows are numbered.
#[derive(Clone, Copy)]
struct Form {
    csv: bool,
    numbered: bool,
}

// What the rows of a set have in common: their form, and the set's key, its on or off and its number.
// Kept: no Option of a number, for all rows are numbered or none, and `numbered` of write_columns says which.
#[derive(Clone, Copy)]
struct Rows {
    form: Form,
    key: u32,
    on: bool,
    block: u32,
}

impl Rows {
    // Of the set at a place.
    fn at(form: Form, sets: &Sets, i: usize) -> Rows
        requires { i < most_keys }
        ensures { result ≡ rows_at form sets.now i }
    {
        Rows {
            form,
            key: sets.keys[i],
            on: sets.on[i],
            block: sets.confirmed[i],
        }
    }
}

// ---- the parts of a line

// One byte n times.
fn put_same(page: &mut Page, n: usize, b: u8)
    ensures { Writes page.old (replicate n b) page.new }
{
    for _ in 0..n {
        page.put(b);
    }
}

// This many blanks, for eyes; nothing for a spreadsheet.
#[tactic(auto, using(out::proofs::Pages::writes_none))]
fn put_fill(page: &mut Page, csv: bool, n: usize)
    ensures { Writes page.old (cond csv [] (replicate n 32)) page.new }
{
    if !csv {
        put_same(page, n, b' ');
    }
}

// What stands between two columns.
#[tactic(auto, unfolding(crate::specs::Columns::gap))]
fn put_gap(page: &mut Page, csv: bool)
    ensures { Writes page.old (gap csv) page.new }
{
    if csv {
        page.put_bytes(b",");
    } else {
        page.put_bytes(b" | ");
    }
}

// A code.
fn put_code(page: &mut Page, csv: bool, digits: usize, n: u32)
    ensures { Writes page.old (code_text csv digits n) page.new }
{
    if csv {
        page.put_bytes(b"0x");
    }
    page.put_hex(digits, n);
}

// On or off, up to the column's width.
fn put_state(page: &mut Page, csv: bool, on: bool)
    ensures { Writes page.old (filled csv 5 (state_text on)) page.new }
{
    if on {
        page.put_bytes(b"on");
        put_fill(page, csv, 3);
    } else {
        page.put_bytes(b"off");
        put_fill(page, csv, 2);
    }
}

// A cell of a row, up to the column's width: blank where the row's code stands in another column, and else
// (`here`) the code, or `dead link` where there is none.
fn put_cell(page: &mut Page, csv: bool, here: bool, digits: usize, code: Option<u32>)
    ensures { Writes page.old (filled csv 9 (cell_text csv (cond here (cell_of digits code) blank))) page.new }
{
    if !here {
        put_fill(page, csv, 9);
        return;
    }
    match code {
        Some(n) => {
            put_code(page, csv, digits, n);
            put_fill(page, csv, 9usize.saturating_sub(digits));
        }
        None => page.put_bytes(b"dead link"),
    }
}

// The end of a row: the number up to the column's width where rows are numbered, and the end of the line.
fn put_end(page: &mut Page, form: Form, block: u32)
    ensures { Writes page.old (end_text form.csv (number_text (number_if form.numbered block))) page.new }
{
    if form.numbered {
        let n = block as usize;
        put_gap(page, form.csv);
        page.put_decimal(n);
        put_fill(page, form.csv, 10usize.saturating_sub(decimal_size(n)));
    }
    page.put(b'\n');
}

// The size of that.
#[tactic(auto, using(crate::proofs::Lines::narrow_number, crate::proofs::Lines::length_end_sheet, crate::proofs::Lines::length_end_eyes), unfolding(crate::specs::Columns::end_text, crate::specs::Columns::number_if, crate::specs::Columns::number_text))]
fn end_size(form: Form, block: u32) -> usize
    ensures { (result ≡ length (end_text form.csv (number_text (number_if form.numbered block)))) × (result ≤ 14) }
{
    if !form.numbered {
        1
    } else if form.csv {
        2 + decimal_size(block as usize)
    } else {
        14
    }
}

// ---- a row

// The row of a set up to its three cells.
fn put_head(page: &mut Page, csv: bool, key: u32, on: bool)
    ensures { Writes page.old (filled csv 4 (code_text csv 4 key) ++ gap csv ++ filled csv 5 (state_text on) ++ gap csv) page.new }
{
    put_code(page, csv, 4, key);
    put_gap(page, csv);
    put_state(page, csv, on);
    put_gap(page, csv);
}

// A row with a code of this kind, or with its dead link.
fn put_row(page: &mut Page, rows: Rows, kind: u8, code: Option<u32>)
    ensures { Writes page.old (row_text rows.form.csv (row_of rows.key rows.on (number_in rows) kind (cell_of (2 * key_width rows.key) code))) page.new }
{
    let csv = rows.form.csv;
    let digits = 2 * width_of(rows.key);
    put_head(page, csv, rows.key, rows.on);
    put_cell(page, csv, kind == rules::DAB, digits, code);
    put_gap(page, csv);
    put_cell(page, csv, kind == rules::RDS, digits, code);
    put_gap(page, csv);
    put_cell(page, csv, kind > rules::RDS, digits, code);
    put_end(page, rows.form, rows.block);
}

// The size of a row whose cell has this many bytes where nothing is filled up.
#[tactic(auto, unfolding(crate::specs::Cells::row_size, text::specs::Listing::state_text))]
fn row_size(rows: Rows, cell: usize) -> usize
    requires { cell ≤ 10 }
    ensures { (result ≡ row_size rows.form.csv rows.on (number_in rows) cell) × (result ≤ 62) }
{
    let end = end_size(rows.form, rows.block);
    if !rows.form.csv {
        48 + end
    } else if rows.on {
        12 + cell + end
    } else {
        13 + cell + end
    }
}

// ---- the rows of a set

// The rows of its identifiers.
fn put_codes(page: &mut Page, rows: Rows, list: &IdList)
    ensures { Writes page.old (rows_text rows.form.csv (code_rows (number_in rows) (shown_as rows.key rows.on list.now) (pairs_in list.now.kinds list.now.numbers list.now.len))) page.new }
{
    let pairs = list.pairs();
    for (kind, number) in pairs.kinds.iter().zip(pairs.numbers) {
        put_row(page, rows, *kind, Some(*number));
    }
}

// The size of the rows of this many identifiers.
fn codes_size(rows: Rows, n: usize) -> usize
    requires { n ≤ most_ids }
    ensures { (result ≡ n * row_size rows.form.csv rows.on (number_in rows) (2 + 2 * key_width rows.key)) × (result ≤ 7936) }
{
    n * row_size(rows, 2 + 2 * width_of(rows.key))
}

// The row of a kind: a dead link where the list names it without identifiers, nothing of another.
fn put_dead(page: &mut Page, rows: Rows, kind: u8, list: &IdList)
    ensures { Writes page.old (rows_text rows.form.csv (dead_rows (number_in rows) (shown_as rows.key rows.on list.now) kind (kind_named list.now.named kind))) page.new }
{
    if list.pairs().is_dead(kind, kind_named(list.named, kind)) {
        put_row(page, rows, kind, None);
    }
}

// The size of that.
fn dead_size(rows: Rows, kind: u8, list: &IdList) -> usize
    ensures { (result ≡ cond (is_dead kind (kind_named list.now.named kind) (pairs_in list.now.kinds list.now.numbers list.now.len)) (row_size rows.form.csv rows.on (number_in rows) 9) 0) × (result ≤ 62) }
{
    if list.pairs().is_dead(kind, kind_named(list.named, kind)) {
        row_size(rows, 9)
    } else {
        0
    }
}

// ---- a set

// How many places a line has for eyes.
#[tactic(auto, unfolding(crate::specs::Columns::line_width))]
fn line_width(numbered: bool) -> usize
    ensures { result ≡ line_width numbered }
{
    if numbered { 61 } else { 48 }
}

// The line of dashes, for eyes; nothing for a spreadsheet.
fn put_rule(page: &mut Page, form: Form)
    ensures { Writes page.old (rule_text form.csv form.numbered) page.new }
{
    if !form.csv {
        put_same(page, line_width(form.numbered), b'-');
        page.put(b'\n');
    }
}

// The size of that.
#[tactic(auto, using(crate::proofs::Lines::line_most, crate::proofs::Lines::length_rule), unfolding(crate::specs::Columns::rule_text))]
fn rule_size(form: Form) -> usize
    ensures { (result ≡ length (rule_text form.csv form.numbered)) × (result ≤ 62) }
{
    if form.csv {
        0
    } else {
        line_width(form.numbered) + 1
    }
}

// A set.
fn put_set(page: &mut Page, rows: Rows, list: &IdList)
    ensures { Writes page.old (set_text rows list.now) page.new }
{
    put_codes(page, rows, list);
    put_dead(page, rows, rules::RDS, list);
    put_dead(page, rows, rules::DRM, list);
    put_rule(page, rows.form);
}

// The size of a set.
fn set_size(rows: Rows, list: &IdList) -> usize
    ensures { (result ≡ length (set_text rows list.now)) × (result ≤ 8122) }
{
    let codes = codes_size(rows, list.len.min(IdList::MOST));
    let dead = dead_size(rows, rules::RDS, list) + dead_size(rows, rules::DRM, list);
    codes + dead + rule_size(rows.form)
}

// ---- the whole

// The names of the first five columns.
#[tactic(auto, unfolding(crate::specs::Columns::names_text, crate::specs::Columns::cells_text, crate::specs::Columns::filled, crate::specs::Columns::gap))]
fn put_names(page: &mut Page, csv: bool)
    ensures { Writes page.old (names_text csv) page.new }
{
    if csv {
        page.put_bytes(b"set,state,DAB,FM (RDS),DRM/AMSS");
    } else {
        page.put_bytes(b"set  | state | DAB       | FM (RDS)  | DRM/AMSS ");
    }
}

// The end of the heading: the name of the last column where rows are numbered, and the end of the line.
#[tactic(auto, unfolding(crate::specs::Columns::end_text, crate::specs::Columns::last_name, crate::specs::Columns::filled, crate::specs::Columns::gap))]
fn put_last(page: &mut Page, form: Form)
    ensures { Writes page.old (end_text form.csv (last_name form.numbered)) page.new }
{
    if !form.numbered {
        page.put(b'\n');
    } else if form.csv {
        page.put_bytes(b",block\n");
    } else {
        page.put_bytes(b" | block     \n");
    }
}

// The heading, with the line under it.
fn put_heading(page: &mut Page, form: Form)
    ensures { Writes page.old (heading_text form.csv form.numbered ++ rule_text form.csv form.numbered) page.new }
{
    put_names(page, form.csv);
    put_last(page, form);
    put_rule(page, form);
}

// The size of that.
#[tactic(auto, using(crate::proofs::Lines::line_most, crate::proofs::Lines::length_heading), unfolding(crate::specs::Columns::heading_text, crate::specs::Columns::names_text, crate::specs::Columns::cells_text, crate::specs::Columns::end_text, crate::specs::Columns::last_name, crate::specs::Columns::filled, crate::specs::Columns::gap, crate::specs::Columns::rule_text))]
fn heading_size(form: Form) -> usize
    ensures { (result ≡ length (heading_text form.csv form.numbered ++ rule_text form.csv form.numbered)) × (result ≤ 124) }
{
    if !form.csv {
        2 * (line_width(form.numbered) + 1)
    } else if form.numbered {
        38
    } else {
        32
    }
}

// The sets.
fn put_sets(page: &mut Page, form: Form, sets: &Sets)
    requires { sets.now.count ≤ most_keys }
    ensures { Writes page.old (sets_text form.csv form.numbered (confirmed_sets_in sets.now)) page.new }
{
    for k in 0..sets.count {
        let set = &sets.shown[k];
        if set.len != 0 {
            put_set(page, Rows::at(form, sets, k), set);
        }
    }
}

// Their size.
fn sets_size(form: Form, sets: &Sets) -> usize
    requires { sets.now.count ≤ most_keys }
    ensures { (result ≡ length (sets_text form.csv form.numbered (confirmed_sets_in sets.now))) × (result ≤ 259904) }
{
    let mut size = 0;
    for i in 0..sets.count {
        let list = &sets.shown[i];
        if list.len != 0 {
            size += set_size(Rows::at(form, sets, i), list);
        }
    }
    size
}

// The columns of a table at the front of a buffer: 9, then 8, each with the buffer as it was.
pub fn write_columns(
    table: Table,
    csv: bool,
    numbered: bool,
    out: &mut [u8],
) -> Result<usize, Unwritten>
    ensures { Outputs (columns csv numbered) table out.old result out.new }
{
    if !table.meets() {
        return Err(Unwritten::WrongTable);
    }
    let form = Form { csv, numbered };
    let sets = &table.sets;
    if out.len() < heading_size(form) + sets_size(form, sets) {
        return Err(Unwritten::ShortBuffer);
    }
    let mut page = Page::over(out);
    put_heading(&mut page, form);
    put_sets(&mut page, form, sets);
    Ok(page.size())
}
