// The lists of a table laid out in columns while blocks are read, so that no list is copied for a field: the numbers of
// all 32 lists in one array, the kinds in another, 128 places to a row. A function is lent the rows that it works on.
// Places past a row's length mean nothing here; gathering makes them zero again. See specs/Gathered.antt.

ghost use Rattle.std.specs.Prelude.{◌≡◌, ◌<◌, ◌≤◌, length, take, get_or, set};
ghost use Rattle.rules.specs.Collecting.{most_ids, most_keys};
ghost use Rattle.rules.specs.Outcomes.{overwritten};
ghost use Rattle.lists.specs.Grown.{with_field};
ghost use Rattle.reading.specs.Gathered.{no_rows, row_list, gathered, packed, Laid, Unchanged, appended_as, RowStep};

use field::Field;
use lists::{IdList, Pairs};
use rules::Note;
use table::Table;

// The places of a column: a row of 128 for each key.
pub(crate) const PLACES: usize = Table::KEYS * IdList::MOST;

// How many identifiers a row holds, and the kinds that it names.
#[derive(Clone, Copy)]
pub(crate) struct Row {
    pub(crate) len: usize,
    pub(crate) named: u8,
}

impl Row {
    // No list.
    fn none() -> Self
        ensures { result ≡ record { len = 0; named = 0 } }
    {
        Row { len: 0, named: 0 }
    }
}

// The same of all 32 rows, and which may differ from the lists that were laid out in them.
#[derive(Clone, Copy)]
pub(crate) struct Rows {
    pub(crate) lens: [usize; Table::KEYS],
    pub(crate) names: [u8; Table::KEYS],
    pub(crate) changed: [bool; Table::KEYS],
}

impl Rows {
    // No lists.
    pub(crate) fn none() -> Self
        ensures { result ≡ no_rows }
    {
        Self {
            lens: [0usize; Table::KEYS],
            names: [0u8; Table::KEYS],
            changed: [true; Table::KEYS],
        }
    }

    // One of them.
    pub(crate) fn at(&self, p: usize) -> Row
        requires { p < most_keys }
        ensures { result ≡ record { len = get_or self.now.lens p 0; named = get_or self.now.names p 0 } }
    {
        Row {
            len: self.lens[p],
            named: self.names[p],
        }
    }

    // With another at a place.
    pub(crate) fn put(&mut self, p: usize, row: Row, changed: bool)
        requires { p < most_keys }
        ensures { self.new ≡ record { lens = set self.old.lens p row.len; names = set self.old.names p row.named; changed = set self.old.changed p changed } }
    {
        self.lens[p] = row.len;
        self.names[p] = row.named;
        self.changed[p] = changed;
    }
}

// One column: the numbers and the kinds of all 32 lists, and what its rows hold.
#[derive(Clone, Copy)]
pub(crate) struct Column {
    pub(crate) numbers: [u32; PLACES],
    pub(crate) kinds: [u8; PLACES],
    pub(crate) rows: Rows,
}

// The first `n` numbers and kinds of a row to the front of another.
fn copy_row(numbers: &[u32], kinds: &[u8], n: usize, to_numbers: &mut [u32], to_kinds: &mut [u8])
    requires { (n ≤ length numbers.now) × (n ≤ length kinds.now) × (n ≤ length to_numbers.old) × (n ≤ length to_kinds.old) }
    ensures { (to_numbers.new ≡ overwritten (take n numbers.now) to_numbers.old)
        × (to_kinds.new ≡ overwritten (take n kinds.now) to_kinds.old) }
{
    to_numbers[..n].copy_from_slice(&numbers[..n]);
    to_kinds[..n].copy_from_slice(&kinds[..n]);
}

// A row as a list, in its stored form.
fn list_of(numbers: &[u32], kinds: &[u8], row: Row) -> IdList
    requires { (length numbers.now ≡ most_ids) × (length kinds.now ≡ most_ids) }
    ensures { result ≡ row_list numbers.now kinds.now row }
{
    let mut ns = [0u32; IdList::MOST];
    let mut ks = [0u8; IdList::MOST];
    copy_row(numbers, kinds, row.len.min(IdList::MOST), &mut ns, &mut ks);
    IdList {
        numbers: ns,
        kinds: ks,
        len: row.len,
        named: row.named,
    }
}

// Lays a list out in a row.
fn lay(list: &IdList, numbers: &mut [u32], kinds: &mut [u8]) -> Row
    requires { (length numbers.old ≡ most_ids) × (length kinds.old ≡ most_ids) }
    ensures { row_list numbers.new kinds.new result ≡ packed list.now }
{
    let len = list.len.min(IdList::MOST);
    copy_row(&list.numbers, &list.kinds, len, numbers, kinds);
    Row {
        len,
        named: list.named,
    }
}

impl Column {
    // Lists laid out.
    pub(crate) fn of(lists: &[IdList; Table::KEYS]) -> Self
        ensures { Laid lists.now result.rows result.numbers result.kinds }
    {
        let mut column = Column {
            numbers: [0u32; PLACES],
            kinds: [0u8; PLACES],
            rows: Rows::none(),
        };
        column.lay(lists);
        column
    }

    // Lays lists out.
    pub(crate) fn lay(&mut self, lists: &[IdList; Table::KEYS])
        ensures { Laid lists.now self.new.rows self.new.numbers self.new.kinds }
    {
        for p in 0..Table::KEYS {
            let a = p * IdList::MOST;
            let e = a + IdList::MOST;
            let row = lay(&lists[p], &mut self.numbers[a..e], &mut self.kinds[a..e]);
            self.rows.put(p, row, false);
        }
    }

    // Makes the lists that were laid out those of the rows, in their stored form: the rows that did not change are theirs.
    pub(crate) fn gather(&self, lists: &mut [IdList; Table::KEYS])
        requires { Unchanged lists.old self.now.numbers self.now.kinds self.now.rows }
        ensures { lists.new ≡ gathered self.now.numbers self.now.kinds self.now.rows }
    {
        for p in 0..Table::KEYS {
            if self.rows.changed[p] {
                let a = p * IdList::MOST;
                let e = a + IdList::MOST;
                lists[p] = list_of(&self.numbers[a..e], &self.kinds[a..e], self.rows.at(p));
            }
        }
    }
}

// Adds the identifiers of a field at a row's end, in order, each once, and the kinds that it names: the row then, or none
// where it would grow beyond 128.
fn append(numbers: &mut [u32], kinds: &mut [u8], row: Row, body: &[u8], f: Field) -> Option<Row>
    requires { (length numbers.old ≡ most_ids) × (length kinds.old ≡ most_ids) × (row.len ≤ most_ids) }
    ensures { appended_as result numbers.new kinds.new
        ≡ with_field (row_list numbers.old kinds.old row) body.now f }
{
    let named = lists::names_with(row.named, f.qualifier);
    let mut len = row.len;
    for i in 0..f.count {
        let id = f.identifier(body, i);
        let kind = id.kind();
        let number = id.number();
        if !Pairs::first(numbers, kinds, len).has(kind, number) {
            if IdList::MOST <= len {
                return None;
            }
            numbers[len] = number;
            kinds[len] = kind;
            len += 1;
        }
    }
    Some(Row { len, named })
}

// What a field leaves of a held key's two rows, and the note.
#[derive(Clone, Copy)]
pub(crate) struct Stepped {
    pub(crate) shown: Row,
    pub(crate) draft: Row,
    pub(crate) note: Note,
}

// These three.
// Kept: six literals of five lines each in on_held are no plainer, and it would pass 40 lines.
fn step_of(shown: Row, draft: Row, note: Note) -> Stepped
    ensures { result ≡ record { shown = shown; draft = draft; note = note } }
{
    Stepped { shown, draft, note }
}

// A field of a held key, on the rows of its shown set, in `sn` and `sk`, and of its open list, in `dn` and `dk`.
pub(crate) fn on_held(
    sn: &mut [u32],
    sk: &mut [u8],
    shown: Row,
    dn: &mut [u32],
    dk: &mut [u8],
    draft: Row,
    body: &[u8],
    f: Field,
) -> Stepped
    requires { (length sn.old ≡ most_ids) × (length sk.old ≡ most_ids) × (length dn.old ≡ most_ids) × (length dk.old ≡ most_ids) × (draft.len ≤ most_ids) }
    ensures { RowStep body.now f shown draft result
        sn.old sk.old dn.old dk.old
        sn.new sk.new dn.new dk.new }
{
    if !f.has_list() {
        return step_of(shown, draft, Note::StateOnly);
    }
    let len = draft.len;
    if f.is_continuation() {
        if len == 0 {
            return step_of(shown, draft, Note::NoOpenList);
        }
        return match append(dn, dk, draft, body, f) {
            Some(row) => step_of(shown, row, Note::Added),
            None => step_of(shown, Row::none(), Note::TooLong),
        };
    }
    if len == 0 {
        let row = append(dn, dk, Row::none(), body, f).unwrap_or(Row::none());
        return step_of(shown, row, Note::Opened);
    }
    copy_row(dn, dk, len, sn, sk);
    let row = append(dn, dk, Row::none(), body, f).unwrap_or(Row::none());
    step_of(draft, row, Note::ShownAndOpened)
}
