// The ways to spoil a table, for testing outcome 9. Each is an assignment on the stored form, on the
// first place that has what the way needs: 1 to 16 on the sets, 22 to 24 on the totals, 25 and 26 on the
// sets' numbers. A way for which there is no such place leaves the table as it is, and says false.
// Kept: a way is its number, by which the scripts of the tests name it; an enum would say each of 21 numbers once more.
ghost use Rattle.std.specs.Prelude.{◌<◌, IfSome};

use lists::IdList;
use sets::Sets;
use table::Table;

// Whether a number is that of a way.
pub(crate) fn is_way(number: usize) -> bool {
    matches!(number, 1..=16 | 22..=26)
}

// Entries 0 and 1 change places.
fn swap_entries(sets: &mut Sets) {
    sets.keys.swap(0, 1);
    sets.on.swap(0, 1);
    sets.confirmed.swap(0, 1);
    sets.shown.swap(0, 1);
    sets.draft.swap(0, 1);
}

// The ways 1 to 6, on the sets' entries.
fn spoil_entries(sets: &mut Sets, way: usize) -> bool {
    let count = sets.count;
    match way {
        // entries 0 and 1 change places
        1 if 2 <= count => swap_entries(sets),
        // more entries than places
        2 => sets.count = 33,
        // a key twice
        3 if 2 <= count => sets.keys[1] = sets.keys[0],
        // a key of 65,536
        4 if 1 <= count && count <= 32 => sets.keys[count - 1] = 65536,
        // a key with LSN 0
        5 if 1 <= count => sets.keys[0] -= sets.keys[0] % 4096,
        // something in an unused entry
        6 if count < 32 => sets.on[count] = true,
        _ => return false,
    }
    true
}

// Whether the list has an RDS code or a DRM or AMSS identifier.
fn has_other(list: &IdList) -> bool {
    let pairs = list.pairs();
    pairs.has_kind(rules::RDS) || pairs.has_kind(rules::DRM)
}

// The ways 7 to 16, on the list of a key.
fn spoil_list(list: &mut IdList, key: u32, way: usize) -> bool {
    let len = list.len;
    if len == 0 || 128 < len {
        return false;
    }
    match way {
        // a list of 129
        7 => list.len = 129,
        // something past its end
        8 if len < 128 => list.numbers[len] = 1,
        // a pair twice
        9 | 16 if 2 <= len => {
            list.numbers[1] = list.numbers[0];
            list.kinds[1] = list.kinds[0];
        }
        // an RDS code first
        10 if key / 32768 % 2 == 0 => {
            list.kinds[0] = rules::RDS;
            list.named |= 1;
        }
        // a number beyond the key's width
        11 if key / 16384 % 2 == 0 => {
            list.numbers[0] = if key / 4096 % 2 == 1 { 16777216 } else { 65536 }
        }
        // a kind of 2
        12 => list.kinds[len - 1] = 2,
        // a kind that is present and not named
        13 if has_other(list) => list.named = 0,
        // named kinds of 4
        14 => list.named |= 4,
        // P/D 1 with a named kind
        15 if key / 16384 % 2 == 1 => list.named = 1,
        _ => return false,
    }
    true
}

// The first of these lists that has what the way needs, spoiled so.
fn spoil_first(lists: &mut [IdList], keys: &[u32], way: usize) -> bool {
    for (list, key) in lists.iter_mut().zip(keys) {
        if spoil_list(list, *key, way) {
            return true;
        }
    }
    false
}

// One more than a figure; the largest number stays.
fn raise(figure: &mut usize) -> bool {
    *figure = figure.saturating_add(1);
    true
}

// The first place whose set is shown, or whose set is not.
fn place_of(sets: &Sets, shown: bool) -> Option<usize>
    ensures { IfSome result (λ n. n < 32) }
{
    sets.shown
        .iter()
        .position(|list| matches!(list.len, 1..=128) == shown)
}

// Way 25: the number of a shown set is above the table's own count, which has to leave room for that.
fn number_above(table: &mut Table) -> bool {
    match place_of(&table.sets, true) {
        Some(at) if table.blocks < Table::BLOCKS => {
            table.sets.confirmed[at] = table.blocks + 1;
            true
        }
        _ => false,
    }
}

// Way 26: there is a number without a shown set.
fn number_alone(sets: &mut Sets) -> bool {
    match place_of(sets, false) {
        Some(at) if at < sets.count => {
            sets.confirmed[at] = 1;
            true
        }
        _ => false,
    }
}

// Spoils a table in one of the ways.
pub(crate) fn spoil(table: &mut Table, way: usize) -> bool {
    match way {
        1..=6 => spoil_entries(&mut table.sets, way),
        7..=15 => spoil_first(&mut table.sets.shown, &table.sets.keys, way),
        16 => spoil_first(&mut table.sets.draft, &table.sets.keys, way),
        22 => raise(&mut table.totals.shown),
        23 => raise(&mut table.totals.on),
        24 => raise(&mut table.totals.identifiers),
        25 => number_above(table),
        26 => number_alone(&mut table.sets),
        _ => false,
    }
}
