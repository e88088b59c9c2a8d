// The totals of a table as the line that a screen shows (document 02, R-7), into a lent buffer. Every function is proved and none that
// is `pub` has a `requires`.
#![tactic(auto)]

ghost use Rattle.std.specs.Prelude.{◌≡◌, ◌≤◌, length};
ghost use Rattle.out.specs.Answer.{Outputs};
ghost use Rattle.out.specs.Page.{Writes};
ghost use Rattle.screen.specs.Screen.{line_of, totals_text};

use out::{Page, Unwritten, decimal_size};
use table::Table;
use totals::Totals;

// How many bytes the line has: 26 beside the three numbers.
fn line_size(totals: Totals) -> usize
    ensures { (result ≡ length (line_of totals)) × (result ≤ 86) }
{
    26 + decimal_size(totals.shown) + decimal_size(totals.on) + decimal_size(totals.identifiers)
}

// The line.
fn put_line(page: &mut Page, totals: Totals)
    ensures { Writes page.old (line_of totals) page.new }
{
    page.put_bytes(b"shown ");
    page.put_decimal(totals.shown);
    page.put_bytes(b", on ");
    page.put_decimal(totals.on);
    page.put_bytes(b", identifiers ");
    page.put_decimal(totals.identifiers);
    page.put(10);
}

// Writes the totals of a table into a lent buffer: 9, then 8, or 0 and the size.
pub fn write_totals(table: Table, out: &mut [u8]) -> Result<usize, Unwritten>
    ensures { Outputs totals_text table out.old result out.new }
{
    if !table.meets() {
        return Err(Unwritten::WrongTable);
    }
    let totals = table.totals;
    if out.len() < line_size(totals) {
        return Err(Unwritten::ShortBuffer);
    }
    let mut page = Page::over(out);
    put_line(&mut page, totals);
    Ok(page.size())
}
