// What can be made of a table: its sets in lines or in columns, with the numbers of blocks (document 02, R-9) or without, its totals,
// its sheet, its blocks for air. One function, by what is asked for, over the crates that write each; it has no `requires`.
#![tactic(auto)]

ghost use Rattle.out.specs.Answer.{Outputs};
ghost use Rattle.outputs.specs.Output.{output_of};

use out::Unwritten;
use table::Table;

// What is asked for: the sets in lines, without the numbers or with them; in columns for eyes or for a spreadsheet, of a recording
// with the numbers, and of a sheet, which has none, without; the totals, the stored sheet, or blocks for air.
#[derive(Clone, Copy)]
pub enum Output {
    Lines,
    Confirmed,
    Columns,
    Spreadsheet,
    SheetColumns,
    SheetSpreadsheet,
    Totals,
    Sheet,
    Blocks,
}

// Writes what is asked for of a table into a lent buffer: 9, then 8, or 0 and its size. The lines alone tell the bytes left over.
pub fn write_output(
    asked: Output,
    table: Table,
    over: usize,
    out: &mut [u8],
) -> Result<usize, Unwritten>
    ensures { Outputs (output_of asked over) table out.old result out.new }
{
    match asked {
        Output::Lines => text::write_listing(table, over, out),
        Output::Confirmed => text::write_confirmed(table, over, out),
        Output::Columns => columns::write_columns(table, false, true, out),
        Output::Spreadsheet => columns::write_columns(table, true, true, out),
        Output::SheetColumns => columns::write_columns(table, false, false, out),
        Output::SheetSpreadsheet => columns::write_columns(table, true, false, out),
        Output::Totals => screen::write_totals(table, out),
        Output::Sheet => sheet::write_sheet(table, out),
        Output::Blocks => air::write_air(table, out),
    }
}
