// The report of a recording (document 02, R-1): a line for each refused block, with the place where it broke, and the counts at the
// end, over a lent buffer. Every function is proved and none that is `pub` has a `requires`: what does not fit is not stored.
#![tactic(auto)]

ghost use Rattle.std.specs.Prelude.{◌≡◌};
ghost use Rattle.rules.specs.Outcomes.{number_of, verdict, is_refused};
ghost use Rattle.out.specs.Page.{Writes};
ghost use Rattle.report.specs.Report.{words_of, place_text, refusal_line, block_line, count_line, counts_text};
ghost use Rattle.report.specs.Telling.{Tells};

use block::Fault;
use out::Page;
use rules::Outcome;

// ---- the line of a refused block

// What an answer is called; those that refuse no block have no name.
fn words<'a>(outcome: Outcome) -> &'a [u8]
    ensures { result.now ≡ words_of (number_of outcome) }
{
    match outcome {
        Outcome::CheckFails => b"check fails",
        Outcome::WrongFig => b"wrong FIG",
        Outcome::WrongField => b"wrong field",
        Outcome::WrongValue => b"wrong value",
        Outcome::EmptyStart => b"empty start",
        _ => b"",
    }
}

// Where a block broke: nothing where the check fails.
fn put_where(page: &mut Page, outcome: Outcome, place: usize)
    ensures { Writes page.old (place_text (number_of outcome) place) page.new }
{
    if outcome != Outcome::CheckFails {
        page.put_bytes(b" at byte ");
        page.put_decimal(place);
    }
}

// The line of a refused block.
pub fn put_refusal(page: &mut Page, block: usize, outcome: Outcome, place: usize)
    ensures { Writes page.old (refusal_line block outcome place) page.new }
{
    page.put_bytes(b"block ");
    page.put_decimal(block);
    page.put_bytes(b": ");
    page.put_decimal(usize::from(outcome));
    put_where(page, outcome, place);
    page.put_bytes(b", ");
    page.put_bytes(words(outcome));
    page.put(b'\n');
}

// ---- the lines of blocks

// The line of a block, if it is refused, and whether it is; what is no block is not.
pub fn put_block(page: &mut Page, block: usize, fib: &[u8]) -> bool
    ensures { Tells page.old (block_line block (verdict fib.now)) (is_refused (verdict fib.now)) page.new result }
{
    match block::judge(fib) {
        Err(refused) if refused.fault != Fault::NotABlock => {
            put_refusal(page, block, Outcome::from(refused.fault), refused.place);
            true
        }
        _ => false,
    }
}

// ---- the counts

// A line that is some words and a count: nothing where the count is 0.
fn put_count(page: &mut Page, words: &[u8], n: usize)
    ensures { Writes page.old (count_line words.now n) page.new }
{
    if n != 0 {
        page.put_bytes(words);
        page.put_decimal(n);
        page.put(b'\n');
    }
}

// The counts at the end of a report.
pub fn put_counts(page: &mut Page, blocks: usize, refused: usize, full: usize, rest: usize)
    ensures { Writes page.old (counts_text blocks refused full rest) page.new }
{
    page.put_bytes(b"blocks ");
    page.put_decimal(blocks);
    page.put_bytes(b", refused ");
    page.put_decimal(refused);
    page.put(b'\n');
    put_count(page, b"starts without room ", full);
    put_count(page, b"rest ", rest);
}
