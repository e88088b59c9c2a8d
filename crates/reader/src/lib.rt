// A small reader over a lent block: the block's slice and a place in it. A step says what stands at the place, as the walk
// by cursor of crate figs finds it, and moves the reader on.
// No function has a `requires`: what is no block is answered as wrong, and a place past the end as the end.
#![tactic(auto)]

ghost use Rattle.std.specs.Prelude.{◌≡◌};
ghost use Rattle.reader.specs.Reader.{place_after, Stepped};

use figs::{Cursor, FigStep};

// A place in a block that is lent to the reader.
#[derive(Clone, Copy)]
pub struct FigReader<'a> {
    pub fib: &'a [u8],
    pub at: usize,
}

// The place after what was found at a place.
#[tactic(auto, unfolding(crate::specs::Reader::place_after))]
fn place_after(at: usize, found: FigStep) -> usize
    ensures { result ≡ place_after at found }
{
    match found {
        FigStep::Fig { next, .. } => next.at,
        FigStep::End => at,
        FigStep::Wrong => at,
    }
}

impl<'a> FigReader<'a> {
    // A reader at the first FIG of a block.
    pub fn over(fib: &'a [u8]) -> FigReader<'a>
        ensures { (result.fib ≡ fib.entry) × (result.at ≡ 0) }
    {
        FigReader { fib, at: 0 }
    }

    // What stands at the reader's place. The reader goes on past a FIG, and stays at the end and at a wrong FIG.
    pub fn step(&mut self) -> FigStep
        ensures { Stepped self.old result self.new }
    {
        let found = Cursor { at: self.at }.step(self.fib);
        self.at = place_after(self.at, found);
        found
    }
}
