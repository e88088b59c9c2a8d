// The FIGs of a block (document 01, The block), one at a time: a cursor is a place in the block, and a step from it
// says what stands there. A FIG's body is not copied: a step gives its start and its end in the block.
#![tactic(auto)]

ghost use Rattle.std.specs.Prelude.{◌≡◌};
ghost use Rattle.figs.specs.Figs.{step_at};

// A place in a block: the number of bytes before it.
#[derive(Clone, Copy)]
pub struct Cursor {
    pub at: usize,
}

// What stands at a place.
// Kept: three arms, one for each that Step of the rules has, which step_at and found of specs/Figs.antt say in turn.
#[derive(Clone, Copy)]
pub enum FigStep {
    // A FIG: its type, its body fib[start..end], and the place after it.
    Fig {
        kind: u8,
        start: usize,
        end: usize,
        next: Cursor,
    },
    // The end of the list.
    End,
    // A FIG whose length is wrong, or no block.
    Wrong,
}

impl Cursor {
    // The place where the first FIG begins.
    pub fn first() -> Self
        ensures { result.at ≡ 0 }
    {
        Cursor { at: 0 }
    }

    // What stands at the cursor.
    #[tactic(auto, unfolding(crate::specs::Figs::step_at))]
    pub fn step(self, fib: &[u8]) -> FigStep
        ensures { result ≡ step_at fib.now self.at }
    {
        let at = self.at;
        if fib.len() != 32 {
            return FigStep::Wrong;
        }
        if 30 <= at {
            return FigStep::End;
        }
        let byte = fib[at];
        if byte == 255 {
            return FigStep::End;
        }
        let length = usize::from(byte % 32);
        if length == 0 {
            return FigStep::Wrong;
        }
        let start = at + 1;
        let end = start + length;
        if 30 < end {
            return FigStep::Wrong;
        }
        FigStep::Fig {
            kind: byte / 32,
            start,
            end,
            next: Cursor { at: end },
        }
    }
}
