// The iterators that walk a tape.
ghost use Rattle.tape.specs.Opened.{view_of};
ghost use Rattle.tape.specs.Walk.{Steps, PairSteps};

use crate::Tape;

// The positions of values, one after another.
#[derive(Drop)]
pub struct Entries<'a> {
    tape: Tape<'a>,
    at: u32,
    end: u32,
    pub ghost way: { ∥ Steps (view_of tape) at end ∥₁ },
}

impl<'a> Entries<'a> {
    ghost use Rattle.std.specs.Prelude.{◌≡◌};
    ghost use Rattle.tape.specs.Ahead.{rest};
    ghost use Rattle.tape.specs.Walk.{onward};

    // The values from `at` up to `end`.
    pub(crate) fn new(tape: Tape<'a>, at: u32, end: u32) -> Self
        requires { ∥ Steps (view_of tape) at end ∥₁ }
        ensures { rest result ≡ onward (view_of tape.entry) at end }
    {
        Entries { tape, at, end }
    }
}

impl<'a> Iterator for Entries<'a> {
    type Item = u32;

    ghost use Rattle.std.specs.Iterator.{YieldsFirst, item_count};
    ghost use Rattle.tape.specs.Ahead.{rest};

    ghost next_gives = { YieldsFirst rest };

    ghost remaining = { item_count rest };

    fn next(&mut self) -> Option<u32> {
        if self.at >= self.end {
            return None;
        }
        let at = self.at;
        self.at = self.tape.next(at);
        Some(at)
    }
}

// An object's pairs, one after another: the position of the name, and that of its value.
#[derive(Drop)]
pub struct Pairs<'a> {
    tape: Tape<'a>,
    at: u32,
    end: u32,
    pub ghost way: { ∥ PairSteps (view_of tape) at end ∥₁ },
}

impl<'a> Pairs<'a> {
    ghost use Rattle.std.specs.Prelude.{◌≡◌};
    ghost use Rattle.tape.specs.Ahead.{by_twos, pairs_rest};
    ghost use Rattle.tape.specs.Walk.{onward};

    // The pairs from `at` up to `end`.
    pub(crate) fn new(tape: Tape<'a>, at: u32, end: u32) -> Self
        requires { ∥ PairSteps (view_of tape) at end ∥₁ }
        ensures { pairs_rest result ≡ by_twos (onward (view_of tape.entry) at end) }
    {
        Pairs { tape, at, end }
    }
}

impl<'a> Iterator for Pairs<'a> {
    type Item = (u32, u32);

    ghost use Rattle.std.specs.Iterator.{YieldsFirst, item_count};
    ghost use Rattle.tape.specs.Ahead.{pairs_rest};

    ghost next_gives = { YieldsFirst pairs_rest };

    ghost remaining = { item_count pairs_rest };

    fn next(&mut self) -> Option<(u32, u32)> {
        let name = self.at;
        if name >= self.end {
            return None;
        }
        self.at = self.tape.next(name + 1);
        Some((name, name + 1))
    }
}
