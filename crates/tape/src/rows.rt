// Rows: positions of a tape, one for each slot of a column.
ghost use Rattle.std.specs.Prelude.{◌≡◌, ℕ, ◌<◌, true, length, slice_index};
ghost use Rattle.tape.specs.Opened.{view_of};
ghost use Rattle.tape.specs.View.{is_position};

use crate::Tape;

// Positions of a tape.
#[derive(Clone, Copy)]
pub struct Rows<'a> {
    pub tape: Tape<'a>,
    pub positions: &'a [u32],
    pub ghost taken: { (i : ℕ) → i < length positions.now → is_position (view_of tape) (slice_index positions.now i) ≡ true },
}
