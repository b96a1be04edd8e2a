// The rows of a map.
ghost use Rattle.std.specs.Prelude.{◌≡◌, ◌+◌, ◌*◌, ◌≤◌, true, [], ◌∷◌, length};
ghost use Rattle.tape.specs.Layout.{the};
ghost use Rattle.tape.specs.Opened.{view_of};
ghost use Rattle.tape.specs.View.{is_at, is_position, entries};
ghost use Rattle.schema.specs.declared.kind.Branch.{Branch};
ghost use Rattle.batch.specs.Rows.{pairs};
ghost use Rattle.rows.specs.Kinds.{named};
ghost use Rattle.rows.specs.Filling.{Filled};

use crate::Reading;
use crate::kind::RowKind;
use schema::kind::Branch;
use schema::settings::Settings;
use slip::Fault;
use tape::Tape;

// Writes the pairs of the object at `p` from slot `at` on, the names first and the values `stride` behind, and counts them.
fn put_pairs(tape: Tape<'_>, p: u32, work: &mut [u32], stride: usize, at: usize) -> usize
    requires position { is_position (view_of tape) p ≡ true }
    requires object { is_at (view_of tape) (the "{") p ≡ true }
    requires room { at + length (pairs (entries (view_of tape) p)) ≤ stride }
    requires lent { 2 * stride ≤ length work.old }
    ensures count { result ≡ length (pairs (entries (view_of tape.entry) p)) }
    ensures filled { Filled 2 stride at (pairs (entries (view_of tape.entry) p)) work.old work.new }
{
    let mut n = 0;
    for (name, value) in tape.pairs(p) {
        work[at + n] = name;
        work[stride + at + n] = value;
        n += 1;
    }
    n
}

// The rows of a map take all their pairs, a null row none.
#[derive(Clone, Copy, PartialEq, Eq, Debug)]
pub struct MapRows;

impl RowKind for MapRows {
    ghost branch = { λ _. Branch.Map };

    ghost children = { λ _. named ([] ∷ ([] ∷ [])) };

    ghost ready = { λ _. Unit {0} };

    fn branch(&self) -> Branch {
        Branch::Map
    }

    fn kids(&self) -> usize {
        2
    }

    fn bracket(&self, _settings: Settings) -> char {
        '{'
    }

    fn count(&self, reading: Reading<'_>, p: u32) -> Result<usize, Fault> {
        Ok(reading.rows.tape.entry_count(p) / 2)
    }

    fn put(
        &self,
        reading: Reading<'_>,
        p: u32,
        work: &mut [u32],
        stride: usize,
        at: usize,
    ) -> usize {
        put_pairs(reading.rows.tape, p, work, stride, at)
    }

    fn hides(&self) -> usize {
        0
    }

    fn put_null(&self, _work: &mut [u32], _stride: usize, _at: usize) {}
}
