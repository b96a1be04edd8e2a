// The rows of a list, a list-view and a fixed-size list.
ghost use Rattle.std.specs.Prelude.{◌^◌, ◌≤◌, false, [], ◌∷◌};
ghost use Rattle.schema.specs.declared.kind.Branch.TheVariants.{List as list, Fixed as fixed};
ghost use Rattle.rows.specs.Kinds.{named};

use crate::Reading;
use crate::entries::{put_entries, put_zeros};
use crate::kind::RowKind;
use schema::kind::Branch;
use schema::settings::Settings;
use slip::Fault;

// The rows of a list or a list-view take all their entries, a null row none.
#[derive(Clone, Copy, PartialEq, Eq, Debug)]
pub struct ListRows {
    pub view: bool,
    pub wide: bool,
}

impl RowKind for ListRows {
    ghost branch = { λ s. list s.view s.wide };

    ghost children = { λ _. named ([] ∷ []) };

    ghost ready = { λ _. Unit {0} };

    fn branch(&self) -> Branch {
        Branch::List {
            view: self.view,
            wide: self.wide,
        }
    }

    fn kids(&self) -> usize {
        1
    }

    fn bracket(&self, _settings: Settings) -> char {
        '['
    }

    fn count(&self, reading: Reading<'_>, p: u32) -> Result<usize, Fault> {
        Ok(reading.rows.tape.entry_count(p))
    }

    fn put(
        &self,
        reading: Reading<'_>,
        p: u32,
        work: &mut [u32],
        _stride: usize,
        at: usize,
    ) -> usize {
        put_entries(reading.rows.tape, p, work, at, 1)
    }

    fn hides(&self) -> usize {
        0
    }

    fn put_null(&self, _work: &mut [u32], _stride: usize, _at: usize) {}
}

// The rows of a fixed-size list have exactly `count` entries; a null row takes as many zeros.
#[derive(Clone, Copy, PartialEq, Eq, Debug)]
pub struct FixedRows {
    pub count: usize,
}

impl RowKind for FixedRows {
    ghost branch = { λ s. fixed s.count };

    ghost children = { λ _. named ([] ∷ []) };

    ghost ready = { λ s. s.count ≤ 2 ^ 24 };

    fn branch(&self) -> Branch {
        Branch::Fixed { count: self.count }
    }

    fn kids(&self) -> usize {
        1
    }

    fn bracket(&self, _settings: Settings) -> char {
        '['
    }

    fn count(&self, reading: Reading<'_>, p: u32) -> Result<usize, Fault> {
        if reading.rows.tape.entry_count(p) != self.count {
            return Err(Fault::WrongCount {
                node: reading.node,
                row: p,
            });
        }
        Ok(self.count)
    }

    fn put(
        &self,
        reading: Reading<'_>,
        p: u32,
        work: &mut [u32],
        _stride: usize,
        at: usize,
    ) -> usize {
        put_entries(reading.rows.tape, p, work, at, 1)
    }

    fn hides(&self) -> usize {
        self.count
    }

    fn put_null(&self, work: &mut [u32], _stride: usize, at: usize) {
        put_zeros(work, at, 1, self.count);
    }
}
