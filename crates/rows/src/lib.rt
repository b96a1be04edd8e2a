// The rows of a branch: read, refused or accepted, and turned into the positions of its children.
#![tactic(auto)]

ghost use Rattle.std.specs.Prelude.{◌≡◌, ℕ, []};
ghost use Rattle.schema.specs.Tree.{Fields};
ghost use Rattle.schema.specs.declared.kind.Branch.{Branch};
ghost use Rattle.rows.specs.Kinds.{row_in};

use schema::settings::Settings;
use tape::rows::Rows;

mod entries;
mod kind;
mod lists;
mod maps;
mod passes;
mod structs;

pub use kind::RowKind;
pub use lists::{FixedRows, ListRows};
pub use maps::MapRows;
pub use passes::enter;
pub use structs::StructRows;

// The rows of a node, and how they are read.
#[derive(Clone, Copy)]
pub struct Reading<'a> {
    pub rows: Rows<'a>,
    pub settings: Settings,
    pub node: usize,
    pub in_force: bool,
}

impl<'a> Reading<'a> {
    // The same reading of no rows: each row is what it was.
    pub(crate) fn without_rows(self) -> Reading<'a>
        ensures none { result.rows.positions.now ≡ [] }
        ensures tape { result.rows.tape ≡ self.entry.rows.tape }
        ensures settings { result.settings ≡ self.entry.settings }
        ensures same { (b : Branch) (cs : Fields) (p : ℕ) → row_in result b cs p ≡ row_in self.entry b cs p }
    {
        let rows = Rows {
            tape: self.rows.tape,
            positions: &[],
        };
        Reading { rows, ..self }
    }
}

// An entered branch: how many children it has, how many slots each, and the place behind its buffers.
#[derive(Clone, Copy, PartialEq, Eq, Debug)]
pub struct Entered {
    pub kids: usize,
    pub stride: usize,
    pub next: usize,
}
