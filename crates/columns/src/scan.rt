// The rows of a leaf, read once before anything is written.
ghost use Rattle.tape.specs.Opened.{view_of};
ghost use Rattle.columns.specs.Leaves.{Scanned};

use leaf::Leaf;
use leaf::layout::Reply;
use slip::Fault;
use tape::rows::Rows;

// How many rows are null, and how many bytes the others have: too many to count are as many as can be.
#[derive(Clone, Copy, PartialEq, Eq, Debug)]
pub struct Seen {
    pub nulls: usize,
    pub bytes: usize,
}

// Reads the rows in order, up to the first that the leaf refuses.
pub fn scan<L: Leaf>(leaf: &L, rows: Rows<'_>, node: usize) -> Result<Seen, Fault>
    ensures { Scanned (L.Leaf.meaning leaf.now) (view_of rows.entry.tape) node rows.entry.positions.now result }
{
    let mut nulls = 0;
    let mut bytes = 0usize;
    for p in rows.positions {
        match leaf.answer(rows.tape.element(*p)) {
            Reply::Null => nulls += 1,
            Reply::Conflict => return Err(Fault::WrongKind { node, position: *p }),
            Reply::Misfit => return Err(Fault::Misfit { node, position: *p }),
            Reply::Value(n) => bytes = bytes.saturating_add(n),
        }
    }
    Ok(Seen { nulls, bytes })
}
