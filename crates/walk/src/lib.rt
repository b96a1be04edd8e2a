// The walk: a node's rows are read, its column is written, and then its children are walked.
#![tactic(auto)]

ghost use Rattle.std.specs.Prelude.{length};
ghost use Rattle.nodes.specs.Contract.{seen, Ready, Walked};

use bare::{leave, visit_child};
use entry::naming::Named;
use entry::{StructRows, enter};
use leaf::Leaf;
use nodes::Visit;
use rows::Entered;
use slip::Fault;
use tape::rows::Rows;

// Walks a node and those below it; `top` is where the next buffer goes, and stays behind the last that was written.
pub fn walk<X: Leaf, S: StructRows>(
    named: Named<'_, X, S>,
    visit: Visit<'_>,
    work: &mut [u32],
    area: &mut [u8],
    top: &mut usize,
) -> Result<(), Fault>
    requires ready { Ready (seen X.Leaf.meaning named.frame visit) work.old area.old top.old }
    ensures { Walked (seen X.Leaf.meaning named.entry.frame visit.entry) (length work.old) area.old area.new top.old top.new result }
{
    let Entered { kids, stride, next } = enter(named, visit, work, area, *top)?;
    *top = next;
    let schema = named.frame.schema;
    let (mine, deeper) = work.split_at_mut(kids * stride);
    let mine = Rows {
        tape: visit.rows.tape,
        positions: mine,
    };
    let mut rows = mine;
    for child in schema.children(visit.node) {
        let (child, others) = visit_child(schema, visit, child, stride, rows);
        walk(named, child, deeper, area, top)?;
        rows = others;
    }
    leave(named.frame, visit, stride, mine)
}
