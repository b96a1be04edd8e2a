// The two passes over the rows of a branch: they are counted, and then written.
ghost use Rattle.std.specs.Prelude.{◌≡◌, ℕ, ◌*◌, ◌^◌, ◌<◌, ◌≤◌, true, [], ◌∷◌, map, length, IfOk};
ghost use Rattle.octets.specs.Lists.{joined};
ghost use Rattle.slip.specs.Slips.{answer_of, then, each, got, is_got};
ghost use Rattle.tape.specs.Opened.{view_of};
ghost use Rattle.schema.specs.Tree.{Field, Fields, many};
ghost use Rattle.batch.specs.Batch.{branch_column, buffers};
ghost use Rattle.columns.specs.Areas.{Place};
ghost use Rattle.columns.specs.Spans.{Suits};
ghost use Rattle.rows.specs.Entering.{Like, BranchEntered};
ghost use Rattle.rows.specs.Kinds.{row_in, row_there, items_in, counts_of, Suited};
ghost use Rattle.rows.specs.Filling.{Filled, Positions};

use crate::kind::{RowKind, check_row, fill_row};
use crate::{Entered, Reading};
use columns::offset::OffsetSize;
use columns::spans::Spans;
use slip::Fault;

// How many items the rows of a branch have in each child, and how many rows are null.
#[derive(Clone, Copy, PartialEq, Eq, Debug)]
pub(crate) struct Counted {
    pub(crate) items: usize,
    pub(crate) nulls: usize,
}

// Reads every row in order, up to the first that is refused.
pub(crate) fn count_rows<K: RowKind>(kind: &K, reading: Reading<'_>) -> Result<Counted, Fault>
    requires ready { K.ready kind.now }
    requires few { length reading.rows.positions.now ≤ 2 ^ 24 }
    ensures said { answer_of result ≡ then (each (row_in reading.entry (K.branch kind.now) (K.children kind.now)) reading.entry.rows.positions.now) (λ os. got (counts_of (K.branch kind.now) (K.children kind.now) os)) }
    ensures few { IfOk result (λ n. (n.items ≤ 2 ^ 48) × (n.nulls ≤ 2 ^ 24) × (many (K.children kind.now) ≡ 0 → n.items ≤ 2 ^ 24)) }
{
    let mut items = 0;
    let mut nulls = 0;
    for p in reading.rows.positions {
        let row = check_row(kind, reading, *p)?;
        items += row.items;
        nulls += row.null as usize;
    }
    Ok(Counted { items, nulls })
}

// Writes the positions that the rows give to the children, and the buffers of the branch.
pub(crate) fn fill_rows<K: RowKind, O: OffsetSize>(
    kind: &K,
    reading: Reading<'_>,
    spans: Spans,
    work: &mut [u32],
    stride: usize,
    out: &mut [u8],
)
    requires ready { K.ready kind.now }
    requires few { length reading.rows.positions.now ≤ 2 ^ 24 }
    requires accepted { is_got (each (row_in reading (K.branch kind.now) (K.children kind.now)) reading.rows.positions.now) ≡ true }
    requires all { length (joined (map (items_in reading (K.branch kind.now) (K.children kind.now)) reading.rows.positions.now)) ≡ stride }
    requires lent { many (K.children kind.now) * stride ≤ length work.old }
    requires small { stride < 2 ^ 31 }
    requires spans { Suited O.OffsetSize.WIDTH (K.branch kind.now) spans out.old (map (row_there reading (K.branch kind.now) (K.children kind.now)) reading.rows.positions.now) }
    ensures filled { Filled (many (K.children kind.now)) stride 0 (joined (map (items_in reading.entry (K.branch kind.now) (K.children kind.now)) reading.entry.rows.positions.now)) work.old work.new }
    ensures positions { Positions (view_of reading.entry.rows.tape) (joined (map (items_in reading.entry (K.branch kind.now) (K.children kind.now)) reading.entry.rows.positions.now)) }
    ensures written { out.new ≡ buffers (branch_column (K.branch kind.now) (map (row_there reading.entry (K.branch kind.now) (K.children kind.now)) reading.entry.rows.positions.now) ∷ []) }
{
    let mut at = 0;
    for (slot, p) in reading.rows.positions.iter().enumerate() {
        let row = fill_row(kind, reading, *p, work, stride, at);
        spans.put_row::<O>(out, slot, !row.null, at, row.items);
        at += row.items;
    }
    spans.close::<O>(out, at);
}

// Enters a branch: reads its rows, and where there is space for them writes its column and the positions of its children.
pub fn enter<K: RowKind, O: OffsetSize>(
    kind: &K,
    reading: Reading<'_>,
    work: &mut [u32],
    area: &mut [u8],
    top: usize,
) -> Result<Entered, Fault>
    requires ready { K.ready kind.now }
    requires few { length reading.rows.positions.now ≤ 2 ^ 24 }
    requires lent { length work.old ≤ 2 ^ 24 }
    requires place { Place area.old reading.node top }
    requires suits { Suits O.OffsetSize.WIDTH (K.branch kind.now) }
    ensures { (f : Field) (cs : Fields) → f.number ≡ reading.entry.node → Like (K.branch kind.now) (K.children kind.now) cs → BranchEntered reading.entry.settings (view_of reading.entry.rows.tape) f (K.branch kind.now) cs reading.entry.in_force reading.entry.rows.positions.now top area.old area.new work.old work.new result }
{
    let counted = count_rows(kind, reading)?;
    let kids = kind.kids();
    let branch = kind.branch();
    let spans = Spans::new(branch, reading.rows.positions.len(), counted.nulls);
    let next = spans.plan.end(
        reading.node,
        top,
        area.len(),
        work.len(),
        kids * counted.items,
    )?;
    spans.plan.put_record(area, reading.node, top);
    fill_rows::<K, O>(
        kind,
        reading,
        spans,
        work,
        counted.items,
        &mut area[top..next],
    );
    Ok(Entered {
        kids,
        stride: counted.items,
        next,
    })
}
