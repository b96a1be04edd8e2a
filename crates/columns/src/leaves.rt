// The column of a leaf.
ghost use Rattle.std.specs.Prelude.{◌≡◌, ℕ, ◌+◌, ◌/◌, ◌^◌, ◌<◌, ◌≤◌, min, List, [], ◌∷◌, ◌++◌, map, length, replicate, if◌then◌else◌, nat_lt};
ghost use Rattle.std.proofs.Math.Option.{Option};
ghost use Rattle.octets.specs.Lists.{is_some, sum};
ghost use Rattle.octets.specs.Numbers.{packed, pad, padded};
ghost use Rattle.tape.specs.Opened.{view_of};
ghost use Rattle.batch.specs.Batch.{buffers, leaf_column, nulls as nulls_of, sizes};
ghost use Rattle.columns.specs.Areas.{Place, Plans};
ghost use Rattle.columns.specs.Entering.{AllFit, LeafEntered};
ghost use Rattle.columns.specs.Leaves.{PlannedLeaf, Whole, cells};
ghost use Rattle.columns.specs.Plans.{Totals, bytes_of};

use crate::cells::{has_value, is_one, put_bits, put_eights, put_texts};
use crate::offset::OffsetSize;
use crate::plan::{Plan, round_up};
use crate::scan::{Seen, scan};
use leaf::Leaf;
use leaf::layout::Layout;
use slip::Fault;
use tape::rows::Rows;

// What a column of so many slots takes, by what its rows were seen to have.
fn sized<O: OffsetSize>(layout: Layout, slots: usize, seen: Seen) -> Plan
    requires { slots ≤ 2 ^ 24 }
    ensures { (os : List (Option (List ℕ))) → length os ≡ slots → nulls_of os ≡ seen.nulls → seen.bytes ≡ min (sum (sizes os)) 18446744073709551615 → Whole layout os → Totals result (leaf_column layout O.OffsetSize.WIDTH os) }
{
    match layout {
        Layout::None => Plan {
            slots,
            nulls: slots,
            validity: 0,
            offsets: 0,
            data_size: 0,
        },
        Layout::Bit => Plan::new(slots, seen.nulls, 0, slots.div_ceil(8)),
        Layout::Text => Plan::new(slots, seen.nulls, O::WIDTH * (slots + 1), seen.bytes),
        Layout::Eight => Plan::new(slots, seen.nulls, 0, 8 * slots),
    }
}

// Reads the rows, up to the first that is refused, and plans their column.
fn plan_leaf<L: Leaf, O: OffsetSize>(leaf: &L, rows: Rows<'_>, node: usize) -> Result<Plan, Fault>
    requires few { length rows.positions.now ≤ 2 ^ 24 }
    requires fits { AllFit (L.Leaf.meaning leaf.now) }
    ensures { PlannedLeaf (L.Leaf.meaning leaf.now) O.OffsetSize.WIDTH (view_of rows.entry.tape) node rows.entry.positions.now result }
{
    let seen = scan(leaf, rows, node)?;
    Ok(sized::<O>(leaf.layout(), rows.positions.len(), seen))
}

// The bits that say which slots are valid, where they have any bytes.
fn put_validity<L: Leaf>(leaf: &L, rows: Rows<'_>, size: usize, out: &mut [u8])
    requires whole { 0 < size → size ≡ (length rows.positions.now + 7) / 8 }
    requires blank { out.old ≡ replicate (padded size) 0 }
    ensures { out.new ≡ (if nat_lt 0 size then pad (packed (map is_some (cells (L.Leaf.meaning leaf.now) (view_of rows.entry.tape) rows.entry.positions.now))) else []) }
{
    if size > 0 {
        put_bits(rows, |e| has_value(leaf, e), out);
    }
}

// The offsets, if there are any, and from `place` on the values.
fn put_values<L: Leaf, O: OffsetSize>(leaf: &L, rows: Rows<'_>, place: usize, out: &mut [u8])
    requires few { length out.old < 2 ^ 31 }
    requires fits { AllFit (L.Leaf.meaning leaf.now) }
    requires offsets { place ≡ padded (length (leaf_column (L.Leaf.meaning leaf.now).layout O.OffsetSize.WIDTH (cells (L.Leaf.meaning leaf.now) (view_of rows.tape) rows.positions.now)).offsets) }
    requires blank { out.old ≡ replicate (place + padded (length (leaf_column (L.Leaf.meaning leaf.now).layout O.OffsetSize.WIDTH (cells (L.Leaf.meaning leaf.now) (view_of rows.tape) rows.positions.now)).bytes)) 0 }
    ensures { let c = leaf_column (L.Leaf.meaning leaf.now).layout O.OffsetSize.WIDTH (cells (L.Leaf.meaning leaf.now) (view_of rows.entry.tape) rows.entry.positions.now) in out.new ≡ pad c.offsets ++ pad c.bytes }
{
    match leaf.layout() {
        Layout::None => {}
        Layout::Bit => put_bits(rows, |e| is_one(leaf, e), out),
        Layout::Text => put_texts::<L, O>(leaf, rows, place, out),
        Layout::Eight => put_eights(leaf, rows, out),
    }
}

// All buffers of the planned column.
fn put_buffers<L: Leaf, O: OffsetSize>(leaf: &L, rows: Rows<'_>, plan: Plan, out: &mut [u8])
    requires few { length out.old ≤ 2 ^ 24 }
    requires fits { AllFit (L.Leaf.meaning leaf.now) }
    requires planned { Plans plan (leaf_column (L.Leaf.meaning leaf.now).layout O.OffsetSize.WIDTH (cells (L.Leaf.meaning leaf.now) (view_of rows.tape) rows.positions.now)) }
    requires blank { out.old ≡ replicate (bytes_of plan) 0 }
    ensures { out.new ≡ buffers (leaf_column (L.Leaf.meaning leaf.now).layout O.OffsetSize.WIDTH (cells (L.Leaf.meaning leaf.now) (view_of rows.entry.tape) rows.entry.positions.now) ∷ []) }
{
    let place = round_up(plan.validity);
    let offsets = round_up(plan.offsets);
    let end = out.len();
    put_validity(leaf, rows, plan.validity, &mut out[0..place]);
    put_values::<L, O>(leaf, rows, offsets, &mut out[place..end]);
}

// Reads the rows of a leaf, and then writes its column: the record of its node, and its buffers from `top` on. It answers the place behind them.
pub fn put_leaf<L: Leaf, O: OffsetSize>(
    leaf: &L,
    rows: Rows<'_>,
    node: usize,
    area: &mut [u8],
    top: usize,
) -> Result<usize, Fault>
    requires few { length rows.positions.now ≤ 2 ^ 24 }
    requires place { Place area.old node top }
    requires fits { AllFit (L.Leaf.meaning leaf.now) }
    ensures { LeafEntered (L.Leaf.meaning leaf.now) O.OffsetSize.WIDTH (view_of rows.entry.tape) node top rows.entry.positions.now area.old area.new result }
{
    let plan = plan_leaf::<L, O>(leaf, rows, node)?;
    let end = plan.end(node, top, area.len(), 0, 0)?;
    plan.put_record(area, node, top);
    put_buffers::<L, O>(leaf, rows, plan, &mut area[top..end]);
    Ok(end)
}
