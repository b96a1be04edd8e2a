// The buffers of a branch, written row by row.
//
// `Spans::new` plans them for so many slots and nulls: its `plan` then tests the space (`Plan::end`) and writes the
// record (`Plan::put_record`). `put_row` wants a slice of exactly the buffers' size, which begins as zeros
// (`Begins.begun_none`), and each row in order; `close` comes after the last row.
// `Begun s out rows` says that these first rows are in `out`: `put_row` goes from some rows to one more, and `close`
// from all rows to the buffers of the branch's column, which make the written column (`Places.column-written`).
ghost use Rattle.std.specs.Prelude.{◌≡◌, ◌+◌, ◌/◌, ◌^◌, ◌<◌, ◌≤◌, ◌&&◌, List, [], ◌∷◌, ◌++◌, length, if◌then◌else◌, nat_lt};
ghost use Rattle.octets.specs.Lists.{is_some};
ghost use Rattle.octets.specs.Numbers.{with_bit};
ghost use Rattle.batch.specs.Batch.{branch_column, buffers, nulls as nulls_of};
ghost use Rattle.columns.specs.Areas.{Plans};
ghost use Rattle.columns.specs.Plans.{bytes_of};
ghost use Rattle.columns.specs.Spans.{Row, begun, is_ended, is_view, Laid, Begun, Suits, Counted, Closes};

use crate::offset::{OffsetSize, put_count};
use crate::plan::{Plan, round_up};
use octets::set_bit;
use schema::kind::Branch;

// The column of a branch that is written row by row.
#[derive(Clone, Copy)]
pub struct Spans {
    pub branch: Branch,
    pub plan: Plan,
}

// Sets a valid slot's bit, where any slot is null.
fn put_bit(out: &mut [u8], nulls: usize, slot: usize, valid: bool)
    requires { 0 < nulls → slot / 8 < length out.old }
    ensures { out.new ≡ (if valid && nat_lt 0 nulls then with_bit out.old slot else out.old) }
{
    if valid && nulls > 0 {
        set_bit(out, slot);
    }
}

// The bytes of an offset.
fn offset_size(wide: bool) -> usize
    ensures { result ≡ (if wide then 8 else 4) }
{
    if wide { i64::WIDTH } else { i32::WIDTH }
}

// Whether a last offset says where the items of all rows end.
fn is_ended(branch: Branch) -> bool
    ensures { result ≡ is_ended branch }
{
    matches!(branch, Branch::List { view: false, .. } | Branch::Map)
}

// Whether each row has a size beside its offset.
fn is_view(branch: Branch) -> bool
    ensures { result ≡ is_view branch }
{
    matches!(branch, Branch::List { view: true, .. })
}

fn offsets_size(branch: Branch, slots: usize) -> usize
    requires { slots ≤ 2 ^ 24 }
    ensures { result ≡ length (begun branch slots 0 []).offsets }
{
    match branch {
        Branch::Struct | Branch::Fixed { .. } => 0,
        Branch::List { view: false, wide } => offset_size(wide) * (slots + 1),
        Branch::List { view: true, wide } => offset_size(wide) * slots,
        Branch::Map => 4 * (slots + 1),
    }
}

fn sizes_size(branch: Branch, slots: usize) -> usize
    requires { slots ≤ 2 ^ 24 }
    ensures { result ≡ length (begun branch slots 0 []).bytes }
{
    match branch {
        Branch::List { view: true, wide } => offset_size(wide) * slots,
        _ => 0,
    }
}

impl Spans {
    // The spans of so many rows, of which so many are null.
    pub fn new(branch: Branch, slots: usize, nulls: usize) -> Spans
        requires { slots ≤ 2 ^ 24 }
        ensures laid { Laid result }
        ensures same { (result.branch ≡ branch) × ((result.plan.slots ≡ slots) × (result.plan.nulls ≡ nulls)) }
        ensures plans { (os : List Row) → length os ≡ slots → nulls_of os ≡ nulls → Plans result.plan (branch_column branch os) }
    {
        let offsets = offsets_size(branch, slots);
        let plan = Plan::new(slots, nulls, offsets, sizes_size(branch, slots));
        Spans { branch, plan }
    }

    // Writes a row behind those that are written: its bit, and where its items begin and how many there are.
    pub fn put_row<O: OffsetSize>(
        self,
        out: &mut [u8],
        row: usize,
        valid: bool,
        start: usize,
        size: usize,
    )
        requires laid { Laid self }
        requires suits { Suits O.OffsetSize.WIDTH self.branch }
        requires long { length out.old ≡ bytes_of self.plan }
        requires within { row < self.plan.slots }
        requires small { (start < 2 ^ 31) × (size < 2 ^ 31) }
        ensures { (os : List Row) (o : Row) → Begun self out.old os → length os ≡ row → is_some o ≡ valid → Counted self.branch os o start size → Begun self out.new (os ++ (o ∷ [])) }
    {
        put_bit(out, self.plan.nulls, row, valid);
        let place = round_up(self.plan.validity);
        if is_ended(self.branch) {
            put_count::<O>(out, place + O::WIDTH * row, start);
        } else if is_view(self.branch) {
            put_count::<O>(out, place + O::WIDTH * row, start);
            let sizes = place + round_up(self.plan.offsets);
            put_count::<O>(out, sizes + O::WIDTH * row, size);
        }
    }

    // Writes what stands behind all rows: where the last items of a list or a map end.
    pub fn close<O: OffsetSize>(self, out: &mut [u8], items: usize)
        requires laid { Laid self }
        requires suits { Suits O.OffsetSize.WIDTH self.branch }
        requires long { length out.old ≡ bytes_of self.plan }
        requires small { items < 2 ^ 31 }
        ensures { (os : List Row) → Begun self out.old os → length os ≡ self.plan.slots → nulls_of os ≡ self.plan.nulls → Closes self.branch os items → out.new ≡ buffers (branch_column self.branch os ∷ []) }
    {
        if is_ended(self.branch) {
            let end = round_up(self.plan.validity) + O::WIDTH * self.plan.slots;
            put_count::<O>(out, end, items);
        }
    }
}
