// The sizes of a column.
ghost use Rattle.std.specs.Prelude.{◌≡◌, ◌+◌, ◌*◌, ◌/◌, ◌^◌, ◌<◌, ◌≤◌, ◌++◌, length, if◌then◌else◌, nat_lt};
ghost use Rattle.slip.specs.Slips.{answer_of};
ghost use Rattle.octets.specs.Lists.{splice};
ghost use Rattle.octets.specs.Numbers.{le, padded};
ghost use Rattle.batch.specs.Format.{Column};
ghost use Rattle.batch.specs.Batch.{lying_at, record_of};
ghost use Rattle.columns.specs.Areas.{Plans, space};
ghost use Rattle.columns.specs.Plans.{Totals, Recordable};

use octets::word::Word;
use slip::Fault;

// What a column takes: its slots, its nulls, and the bytes of its three buffers.
#[derive(Clone, Copy, PartialEq, Eq, Debug)]
pub struct Plan {
    pub slots: usize,
    pub nulls: usize,
    pub validity: usize,
    pub offsets: usize,
    pub data_size: usize,
}

// The next multiple of 8.
pub fn round_up(n: usize) -> usize
    requires { n < 2 ^ 40 }
    ensures { result ≡ padded n }
{
    n.next_multiple_of(8)
}

// Writes where a buffer lies and how long it is; an empty one has place 0.
fn put_buffer(area: &mut [u8], at: usize, place: usize, size: usize)
    requires room { at + 8 ≤ length area.old }
    requires small { (place < 2 ^ 32) × (size < 2 ^ 32) }
    ensures { area.new ≡ splice area.old at (le 4 (lying_at place size) ++ le 4 size) }
{
    let lies = if size == 0 { 0 } else { place as u32 };
    lies.write_at(area, at);
    (size as u32).write_at(area, at + 4);
}

impl Plan {
    // A plan of a bit for each slot, where any is null.
    pub fn new(slots: usize, nulls: usize, offsets: usize, data_size: usize) -> Plan
        requires { slots ≤ 2 ^ 24 }
        ensures { result ≡ record { slots = slots; nulls = nulls; validity = (if nat_lt 0 nulls then (slots + 7) / 8 else 0); offsets = offsets; data_size = data_size } }
    {
        Plan {
            slots,
            nulls,
            validity: if nulls > 0 { slots.div_ceil(8) } else { 0 },
            offsets,
            data_size,
        }
    }

    // The place behind the buffers from `top` on, where a page of `free` bytes has room for them, and a work list has `left` entries for so many positions.
    pub fn end(
        self,
        node: usize,
        top: usize,
        free: usize,
        left: usize,
        positions: usize,
    ) -> Result<usize, Fault>
        requires within { top ≤ free }
        requires page { free ≤ 2 ^ 24 }
        ensures { (c : Column) → Totals self c → answer_of result ≡ space free left node top c positions }
    {
        if self.validity > free || self.offsets > free || self.data_size > free {
            return Err(Fault::Full { node });
        }
        let end = top + round_up(self.validity) + round_up(self.offsets) + round_up(self.data_size);
        if end > free || positions > left {
            return Err(Fault::Full { node });
        }
        Ok(end)
    }

    // Writes the record of a node whose buffers lie from `top` on.
    pub fn put_record(self, area: &mut [u8], node: usize, top: usize)
        requires room { 32 * node + 32 ≤ length area.old }
        requires fits { Recordable self top }
        ensures { (c : Column) → Plans self c → area.new ≡ splice area.old (32 * node) (record_of top c) }
    {
        let at = 32 * node;
        let offsets = top + round_up(self.validity);
        let values = offsets + round_up(self.offsets);
        (self.slots as u32).write_at(area, at);
        (self.nulls as u32).write_at(area, at + 4);
        put_buffer(area, at + 8, top, self.validity);
        put_buffer(area, at + 16, offsets, self.offsets);
        put_buffer(area, at + 24, values, self.data_size);
    }
}
