// What stands in a slot of a batch.
ghost use Rattle.std.specs.Prelude.{◌≡◌, ◌+◌, ◌-◌, ◌^◌, ◌<◌};
ghost use Rattle.octets.specs.Numbers.{number_in};
ghost use Rattle.slip.specs.Slips.{answer_of, then, got};
ghost use Rattle.batch.specs.Format.{width};
ghost use Rattle.batch.specs.Batch.{column_in, record_in};
ghost use Rattle.batch.specs.Cells.{lying, leaf_cell, slot_cell, triple, numbers_of};

use crate::record::{NodeRecord, bit_in, buffer_in, is_marked, number_in, record};
use leaf::layout::Layout;
use slip::Fault;

// What is to be known of a node to read its slots: how they lead to its children, or how its values lie.
// No `schema::kind::Branch`: a count of 16 bits, as records have it, times a slot never wraps, whatever the bytes are.
#[derive(Clone, Copy)]
pub enum Shape {
    Struct,
    List { wide: bool },
    View { wide: bool },
    Fixed { count: u16 },
    Map,
    Leaf { layout: Layout, wide: bool },
}

// What stands in a slot.
#[derive(Clone, Copy, PartialEq, Eq, Debug)]
pub enum Content {
    Null,
    Bit(bool),
    // Bytes of the page; none have place 0.
    Bytes { place: usize, size: usize },
    // Slots of the child, or of a map's key and value.
    Items { first: usize, count: usize },
    // One slot in each field.
    Fields { slot: usize },
}

impl From<Content> for (u32, usize, usize) {
    ghost from_gives = { λ c t. t ≡ triple (numbers_of c) };

    // Its kind and two numbers: 0 null; 1 a bit; 2 bytes by place and size; 3 items by first slot and count; 4 fields by slot.
    fn from(content: Content) -> (u32, usize, usize) {
        match content {
            Content::Null => (0, 0, 0),
            Content::Bit(bit) => (1, usize::from(bit), 0),
            Content::Bytes { place, size } => (2, place, size),
            Content::Items { first, count } => (3, first, count),
            Content::Fields { slot } => (4, slot, 0),
        }
    }
}

// How far it is from offset `j` to the next.
fn extent(offsets: &[u8], wide: bool, j: usize) -> usize
    requires { j < 2 ^ 32 }
    ensures { result ≡ number_in (width wide) offsets.now (j + 1) - number_in (width wide) offsets.now j }
{
    number_in(offsets, wide, j + 1).saturating_sub(number_in(offsets, wide, j))
}

// Bytes of the page, with place 0 for none.
fn bytes_at(place: usize, size: usize) -> Content
    ensures { numbers_of result ≡ lying place size }
{
    let place = if size == 0 { 0 } else { place };
    Content::Bytes { place, size }
}

// A slot of a leaf that is not null; its values begin at `place` of the page.
fn leaf_cell(
    bytes: &[u8],
    node: usize,
    layout: Layout,
    wide: bool,
    place: usize,
    slot: usize,
) -> Content
    requires { slot < 2 ^ 32 }
    ensures { numbers_of result ≡ leaf_cell layout (width wide) place (column_in bytes.now node) slot }
{
    let own = record(bytes, node);
    match layout {
        Layout::None => Content::Null,
        Layout::Bit => Content::Bit(bit_in(buffer_in(bytes, own.values), slot)),
        Layout::Text => {
            let offsets = buffer_in(bytes, own.offsets);
            bytes_at(
                place.saturating_add(number_in(offsets, wide, slot)),
                extent(offsets, wide, slot),
            )
        }
        Layout::Eight => bytes_at(place.saturating_add(8 * slot), 8),
    }
}

// What stands in a slot of a node, in a batch that begins at `base` of the page.
pub fn cell(
    bytes: &[u8],
    base: usize,
    shape: Shape,
    node: usize,
    slot: usize,
) -> Result<Content, Fault>
    ensures { then (answer_of result) (λ c. got (numbers_of c)) ≡ slot_cell shape base bytes.now node slot }
{
    let own = record(bytes, node);
    if slot >= own.slots as usize {
        return Err(Fault::NotThere);
    }
    if !is_marked(buffer_in(bytes, own.validity), slot) {
        return Ok(Content::Null);
    }
    let offsets = buffer_in(bytes, own.offsets);
    Ok(match shape {
        Shape::Struct => Content::Fields { slot },
        Shape::List { wide } => Content::Items {
            first: number_in(offsets, wide, slot),
            count: extent(offsets, wide, slot),
        },
        Shape::View { wide } => Content::Items {
            first: number_in(offsets, wide, slot),
            count: number_in(buffer_in(bytes, own.values), wide, slot),
        },
        Shape::Fixed { count } => Content::Items {
            first: usize::from(count) * slot,
            count: usize::from(count),
        },
        Shape::Map => Content::Items {
            first: number_in(offsets, false, slot),
            count: extent(offsets, false, slot),
        },
        Shape::Leaf { layout, wide } => {
            let place = base.saturating_add(own.values.place as usize);
            leaf_cell(bytes, node, layout, wide, place, slot)
        }
    })
}
