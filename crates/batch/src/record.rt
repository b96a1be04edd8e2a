// The record of a node in a batch, and the bytes that it points to. Whatever the bytes are, what lies past their end is read as zeros.
ghost use Rattle.std.specs.Prelude.{◌≡◌, ◌^◌, ◌≤◌, if◌then◌else◌};
ghost use Rattle.octets.specs.Lists.{part};
ghost use Rattle.octets.specs.Numbers.{le_at, number_in, bitmap_bit};
ghost use Rattle.batch.specs.Format.{width, is_marked};
ghost use Rattle.batch.specs.Batch.{record_in, buffer_in};

use octets::copy_at;
use octets::word::Word;

// Where a buffer lies, from the batch's start, and how many bytes it has.
#[derive(Clone, Copy, PartialEq, Eq, Debug)]
pub struct Buffer {
    pub place: u32,
    pub size: u32,
}

// What a batch says of a node: its slots, how many of them are null, and its buffers.
#[derive(Clone, Copy, PartialEq, Eq, Debug)]
pub struct NodeRecord {
    pub slots: u32,
    pub nulls: u32,
    pub validity: Buffer,
    pub offsets: Buffer,
    // A leaf's values, or the sizes of a list-view.
    pub values: Buffer,
}

// The bytes from `place` on: `size` of them, or as many as there are.
pub(crate) fn cut(bytes: &[u8], place: usize, size: usize) -> &[u8]
    ensures { result.now ≡ part bytes.now place size }
{
    let from = place.min(bytes.len());
    let rest = &bytes[from..];
    let to = size.min(rest.len());
    &rest[..to]
}

// The number in the bytes from `at` on.
fn word_at<W: Word>(bytes: &[u8], at: usize) -> W
    ensures { W.value result ≡ le_at W.WIDTH bytes.now at }
{
    let mut all = [0; 8];
    copy_at(&mut all, 0, cut(bytes, at, W::WIDTH));
    W::read_at(&all, 0)
}

// Number `j` of a buffer of numbers, of eight bytes each if they are wide, else of four.
pub(crate) fn number_in(bytes: &[u8], wide: bool, j: usize) -> usize
    requires { j ≤ 2 ^ 32 }
    ensures { result ≡ number_in (width wide) bytes.now j }
{
    if wide {
        word_at::<u64>(bytes, 8 * j) as usize
    } else {
        word_at::<u32>(bytes, 4 * j) as usize
    }
}

// Bit `j` of a buffer of bits, the lowest of each byte first.
pub(crate) fn bit_in(bytes: &[u8], j: usize) -> bool
    ensures { bitmap_bit bytes.now j ≡ (if result then 1 else 0) }
{
    j / 8 < bytes.len() && (bytes[j / 8] >> (j % 8)) % 2 == 1
}

// Whether slot `j` is valid by these bits; without any, every slot is.
pub(crate) fn is_marked(bits: &[u8], j: usize) -> bool
    ensures { result ≡ is_marked bits.now j }
{
    bits.is_empty() || bit_in(bits, j)
}

// The bytes of a buffer of a batch.
pub fn buffer_in(bytes: &[u8], own: Buffer) -> &[u8]
    ensures { result.now ≡ buffer_in bytes.now own }
{
    cut(bytes, own.place as usize, own.size as usize)
}

// The record of a node.
pub fn record(bytes: &[u8], node: usize) -> NodeRecord
    ensures { result ≡ record_in bytes.now node }
{
    let own = cut(bytes, node.saturating_mul(32), 32);
    NodeRecord {
        slots: word_at(own, 0),
        nulls: word_at(own, 4),
        validity: Buffer {
            place: word_at(own, 8),
            size: word_at(own, 12),
        },
        offsets: Buffer {
            place: word_at(own, 16),
            size: word_at(own, 20),
        },
        values: Buffer {
            place: word_at(own, 24),
            size: word_at(own, 28),
        },
    }
}
