// Numbers in byte slices, least byte first, and what it takes to write them.
#![tactic(auto)]

ghost use Rattle.std.specs.Prelude.{◌≡◌, ◌+◌, ◌-◌, ◌/◌, ◌<◌, ◌≤◌, length, replicate};
ghost use Rattle.octets.specs.Lists.{splice};
ghost use Rattle.octets.specs.Numbers.{with_bit, NumbersBack, BitsBack, SpareBits, BitSet};

pub mod word;

// Writes `part` over the bytes from `at` on.
pub fn copy_at(bytes: &mut [u8], at: usize, part: &[u8])
    requires { at + length part.now ≤ length bytes.old }
    ensures { bytes.new ≡ splice bytes.old at part.now }
{
    bytes[at..at + part.len()].copy_from_slice(part);
}

// Makes the bytes from `from` up to `to` zero.
pub fn zero(bytes: &mut [u8], from: usize, to: usize)
    requires { (from ≤ to) × (to ≤ length bytes.old) }
    ensures { bytes.new ≡ splice bytes.old from (replicate (to - from) 0) }
{
    bytes[from..to].fill(0);
}

// Sets bit `k`; the lowest bit of each byte comes first.
pub fn set_bit(bytes: &mut [u8], k: usize)
    requires { k / 8 < length bytes.old }
    ensures { bytes.new ≡ with_bit bytes.old k }
{
    bytes[k / 8] |= 1 << (k % 8);
}

// Numbers and bits that were put into bytes are read from them, and setting a bit of a bitmap sets that bit and no other.
pub fn read_back()
    ensures numbers { NumbersBack }
    ensures bits { BitsBack }
    ensures spare { SpareBits }
    ensures sets { BitSet }
{}
