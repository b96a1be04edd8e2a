// The numbers that offsets and sizes are stored as.
ghost use Rattle.std.specs.Prelude.{◌≡◌, ℕ, ◌+◌, ◌-◌, ◌*◌, ◌^◌, ◌<◌, ◌≤◌, length, pos, is_some, IfSome, nat_lt};
ghost use Rattle.octets.specs.Lists.{splice};
ghost use Rattle.octets.specs.Numbers.{le};
ghost use Rattle.std.proofs.Common.{rules};

use octets::word::Word;

// A signed number of 4 or 8 bytes that a count is stored as.
// Each width has its own three lines: std's conversions belong to each type by itself, and are in no trait.
pub trait OffsetSize: Copy {
    // How many bytes a number takes.
    const WIDTH: usize;

    ghost WIDTH: { ℕ };

    // Holds of a number and the count that it stands for.
    ghost counts: { Self → ℕ → Type 0 };

    // The number that stands for `n`, where `n` is within range.
    fn from_usize(n: usize) -> Option<Self>
        ensures within { is_some result ≡ nat_lt n (2 ^ (8 * WIDTH - 1)) }
        ensures value { IfSome result (λ o. counts o n) };

    // The count that it stands for.
    fn as_usize(self) -> usize
        ensures { (n : ℕ) → counts self n → result ≡ n };

    // Writes it into the bytes from `at` on.
    fn put(self, out: &mut [u8], at: usize)
        requires { at + WIDTH ≤ length out.old }
        ensures { (n : ℕ) → counts self n → out.new ≡ splice out.old at (le WIDTH n) };

    ghost wide: { 2 ^ 31 ≤ 2 ^ (8 * WIDTH - 1) };

    ghost short: { WIDTH ≤ 8 };
}

impl OffsetSize for i32 {
    const WIDTH: usize = 4;

    ghost WIDTH = { 4 };

    ghost counts = { λ z n. z ≡ pos n };

    ghost wide = { Prim.search rules };

    ghost short = { Prim.search rules };

    fn from_usize(n: usize) -> Option<i32> {
        i32::try_from(n).ok()
    }

    fn as_usize(self) -> usize {
        self.cast_unsigned() as usize
    }

    fn put(self, out: &mut [u8], at: usize) {
        self.cast_unsigned().write_at(out, at);
    }
}

impl OffsetSize for i64 {
    const WIDTH: usize = 8;

    ghost WIDTH = { 8 };

    ghost counts = { λ z n. z ≡ pos n };

    ghost wide = { Prim.search rules };

    ghost short = { Prim.search rules };

    fn from_usize(n: usize) -> Option<i64> {
        i64::try_from(n).ok()
    }

    fn as_usize(self) -> usize {
        self.cast_unsigned() as usize
    }

    fn put(self, out: &mut [u8], at: usize) {
        self.cast_unsigned().write_at(out, at);
    }
}

// A count within range survives conversion and back.
pub fn there_and_back<O: OffsetSize>(n: usize) -> usize
    requires { n < 2 ^ (8 * O.OffsetSize.WIDTH - 1) }
    ensures { result ≡ n }
{
    O::from_usize(n).unwrap().as_usize()
}

// Writes a count of no more than 31 bits.
pub fn put_count<O: OffsetSize>(out: &mut [u8], at: usize, n: usize)
    requires place { at + O.OffsetSize.WIDTH ≤ length out.old }
    requires small { n < 2 ^ 31 }
    ensures { out.new ≡ splice out.old at (le O.OffsetSize.WIDTH n) }
{
    O::from_usize(n).unwrap().put(out, at);
}
