// Numbers that lie in bytes, least byte first.
ghost use Rattle.std.specs.Prelude.{◌≡◌, ℕ, ◌+◌, ◌≤◌, length};
ghost use Rattle.std.proofs.Common.{rules};
ghost use Rattle.octets.specs.Lists.{splice};
ghost use Rattle.octets.specs.Numbers.{le, le_at};

use crate::copy_at;

// An unsigned number of a fixed width.
// Each type has its own three lines: std's `from_le_bytes` belongs to each type by itself, and is in no trait.
pub trait Word: Copy {
    // How many bytes it has.
    const WIDTH: usize;

    ghost WIDTH: { ℕ };

    // What it says.
    ghost value: { Self → ℕ };

    // The number in the bytes from `at` on.
    fn read_at(bytes: &[u8], at: usize) -> Self
        requires { at + WIDTH ≤ length bytes.now }
        ensures { value result ≡ le_at WIDTH bytes.now at };

    // Writes it into the bytes from `at` on.
    fn write_at(self, bytes: &mut [u8], at: usize)
        requires { at + WIDTH ≤ length bytes.old }
        ensures { bytes.new ≡ splice bytes.old at (le WIDTH (value self)) };

    ghost short: { WIDTH ≤ 8 };
}

impl Word for u16 {
    const WIDTH: usize = 2;

    ghost WIDTH = { 2 };

    ghost value = { λ n. n };

    ghost short = { Prim.search rules };

    fn read_at(bytes: &[u8], at: usize) -> u16 {
        u16::from_le_bytes([bytes[at], bytes[at + 1]])
    }

    fn write_at(self, bytes: &mut [u8], at: usize) {
        copy_at(bytes, at, &u16::to_le_bytes(self));
    }
}

impl Word for u32 {
    const WIDTH: usize = 4;

    ghost WIDTH = { 4 };

    ghost value = { λ n. n };

    ghost short = { Prim.search rules };

    fn read_at(bytes: &[u8], at: usize) -> u32 {
        u32::from_le_bytes([bytes[at], bytes[at + 1], bytes[at + 2], bytes[at + 3]])
    }

    fn write_at(self, bytes: &mut [u8], at: usize) {
        copy_at(bytes, at, &u32::to_le_bytes(self));
    }
}

impl Word for u64 {
    const WIDTH: usize = 8;

    ghost WIDTH = { 8 };

    ghost value = { λ n. n };

    ghost short = { Prim.search rules };

    fn read_at(bytes: &[u8], at: usize) -> u64 {
        u64::from(u32::read_at(bytes, at)) + (u64::from(u32::read_at(bytes, at + 4)) << 32)
    }

    fn write_at(self, bytes: &mut [u8], at: usize) {
        copy_at(bytes, at, &u64::to_le_bytes(self));
    }
}
