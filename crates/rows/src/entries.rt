// The entries of a list, and zeros, written into the work list at even distances.
ghost use Rattle.std.specs.Prelude.{◌≡◌, ℕ, ◌+◌, ◌*◌, ◌<◌, true, length, replicate};
ghost use Rattle.tape.specs.Layout.{the};
ghost use Rattle.tape.specs.Opened.{view_of};
ghost use Rattle.tape.specs.View.{is_at, is_position, entries};
ghost use Rattle.rows.specs.Filling.{Spread};

use tape::Tape;

// Writes the entries of the list at `p` into every `step`th place from `from` on, and counts them.
pub(crate) fn put_entries(
    tape: Tape<'_>,
    p: u32,
    work: &mut [u32],
    from: usize,
    step: usize,
) -> usize
    requires position { is_position (view_of tape) p ≡ true }
    requires list { is_at (view_of tape) (the "[") p ≡ true }
    requires room { (j : ℕ) → j < length (entries (view_of tape) p) → from + j * step < length work.old }
    requires apart { 0 < step }
    ensures count { result ≡ length (entries (view_of tape.entry) p) }
    ensures spread { Spread from step (entries (view_of tape.entry) p) work.old work.new }
{
    let mut n = 0;
    for at in tape.entries(p) {
        work[from + n * step] = at;
        n += 1;
    }
    n
}

// Writes so many zeros.
pub(crate) fn put_zeros(work: &mut [u32], from: usize, step: usize, count: usize)
    requires room { (j : ℕ) → j < count → from + j * step < length work.old }
    requires apart { 0 < step }
    ensures { Spread from step (replicate count 0) work.old work.new }
{
    for j in 0..count {
        work[from + j * step] = 0;
    }
}
