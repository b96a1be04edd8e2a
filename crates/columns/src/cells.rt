// The buffers of a leaf, each from its rows, in a slice of zeros of exactly its size.
ghost use Rattle.std.specs.Prelude.{◌≡◌, ℕ, ◌+◌, ◌*◌, ◌/◌, ◌^◌, ◌<◌, ◌≤◌, Bool, true, false, List, [], ◌++◌, map, length, replicate};
ghost use Rattle.octets.specs.Lists.{splice, joined, or_else, running, sum};
ghost use Rattle.octets.specs.Numbers.{packed, pad, padded, numbers};
ghost use Rattle.tape.specs.Opened.{view_of};
ghost use Rattle.tape.specs.View.{Elem, element_at};
ghost use Rattle.tape.specs.declared.element.Element.{Element};
ghost use Rattle.tape.specs.Values.{elem_of};
ghost use Rattle.leaf.specs.Meaning.{value, shown};
ghost use Rattle.batch.specs.Batch.{sizes};
ghost use Rattle.columns.specs.Leaves.{cells, bit_of};

use crate::offset::{OffsetSize, put_count};
use leaf::Leaf;
use leaf::layout::Reply;
use octets::set_bit;
use tape::element::Element;
use tape::rows::Rows;

// Whether the leaf has a value for an element.
pub fn has_value<L: Leaf>(leaf: &L, e: Element) -> bool
    ensures { result ≡ bit_of true (shown ((L.Leaf.meaning leaf.now).answer (elem_of e.entry))) }
{
    matches!(leaf.answer(e), Reply::Value(_))
}

// Whether the value of an element, where values have one byte, is 1.
pub fn is_one<L: Leaf>(leaf: &L, e: Element) -> bool
    ensures { ((bs : List ℕ) → (L.Leaf.meaning leaf.now).answer (elem_of e.entry) ≡ value bs → length bs ≡ 1) → result ≡ bit_of false (shown ((L.Leaf.meaning leaf.now).answer (elem_of e.entry))) }
{
    match leaf.answer(e) {
        Reply::Value(1) => {
            let mut byte = [0u8; 1];
            leaf.write(e, &mut byte);
            byte[0] == 1
        }
        _ => false,
    }
}

// A bit for each row, as it is told of the row's element.
pub fn put_bits<F: Fn(Element<'_>) -> bool>(rows: Rows<'_>, bit: F, out: &mut [u8])
    requires calls { F.IsAlwaysCallable bit }
    requires blank { out.old ≡ replicate (padded ((length rows.positions.now + 7) / 8)) 0 }
    ensures { (b : Elem → Bool) → ((e : Element) (r : Bool) → F.post bit e r → r ≡ b (elem_of e)) → out.new ≡ pad (packed (map (λ p. b (element_at (view_of rows.entry.tape) p)) rows.entry.positions.now)) }
{
    for (i, p) in rows.positions.iter().enumerate() {
        if bit(rows.tape.element(*p)) {
            set_bit(out, i);
        }
    }
}

// Writes an element's value, if it has one, from `at` on, and says how many bytes it has.
fn put_value<L: Leaf>(leaf: &L, e: Element, out: &mut [u8], at: usize) -> usize
    requires { at + length (or_else [] (shown ((L.Leaf.meaning leaf.now).answer (elem_of e)))) ≤ length out.old }
    ensures size { result ≡ length (or_else [] (shown ((L.Leaf.meaning leaf.now).answer (elem_of e.entry)))) }
    ensures after { out.new ≡ splice out.old at (or_else [] (shown ((L.Leaf.meaning leaf.now).answer (elem_of e.entry)))) }
{
    match leaf.answer(e) {
        Reply::Value(n) => {
            leaf.write(e, &mut out[at..at + n]);
            n
        }
        _ => 0,
    }
}

// The offsets of the rows and of their end, and from `place` on their bytes end to end.
pub fn put_texts<L: Leaf, O: OffsetSize>(leaf: &L, rows: Rows<'_>, place: usize, out: &mut [u8])
    requires few { length out.old < 2 ^ 31 }
    requires offsets { place ≡ padded (O.OffsetSize.WIDTH * (length rows.positions.now + 1)) }
    requires blank { out.old ≡ replicate (place + padded (sum (sizes (cells (L.Leaf.meaning leaf.now) (view_of rows.tape) rows.positions.now)))) 0 }
    ensures { let os = cells (L.Leaf.meaning leaf.now) (view_of rows.entry.tape) rows.entry.positions.now in out.new ≡ pad (numbers O.OffsetSize.WIDTH (running 0 (sizes os))) ++ pad (joined (map (or_else []) os)) }
{
    let mut end = 0;
    for (i, p) in rows.positions.iter().enumerate() {
        put_count::<O>(out, O::WIDTH * i, end);
        end += put_value(leaf, rows.tape.element(*p), out, place + end);
    }
    put_count::<O>(out, O::WIDTH * rows.positions.len(), end);
}

// The eight bytes of each row; those of a null stay zero.
pub fn put_eights<L: Leaf>(leaf: &L, rows: Rows<'_>, out: &mut [u8])
    requires bytes { (e : Elem) (bs : List ℕ) → (L.Leaf.meaning leaf.now).answer e ≡ value bs → length bs ≡ 8 }
    requires blank { out.old ≡ replicate (8 * length rows.positions.now) 0 }
    ensures { out.new ≡ pad (joined (map (or_else (replicate 8 0)) (cells (L.Leaf.meaning leaf.now) (view_of rows.entry.tape) rows.entry.positions.now))) }
{
    for (i, p) in rows.positions.iter().enumerate() {
        put_value(leaf, rows.tape.element(*p), out, 8 * i);
    }
}
