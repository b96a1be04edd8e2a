// Layers over a leaf: each has the layout and the word of the leaf below.
ghost use Rattle.std.specs.Prelude.{◌≡◌, ◌&&◌, ℕ, List, [], ◌∷◌, length};
ghost use Rattle.tape.specs.Values.{elem_of};
ghost use Rattle.leaf.specs.Meaning.{Meaning, value, lenient, coerce, checked, fitting, when, keeps_text};
ghost use Rattle.leaf.specs.Replies.{reply_of};
ghost use Rattle.leaf.specs.declared.layout.Layout.{Layout};
ghost use Rattle.leaf.specs.declared.layout.Reply.{Reply};

use crate::layout::{Layout, Reply};
use crate::{Leaf, decimal};
use tape::element::Element;

// Where it is on, turns a conflict into null.
#[derive(Clone, Copy, PartialEq, Eq, Debug)]
pub struct Lenient<L> {
    pub below: L,
    pub on: bool,
}

impl<L: Leaf> Leaf for Lenient<L> {
    ghost meaning = { λ s. when s.on lenient (L.Leaf.meaning s.below) };

    ghost called = { λ s. L.Leaf.called s.below };

    fn layout(&self) -> Layout {
        self.below.layout()
    }

    fn answer(&self, e: Element) -> Reply {
        match self.below.answer(e) {
            Reply::Conflict if self.on => Reply::Null,
            r => r,
        }
    }

    fn write(&self, e: Element, out: &mut [u8]) {
        self.below.write(e, out)
    }

    fn word(&self) -> &str {
        self.below.word()
    }
}

// Turns a value that does not fit the layout below into a misfit.
#[derive(Clone, Copy, PartialEq, Eq, Debug)]
pub struct Checked<L> {
    pub below: L,
}

impl<L: Leaf> Checked<L> {
    // Whether the value of `e`, which has `size` bytes, fits the layout below.
    fn fits(&self, e: Element, size: usize) -> bool
        requires { reply_of ((L.Leaf.meaning self.now.below).answer (elem_of e)) ≡ Reply.Value size }
        ensures { (bs : List ℕ) → (L.Leaf.meaning self.now.below).answer (elem_of e.entry) ≡ value bs → result ≡ fitting (L.Leaf.meaning self.now.below).layout bs }
    {
        match self.below.layout() {
            Layout::None => false,
            Layout::Bit => size == 1 && self.bit(e) < 2,
            Layout::Text => true,
            Layout::Eight => size == 8,
        }
    }

    // The one byte of the value of `e`.
    fn bit(&self, e: Element) -> u8
        requires { reply_of ((L.Leaf.meaning self.now.below).answer (elem_of e)) ≡ Reply.Value 1 }
        ensures { (L.Leaf.meaning self.now.below).answer (elem_of e.entry) ≡ value (result ∷ []) }
    {
        let mut b = [0];
        self.below.write(e, &mut b);
        b[0]
    }
}

impl<L: Leaf> Leaf for Checked<L> {
    ghost meaning = { λ s. checked (L.Leaf.meaning s.below) };

    ghost called = { λ s. L.Leaf.called s.below };

    fn layout(&self) -> Layout {
        self.below.layout()
    }

    fn answer(&self, e: Element) -> Reply {
        match self.below.answer(e) {
            Reply::Value(n) if !self.fits(e, n) => Reply::Misfit,
            r => r,
        }
    }

    fn write(&self, e: Element, out: &mut [u8]) {
        self.below.write(e, out)
    }

    fn word(&self) -> &str {
        self.below.word()
    }
}

// Where it is on, gives numbers and truth values as text if the layout below is text.
#[derive(Clone, Copy, PartialEq, Eq, Debug)]
pub struct Coerce<L> {
    pub below: L,
    pub on: bool,
}

impl<L: Leaf> Coerce<L> {
    // Whether it does anything at all.
    fn acts(&self) -> bool
        ensures { result ≡ (self.now.on && keeps_text (L.Leaf.meaning self.now.below).layout) }
    {
        self.on && matches!(self.below.layout(), Layout::Text)
    }
}

impl<L: Leaf> Leaf for Coerce<L> {
    ghost meaning = { λ s. when s.on coerce (L.Leaf.meaning s.below) };

    ghost called = { λ s. L.Leaf.called s.below };

    fn layout(&self) -> Layout {
        self.below.layout()
    }

    fn answer(&self, e: Element) -> Reply {
        if !self.acts() {
            return self.below.answer(e);
        }
        match e {
            Element::Number(s) => Reply::Value(s.len()),
            Element::I64(n) => Reply::Value(decimal::size(n)),
            Element::I32(n) => Reply::Value(decimal::size(i64::from(n))),
            Element::True => Reply::Value(4),
            Element::False => Reply::Value(5),
            _ => self.below.answer(e),
        }
    }

    fn write(&self, e: Element, out: &mut [u8]) {
        if !self.acts() {
            return self.below.write(e, out);
        }
        match e {
            Element::Number(s) => out.copy_from_slice(s),
            Element::I64(n) => decimal::put(n, out),
            Element::I32(n) => decimal::put(i64::from(n), out),
            Element::True => out.copy_from_slice(b"true"),
            Element::False => out.copy_from_slice(b"false"),
            _ => self.below.write(e, out),
        }
    }

    fn word(&self) -> &str {
        self.below.word()
    }
}

// A leaf that is lent.
impl<L: Leaf> Leaf for &L {
    ghost meaning = { λ s. L.Leaf.meaning s.now };

    ghost called = { λ s. L.Leaf.called s.now };

    fn layout(&self) -> Layout {
        (**self).layout()
    }

    fn answer(&self, e: Element) -> Reply {
        (**self).answer(e)
    }

    fn write(&self, e: Element, out: &mut [u8]) {
        (**self).write(e, out)
    }

    fn word(&self) -> &str {
        (**self).word()
    }
}
