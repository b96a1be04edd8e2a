// Leaves, layers and piles, run on elements.
#![tactic(auto)]

ghost use Rattle.std.specs.Prelude.{◌≡◌, length, replicate, codes};
ghost use Rattle.tape.specs.Values.{elem_of};
ghost use Rattle.leaf.specs.Meaning.{nothing, value};
ghost use Rattle.leaf.specs.Replies.{reply_of};
ghost use Rattle.leaf.specs.declared.layout.Layout.{Layout};
ghost use Rattle.leaf.specs.declared.layout.Reply.{Reply};

#[cfg(test)]
mod numbers;
#[cfg(test)]
mod tests;

use leaf::Leaf;
use leaf::layout::{Layout, Reply};
use tape::element::Element;

// A custom leaf that makes null of everything.
#[derive(Clone, Copy, PartialEq, Eq, Debug, Default)]
pub struct AlwaysNull;

impl Leaf for AlwaysNull {
    ghost meaning = { λ _. record { layout = Layout.Eight; answer = λ _. nothing } };

    ghost called = { λ _. codes "nothing" };

    fn layout(&self) -> Layout {
        Layout::Eight
    }

    fn answer(&self, _e: Element) -> Reply {
        Reply::Null
    }

    // Nothing has a value here, so that it may be called of any element, and writes nothing.
    fn write(&self, _e: Element, out: &mut [u8])
        ensures { out.new ≡ out.old }
    {}

    fn word(&self) -> &str {
        "nothing"
    }
}

// A custom leaf that makes the same bytes of everything.
#[derive(Clone, Copy, PartialEq, Eq, Debug)]
pub struct AlwaysSame {
    pub layout: Layout,
    pub size: usize,
    pub byte: u8,
}

impl Leaf for AlwaysSame {
    ghost meaning = { λ s. record { layout = s.layout; answer = λ _. value (replicate s.size s.byte) } };

    ghost called = { λ _. codes "anything" };

    fn layout(&self) -> Layout {
        self.layout
    }

    fn answer(&self, _e: Element) -> Reply {
        Reply::Value(self.size)
    }

    fn write(&self, _e: Element, out: &mut [u8]) {
        out.fill(self.byte);
    }

    fn word(&self) -> &str {
        "anything"
    }
}

// Whether a leaf makes just these bytes of an element.
pub fn gives<L: Leaf>(leaf: &L, e: Element, bytes: &[u8]) -> bool {
    let mut out = [0u8; 32];
    match leaf.answer(e) {
        Reply::Value(n) if n <= 32 => {
            let part = &mut out[..n];
            leaf.write(e, part);
            &*part == bytes
        }
        _ => false,
    }
}
