// A leaf of decimal numbers, rounded to thousandths.
#![tactic(auto)]

ghost use Rattle.std.specs.Prelude.{◌≡◌, codes};
ghost use Rattle.tape.specs.Values.{elem_of};
ghost use Rattle.leaf.specs.declared.layout.Layout.{Layout};
ghost use Rattle.leaf.specs.declared.layout.Reply.{Reply};
ghost use Rattle.thousandths.specs.Means.{found_in, thousandths_leaf};

pub mod amount;
pub mod decimal;
pub mod laws;
pub mod round;

use amount::{of_text, of_whole};
use leaf::Leaf;
use leaf::layout::{Layout, Reply};
use tape::element::Element;

// Takes numbers, and keeps their thousandths in eight bytes.
#[derive(Clone, Copy, PartialEq, Eq, Debug, Default)]
pub struct Thousandths;

// The thousandths that an element holds.
fn found(e: Element) -> Option<i64>
    ensures { result ≡ found_in (elem_of e.entry) }
{
    match e {
        Element::Number(text) => of_text(text),
        Element::I64(z) => of_whole(z),
        Element::I32(z) => of_whole(i64::from(z)),
        _ => None,
    }
}

impl Leaf for Thousandths {
    ghost meaning = { λ _. thousandths_leaf };

    ghost called = { λ _. codes "number" };

    fn layout(&self) -> Layout {
        Layout::Eight
    }

    fn answer(&self, e: Element) -> Reply {
        match e {
            Element::Null => Reply::Null,
            _ if found(e).is_some() => Reply::Value(8),
            _ => Reply::Conflict,
        }
    }

    fn write(&self, e: Element, out: &mut [u8]) {
        if let Some(z) = found(e) {
            out.copy_from_slice(&z.to_le_bytes());
        }
    }

    fn word(&self) -> &str {
        "number"
    }
}
