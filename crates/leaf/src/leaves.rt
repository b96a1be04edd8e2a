// The leaves of text, of booleans and of nulls.
ghost use Rattle.std.specs.Prelude.{◌≡◌, length, codes};
ghost use Rattle.tape.specs.Values.{elem_of};
ghost use Rattle.leaf.specs.Meaning.{Meaning, value, text_leaf, boolean_leaf, null_leaf};
ghost use Rattle.leaf.specs.Replies.{reply_of};
ghost use Rattle.leaf.specs.declared.layout.Layout.{Layout};
ghost use Rattle.leaf.specs.declared.layout.Reply.{Reply};

use crate::Leaf;
use crate::layout::{Layout, Reply};
use tape::element::Element;

// Takes strings, and keeps their bytes.
#[derive(Clone, Copy, PartialEq, Eq, Debug, Default)]
pub struct Text;

impl Leaf for Text {
    ghost meaning = { λ _. text_leaf };

    ghost called = { λ _. codes "string" };

    fn layout(&self) -> Layout {
        Layout::Text
    }

    fn answer(&self, e: Element) -> Reply {
        match e {
            Element::String(s) => Reply::Value(s.len()),
            Element::Null => Reply::Null,
            _ => Reply::Conflict,
        }
    }

    fn write(&self, e: Element, out: &mut [u8]) {
        if let Element::String(s) = e {
            out.copy_from_slice(s);
        }
    }

    fn word(&self) -> &str {
        "string"
    }
}

// Takes true and false, and keeps a byte of 1 or 0.
#[derive(Clone, Copy, PartialEq, Eq, Debug, Default)]
pub struct Boolean;

impl Leaf for Boolean {
    ghost meaning = { λ _. boolean_leaf };

    ghost called = { λ _. codes "boolean" };

    fn layout(&self) -> Layout {
        Layout::Bit
    }

    fn answer(&self, e: Element) -> Reply {
        match e {
            Element::True | Element::False => Reply::Value(1),
            Element::Null => Reply::Null,
            _ => Reply::Conflict,
        }
    }

    fn write(&self, e: Element, out: &mut [u8]) {
        match e {
            Element::True => out.copy_from_slice(&[1]),
            Element::False => out.copy_from_slice(&[0]),
            _ => {}
        }
    }

    fn word(&self) -> &str {
        "boolean"
    }
}

// Takes nulls, and keeps no value.
#[derive(Clone, Copy, PartialEq, Eq, Debug, Default)]
pub struct Null;

impl Leaf for Null {
    ghost meaning = { λ _. null_leaf };

    ghost called = { λ _. codes "null" };

    fn layout(&self) -> Layout {
        Layout::None
    }

    fn answer(&self, e: Element) -> Reply {
        match e {
            Element::Null => Reply::Null,
            _ => Reply::Conflict,
        }
    }

    // No element has a value here, so that it may be called of any, and writes nothing.
    fn write(&self, _e: Element, out: &mut [u8])
        ensures { out.new ≡ out.old }
    {}

    fn word(&self) -> &str {
        "null"
    }
}
