// Leaves: what a column without children makes of an element.
#![tactic(auto)]

ghost use Rattle.std.specs.Prelude.{◌≡◌, ℕ, List, length};
ghost use Rattle.tape.specs.Values.{elem_of};
ghost use Rattle.leaf.specs.Meaning.{Meaning, value};
ghost use Rattle.leaf.specs.Replies.{reply_of};
ghost use Rattle.leaf.specs.declared.layout.Layout.{Layout};
ghost use Rattle.leaf.specs.declared.layout.Reply.{Reply};

pub mod decimal;
pub mod laws;
pub mod layers;
pub mod layout;
pub mod leaves;
pub mod piles;

use layout::{Layout, Reply};
use tape::element::Element;

// A leaf, by its meaning: a layout, and a function from an element's value to an answer. A query changes nothing.
pub trait Leaf {
    ghost meaning: { Self → Meaning };

    // The bytes of its word.
    ghost called: { Self → List ℕ };

    // How its values lie in a column.
    fn layout(&self) -> Layout
        ensures { result ≡ (meaning self.now).layout };

    // What it makes of an element, with the size of a value.
    fn answer(&self, e: Element) -> Reply
        ensures { result ≡ reply_of ((meaning self.now).answer (elem_of e.entry)) };

    // Writes the bytes of a value into a slice of its size.
    fn write(&self, e: Element, out: &mut [u8])
        requires { reply_of ((meaning self.now).answer (elem_of e)) ≡ Reply.Value (length out.old) }
        ensures { (meaning self.now).answer (elem_of e.entry) ≡ value out.new };

    // The word for what it wants, as the text of an error has it.
    fn word(&self) -> &str
        ensures { result.now ≡ called self.now };
}
