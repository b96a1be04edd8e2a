// Laws of the layers and the piles: each contract is a theorem.
ghost use Rattle.std.specs.Prelude.{◌≡◌, length};
ghost use Rattle.tape.specs.Values.{elem_of};
ghost use Rattle.leaf.specs.Bytes.{AreBytes, Valued};
ghost use Rattle.leaf.specs.Replies.{reply_of};
ghost use Rattle.leaf.specs.declared.layout.Reply.{Reply};
ghost use Rattle.leaf.specs.Laws.{LayersAct, PilesFit, PilesGiveBytes, Decimals};

use crate::Leaf;
use tape::element::Element;

// What each layer does to the answers of any leaf below.
pub fn layers_act()
    ensures { LayersAct }
{}

// Whatever the custom leaf, the values of every pile fit their layout, and bytes stay bytes.
pub fn piles_fit()
    ensures fit { PilesFit }
    ensures bytes { PilesGiveBytes }
{}

// Worked examples of whole numbers as text.
pub fn decimals_stand()
    ensures { Decimals }
{}

// Writes the value of any leaf. What is written is bytes, so the leaf's answer is made of bytes too.
pub fn write_bytes<L: Leaf>(leaf: &L, e: Element, out: &mut [u8])
    requires { reply_of ((L.meaning leaf.now).answer (elem_of e)) ≡ Reply.Value (length out.old) }
    ensures { Valued AreBytes ((L.meaning leaf.now).answer (elem_of e.entry)) }
{
    leaf.write(e, out)
}
