// The leaf that a shelf uses for a node of each kind: the layers that its settings put on.
ghost use Rattle.std.specs.Prelude.{◌≡◌, Bool};
ghost use Rattle.schema.specs.declared.kind.LeafKind.{LeafKind};
ghost use Rattle.leaf.specs.Meaning.{Meaning, lenient, coerce, checked, when, pile, text_leaf, boolean_leaf, null_leaf};

use crate::Leaf;
use crate::layers::{Checked, Coerce, Lenient};
use crate::leaves::{Boolean, Null, Text};
use schema::settings::Settings;

// A leaf under the setting that forgives conflicts.
fn forgiving<L>(settings: Settings, below: L) -> Lenient<L>
    ensures { result ≡ record { below = below; on = settings.lenient } }
{
    Lenient {
        below,
        on: settings.lenient,
    }
}

// The pile of a text node, narrow or wide.
pub fn text_pile(settings: Settings) -> Lenient<Coerce<Text>>
    ensures { (own : Meaning) (wide : Bool) → when result.on lenient (when result.below.on coerce text_leaf) ≡ pile settings own (LeafKind.Text wide) }
{
    let on = settings.coerce;
    forgiving(settings, Coerce { below: Text, on })
}

// The pile of a boolean node.
pub fn boolean_pile(settings: Settings) -> Lenient<Boolean>
    ensures { (own : Meaning) → when result.on lenient boolean_leaf ≡ pile settings own LeafKind.Boolean }
{
    forgiving(settings, Boolean)
}

// The pile of a null node.
pub fn null_pile(settings: Settings) -> Lenient<Null>
    ensures { (own : Meaning) → when result.on lenient null_leaf ≡ pile settings own LeafKind.Null }
{
    forgiving(settings, Null)
}

// The pile of a custom node.
pub fn custom_pile<X: Leaf>(settings: Settings, custom: &X) -> Lenient<Checked<&X>>
    ensures { when result.on lenient (checked (X.Leaf.meaning result.below.below.now)) ≡ pile settings (X.Leaf.meaning custom.now) LeafKind.Custom }
{
    forgiving(settings, Checked { below: custom })
}
