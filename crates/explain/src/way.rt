// The prefixes of a text: the way from the root to a node.
ghost use Rattle.schema.specs.Opened.{TreeOf, NodeOf, size_of};
ghost use Rattle.schema.specs.Tree.{Node, kind_of};
ghost use Rattle.std.specs.Prelude.{◌≡◌, ◌<◌};
ghost use Rattle.explain.specs.Puts.{Puts};
ghost use Rattle.explain.specs.Toward.{Toward};
ghost use Rattle.explain.specs.Way.{is_struct, step_into, way_to};

use crate::writer::Writer;
use schema::Schema;
use schema::kind::{Branch, Kind};

// Whether a node of this kind is a struct.
pub(crate) fn is_struct(kind: Kind) -> bool
    ensures { result ≡ is_struct kind }
{
    matches!(kind, Kind::Branch(Branch::Struct))
}

// The child of node `parent` that is node `node` or stands above it.
fn toward(schema: Schema, parent: usize, node: usize) -> Option<usize>
    requires { parent < size_of schema }
    ensures { (t : Node) → NodeOf schema.entry parent t → Toward schema.entry parent t node result }
{
    for child in schema.children(parent) {
        if (child..schema.end(child)).contains(&node) {
            return Some(child);
        }
    }
    None
}

// Puts the step from node `parent` into its child, which has a text if the parent is a struct.
fn put_step(w: &mut Writer, schema: Schema, parent: usize, child: usize)
    requires parents { parent < size_of schema }
    requires children { child < size_of schema }
    ensures { (t c : Node) → NodeOf schema.entry parent t → NodeOf schema.entry child c → Puts (step_into (is_struct (kind_of t)) c) w.old w.new }
{
    if is_struct(schema.kind(parent)) {
        w.put(b"whilst decoding field '");
        w.put(schema.name(child));
        w.put(b"': ");
    }
}

// Puts the steps from the root to node `node`.
pub(crate) fn put_way(w: &mut Writer, schema: Schema, node: usize)
    ensures { (root : Node) → TreeOf schema.entry root → Puts (way_to node root) w.old w.new }
{
    let mut parent = 0;
    while let Some(child) = toward(schema, parent, node) {
        put_step(w, schema, parent, child);
        parent = child;
    }
}
