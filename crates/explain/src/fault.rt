// What faults are told of, and the sentence that a fault has there.
ghost use Rattle.std.specs.Prelude.{◌≡◌, ◌<◌};
ghost use Rattle.schema.specs.Opened.{TreeOf, NodeOf, size_of};
ghost use Rattle.schema.specs.Tree.{Node};
ghost use Rattle.tape.specs.Opened.{view_of};
ghost use Rattle.explain.specs.Explanation.{word_of, there, of_kind, is_fixed};
ghost use Rattle.explain.specs.Said.{Tells};
ghost use Rattle.explain.specs.Way.{is_struct};

use crate::element::Shown;
use crate::sentence::Sentence;
use crate::way::is_struct;
use schema::Schema;
use schema::kind::{Branch, Kind, LeafKind};
use schema::settings::Settings;
use slip::Fault;
use tape::Tape;

// A schema and a tape, with the settings and the word of the custom leaf.
#[derive(Clone, Copy)]
pub(crate) struct Scene<'a> {
    pub schema: Schema<'a>,
    pub settings: Settings,
    pub own: &'a str,
    pub tape: Tape<'a>,
}

// Whether a node of this kind is a fixed-size list.
fn is_fixed(kind: Kind) -> bool
    ensures { result ≡ is_fixed kind }
{
    matches!(kind, Kind::Branch(Branch::Fixed { .. }))
}

impl<'a> Scene<'a> {
    // Whether there is such a node, and such a position.
    fn has(self, node: usize, p: u32) -> bool
        ensures { (root : Node) → TreeOf self.entry.schema root → result ≡ there root (view_of self.entry.tape) node p }
    {
        node < self.schema.len() && self.tape.is_position(p)
    }

    // Whether, besides, the node is a struct.
    fn has_struct(self, node: usize, p: u32) -> bool
        ensures { (root : Node) → TreeOf self.entry.schema root → result ≡ of_kind root (view_of self.entry.tape) is_struct node p }
    {
        self.has(node, p) && is_struct(self.schema.kind(node))
    }

    // Whether, besides, the node is a fixed-size list.
    fn has_fixed(self, node: usize, p: u32) -> bool
        ensures { (root : Node) → TreeOf self.entry.schema root → result ≡ of_kind root (view_of self.entry.tape) is_fixed node p }
    {
        self.has(node, p) && is_fixed(self.schema.kind(node))
    }

    // The word for what a node wants.
    fn word(self, node: usize) -> &'a str
        requires { node < size_of self.schema }
        ensures { (t : Node) → NodeOf self.entry.schema node t → result.now ≡ word_of self.entry.settings self.entry.own.now t }
    {
        match self.schema.kind(node) {
            Kind::Branch(Branch::Struct) if self.settings.list_rows => "[",
            Kind::Branch(Branch::Struct | Branch::Map) => "{",
            Kind::Branch(Branch::List { .. } | Branch::Fixed { .. }) => "[",
            Kind::Leaf(LeafKind::Text { .. }) => "string",
            Kind::Leaf(LeafKind::Boolean) => "boolean",
            Kind::Leaf(LeafKind::Null) => "null",
            Kind::Leaf(LeafKind::Custom) => self.own,
        }
    }

    // The sentence of a fault that has one, at a node and an element that can have it.
    pub(crate) fn sentence(self, fault: Fault) -> Option<Sentence<'a>>
        ensures { (root : Node) → TreeOf self.entry.schema root → Tells root (view_of self.entry.tape) self.entry.settings self.entry.own.now fault result }
    {
        let Scene { schema, tape, .. } = self;
        match fault {
            Fault::WrongKind { node, position } if self.has(node, position) => {
                Some(Sentence::WrongKind {
                    word: self.word(node),
                    element: Shown {
                        tape,
                        p: position,
                        depth: 64,
                    },
                })
            }
            Fault::UnknownColumn { node, name }
                if self.has_struct(node, name) && tape.is_at(name, 's') => Some(
                Sentence::UnknownColumn {
                    name: tape.words(name),
                },
            ),
            Fault::ExtraColumn { node, entry } if self.has_struct(node, entry) => {
                Some(Sentence::ExtraColumn {
                    fields: schema.count(node),
                })
            }
            Fault::FewColumns { node, row } if self.has_struct(node, row) && tape.is_at(row, '[') =>
                Some(Sentence::FewColumns {
                    columns: tape.entry_count(row),
                    fields: schema.count(node),
                }),
            Fault::WrongCount { node, row } if self.has_fixed(node, row) && tape.is_at(row, '[') =>
                Some(Sentence::WrongCount {
                    wanted: schema.count(node),
                    found: tape.entry_count(row),
                }),
            _ => None,
        }
    }
}
