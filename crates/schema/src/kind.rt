// The kinds of nodes.
ghost use Rattle.std.specs.Prelude.{◌≡◌};
ghost use Rattle.schema.specs.Held.{many_for};

// What has children.
#[derive(Clone, Copy, PartialEq, Eq, Debug)]
pub enum Branch {
    Struct,
    // A list or a list-view, whose offsets have eight bytes, and not four, where it is wide.
    List { view: bool, wide: bool },
    // A list of so many items in each row.
    Fixed { count: usize },
    Map,
}

// What has none.
#[derive(Clone, Copy, PartialEq, Eq, Debug)]
pub enum LeafKind {
    Text { wide: bool },
    Boolean,
    Null,
    Custom,
}

// What a node is.
#[derive(Clone, Copy, PartialEq, Eq, Debug)]
pub enum Kind {
    Branch(Branch),
    Leaf(LeafKind),
}

impl Kind {
    // How many children a node of this kind has, where its record counts `count`.
    pub(crate) fn children(self, count: usize) -> usize
        ensures { result ≡ many_for self count }
    {
        match self {
            Kind::Branch(Branch::Struct) => count,
            Kind::Branch(Branch::List { .. } | Branch::Fixed { .. }) => 1,
            Kind::Branch(Branch::Map) => 2,
            Kind::Leaf(_) => 0,
        }
    }
}
