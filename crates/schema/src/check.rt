// Whether records hold a tree.
ghost use Rattle.std.specs.Prelude.{◌<◌, Decides};
ghost use Rattle.schema.specs.Layout.{record_count};
ghost use Rattle.schema.specs.Held.{Named};
ghost use Rattle.schema.specs.Checks.{Finds, Kinded, KindAt, Fit, TreeTo, Rooted};
ghost use Rattle.schema.specs.Tree.{Node};
ghost use Rattle.schema.specs.Opens.{Opens};

use super::kind::{Branch, Kind, LeafKind};
use super::records::Records;

// The kind of a node, by its letter, flags and count.
fn kind(letter: char, flag: u8, wide: u8, count: usize) -> Option<Kind>
    ensures { Finds (Kinded letter flag wide count) result }
{
    match letter {
        'S' if wide == 0 && count <= 64 => Some(Kind::Branch(Branch::Struct)),
        'F' if wide == 0 => Some(Kind::Branch(Branch::Fixed { count })),
        'L' if wide <= 1 && count == 0 => Some(Kind::Branch(Branch::List {
            view: false,
            wide: wide == 1,
        })),
        'V' if wide <= 1 && count == 0 => Some(Kind::Branch(Branch::List {
            view: true,
            wide: wide == 1,
        })),
        'M' if wide == 0 && count == 0 => Some(Kind::Branch(Branch::Map)),
        'T' if wide <= 1 && count == 0 => Some(Kind::Leaf(LeafKind::Text { wide: wide == 1 })),
        'B' if wide == 0 && count == 0 => Some(Kind::Leaf(LeafKind::Boolean)),
        'X' if wide == 0 && count == 0 => Some(Kind::Leaf(LeafKind::Custom)),
        'N' if flag == 1 && wide == 0 && count == 0 => Some(Kind::Leaf(LeafKind::Null)),
        _ => None,
    }
}

impl<'a> Records<'a> {
    // Whether the name of record `at` lies in the names and is UTF-8.
    fn is_named(self, at: usize) -> bool
        requires { at < record_count self.bytes.now }
        ensures { Decides result (Named self.entry.bytes.now self.entry.names.now at) }
    {
        self.size(at) <= 255
            && self.start(at) + self.size(at) <= self.names.len()
            && std::str::from_utf8(self.name(at)).is_ok()
    }

    // The kind of the node whose record is `at`.
    pub(crate) fn kind(self, at: usize) -> Option<Kind>
        requires { at < record_count self.bytes.now }
        ensures { Finds (KindAt self.entry.bytes.now at) result }
    {
        kind(
            self.letter(at),
            self.flag(at),
            self.wide(at),
            self.count(at),
        )
    }

    // How many children record `at` has, where it is a node's.
    fn children(self, at: usize) -> Option<usize>
        ensures { Finds (Fit self.entry.bytes.now self.entry.names.now at) result }
    {
        if at >= self.len() || self.flag(at) > 1 || self.spare(at) != 0 || !self.is_named(at) {
            return None;
        }
        let kind = self.kind(at)?;
        Some(kind.children(self.count(at)))
    }

    // The number after the last node of the tree at record `at`, in which `depth` levels may stand.
    fn tree(self, depth: usize, at: usize) -> Option<usize>
        ensures { Finds (TreeTo self.entry.bytes.now self.entry.names.now depth at) result }
    {
        if depth == 0 {
            return None;
        }
        let count = self.children(at)?;
        let mut next = at + 1;
        for _ in 0..count {
            next = self.tree(depth - 1, next)?;
        }
        (self.end(at) == next).then_some(next)
    }

    // Whether there are 1 to 1,024 whole records, and the first is that of a struct that is not nullable.
    fn is_rooted(self) -> bool
        ensures { Decides result (Rooted self.entry.bytes.now) }
    {
        self.bytes.len() % 16 == 0
            && (1..=1024).contains(&self.len())
            && self.letter(0) == 'S'
            && self.flag(0) == 0
    }

    // Whether the records hold a tree, and nothing else.
    pub(crate) fn is_tree(self) -> bool
        ensures { Decides result ((root : Node) × Opens self.entry.bytes.now self.entry.names.now root) }
    {
        self.is_rooted() && self.tree(16, 0) == Some(self.len())
    }
}
