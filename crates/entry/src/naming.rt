// How the fields of a schema's structs are found by name.
ghost use Rattle.std.specs.Prelude.{◌≡◌, ◌<◌};
ghost use Rattle.schema.specs.declared.Schema.{Schema};
ghost use Rattle.schema.specs.Tree.{Node, children_of, names as names_in};
ghost use Rattle.schema.specs.Layout.{the, letter_at};
ghost use Rattle.schema.specs.Opened.{NodeOf, records_of, names_of, size_of};

use crate::StructRows;
use names::{Index, NameIndex};
use nodes::Frame;
use schema::Schema;
use std::alloc::AllocError;

// A schema, and an index of names for each struct in it.
pub trait Naming {
    type Index: NameIndex + Drop;

    ghost schema: { Self → Schema };

    // The names of a struct's fields.
    fn index(&self, node: usize) -> Self::Index
        requires within { node < size_of (schema self.now) }
        requires kind { letter_at (records_of (schema self.now)) node ≡ the "S" }
        ensures { (t : Node) → NodeOf (schema self.now) node t → Self.Index.NameIndex.names result ≡ names_in (children_of t) };
}

// What makes one of a schema.
pub trait NamingOf<'a>: Naming + Drop {
    fn of(schema: Schema<'a>) -> Self
        ensures { Self.Naming.schema result ≡ schema.entry };
}

// What makes a reader of struct rows of a schema.
pub trait StructRowsOf<'a>: StructRows + Drop {
    fn reader_of(schema: Schema<'a>) -> Self
        ensures { Self.StructRows.schema result ≡ schema.entry };
}

impl<'a, N: NamingOf<'a>> StructRowsOf<'a> for N {
    fn reader_of(schema: Schema<'a>) -> N {
        N::of(schema)
    }
}

// Few fields are found by a scan, and more of them by a keyed table.
impl<'a> Naming for Schema<'a> {
    type Index = Index<'a>;

    ghost schema = { λ s. s };

    fn index(&self, node: usize) -> Index<'a> {
        Index::of(*self, node)
    }
}

impl<'a> NamingOf<'a> for Schema<'a> {
    fn of(schema: Schema<'a>) -> Schema<'a> {
        schema
    }
}

// A frame, with what reads the rows of its schema's structs.
pub struct Named<'a, X, S: StructRows> {
    pub frame: Frame<'a, X>,
    pub names: &'a S,
    pub ghost same: { (records_of (S.schema names.now) ≡ records_of frame.schema) × (names_of (S.schema names.now) ≡ names_of frame.schema) },
}

impl<X, S: StructRows> Clone for Named<'_, X, S> {
    fn clone(&self) -> Result<Self, AllocError> {
        Ok(*self)
    }
}

impl<X, S: StructRows> Copy for Named<'_, X, S> {}
