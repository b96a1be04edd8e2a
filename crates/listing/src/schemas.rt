// The tree of a schema, a line for each node.
ghost use Rattle.std.specs.Prelude.{◌<◌};
ghost use Rattle.schema.specs.Opened.{size_of};

use crate::words::{Cut, Shown, Word};
use schema::Schema;
use schema::kind::{Branch, Kind, LeafKind};
use std::fmt;

impl fmt::Display for Word<Kind> {
    fn fmt<W: fmt::Write>(&self, f: &mut fmt::Formatter<W>) -> fmt::Result {
        f.pad(match self.0 {
            Kind::Branch(Branch::Struct) => "struct",
            Kind::Branch(Branch::List { view: false, .. }) => "list",
            Kind::Branch(Branch::List { view: true, .. }) => "list-view",
            Kind::Branch(Branch::Fixed { .. }) => "fixed-size list",
            Kind::Branch(Branch::Map) => "map",
            Kind::Leaf(LeafKind::Text { .. }) => "text",
            Kind::Leaf(LeafKind::Boolean) => "boolean",
            Kind::Leaf(LeafKind::Null) => "null",
            Kind::Leaf(LeafKind::Custom) => "custom",
        })
    }
}

// Node `i` of a schema.
#[derive(Clone, Copy)]
struct Line<'a> {
    schema: Schema<'a>,
    i: usize,
    ghost within: { i < size_of schema },
}

impl Line<'_> {
    // How many nodes stand above it: those before it that end behind it.
    fn level(self) -> usize {
        (0..self.i).filter(|j| self.schema.end(*j) > self.i).count()
    }
}

// Below the ninth level a name is not moved further to the right.
impl fmt::Display for Line<'_> {
    fn fmt<W: fmt::Write>(&self, f: &mut fmt::Formatter<W>) -> fmt::Result {
        let Line { schema, i } = *self;
        let end = schema.end(i);
        let letter = schema.letter(i);
        let kind = Word(schema.kind(i));
        let null = Word(schema.nullable(i));
        let wide = Word(schema.wide(i));
        let count = schema.count(i);
        let columns = 2 * self.level().min(8);
        let text = std::str::from_utf8(schema.name(i)).unwrap_or("");
        let room = 24 - columns;
        let name = Shown { text, room };
        write!(
            f,
            "{i:>6}  {end:>4}  {letter} {kind:<15}  {null:<4}  {wide:<4}  {count:>5}  "
        )?;
        write!(f, "{:columns$}\"{name}\"", "")
    }
}

// The nodes of a schema in the order of their numbers.
#[derive(Clone, Copy)]
pub struct Nodes<'a>(pub Schema<'a>);

impl fmt::Display for Nodes<'_> {
    fn fmt<W: fmt::Write>(&self, f: &mut fmt::Formatter<W>) -> fmt::Result {
        let Nodes(schema) = *self;
        let cut = Cut {
            count: schema.len(),
            things: "nodes",
        };
        writeln!(
            f,
            "  node   end  kind               null  wide  count  name"
        )?;
        for i in 0..cut.listed() {
            let line = Line { schema, i };
            writeln!(f, "{line}")?;
        }
        write!(f, "{cut}")
    }
}
