// Entering a node: its rows are read, its column is written, and its children's positions are laid out.
#![tactic(auto)]

ghost use Rattle.std.specs.Prelude.{◌≡◌, ◌*◌, ◌^◌, ◌<◌, ◌≤◌, length};
ghost use Rattle.tape.specs.Opened.{view_of};
ghost use Rattle.schema.specs.declared.Schema.{Schema};
ghost use Rattle.schema.specs.Tree.{Node, Field, Fields, branch, children_of, many, names as names_in};
ghost use Rattle.schema.specs.Layout.{the, letter_at, end_at};
ghost use Rattle.schema.specs.Opened.{NodeOf, records_of, size_of};
ghost use Rattle.schema.specs.declared.kind.Branch.TheVariants.{Struct as struct, List as list};
ghost use Rattle.leaf.specs.Meaning.{pile};
ghost use Rattle.batch.specs.Format.{text_width};
ghost use Rattle.columns.specs.Areas.{Place};
ghost use Rattle.columns.specs.Entering.{LeafEntered};
ghost use Rattle.rows.specs.Entering.{BranchEntered};
ghost use Rattle.nodes.specs.Contract.{seen, Ready, Enters};

use columns::put_leaf;
use leaf::Leaf;
use leaf::piles::{boolean_pile, custom_pile, null_pile, text_pile};
use naming::{Named, Naming};
use nodes::{Frame, Visit};
use rows::{Entered, FixedRows, ListRows, MapRows, Reading, StructRows as NamedRows};
use schema::kind::{Branch, Kind, LeafKind};
use slip::Fault;

pub mod naming;

// How the rows of a schema's structs are read. What finds the names of fields reads them by `rows::enter`; another way
// comes in by an implementation of its own.
pub trait StructRows {
    ghost schema: { Self → Schema };

    // Reads the rows of a struct, and writes its column and its children's positions.
    fn enter_struct(
        &self,
        fields: usize,
        reading: Reading<'_>,
        work: &mut [u32],
        area: &mut [u8],
        top: usize,
    ) -> Result<Entered, Fault>
        requires within { reading.node < size_of (schema self.now) }
        requires kind { letter_at (records_of (schema self.now)) reading.node ≡ the "S" }
        requires formed { (t : Node) × NodeOf (schema self.now) reading.node t }
        requires fields { (t : Node) → NodeOf (schema self.now) reading.node t → fields ≡ length (names_in (children_of t)) }
        requires limit { fields ≤ 64 }
        requires few { length reading.rows.positions.now ≤ 2 ^ 24 }
        requires lent { length work.old ≤ 2 ^ 24 }
        requires apart { 32 * end_at (records_of (schema self.now)) reading.node ≤ top }
        requires place { Place area.old reading.node top }
        ensures { (f : Field) (cs : Fields) → NodeOf (schema self.now) reading.entry.node (branch f struct cs) → BranchEntered reading.entry.settings (view_of reading.entry.rows.tape) f struct cs reading.entry.in_force reading.entry.rows.positions.now top area.old area.new work.old work.new result };
}

impl<N: Naming> StructRows for N {
    ghost schema = { N.Naming.schema };

    fn enter_struct(
        &self,
        fields: usize,
        reading: Reading<'_>,
        work: &mut [u32],
        area: &mut [u8],
        top: usize,
    ) -> Result<Entered, Fault> {
        let index = self.index(reading.node);
        let named = NamedRows {
            index: &index,
            fields,
        };
        rows::enter::<_, i32>(&named, reading, work, area, top)
    }
}

// Reads a leaf's rows and writes its column, and answers the place behind it.
fn enter_leaf<X: Leaf>(
    frame: Frame<'_, X>,
    visit: Visit<'_>,
    kind: LeafKind,
    area: &mut [u8],
    top: usize,
) -> Result<usize, Fault>
    requires few { length visit.rows.positions.now ≤ 2 ^ 24 }
    requires place { Place area.old visit.node top }
    ensures { LeafEntered (pile frame.entry.settings (X.Leaf.meaning frame.entry.custom.now) kind) (text_width kind) (view_of visit.entry.rows.tape) visit.entry.node top visit.entry.rows.positions.now area.old area.new result }
{
    let Visit { node, rows, .. } = visit;
    let settings = frame.settings;
    match kind {
        LeafKind::Text { wide: true } => {
            put_leaf::<_, i64>(&text_pile(settings), rows, node, area, top)
        }
        LeafKind::Text { wide: false } => {
            put_leaf::<_, i32>(&text_pile(settings), rows, node, area, top)
        }
        LeafKind::Boolean => put_leaf::<_, i32>(&boolean_pile(settings), rows, node, area, top),
        LeafKind::Null => put_leaf::<_, i32>(&null_pile(settings), rows, node, area, top),
        LeafKind::Custom => {
            let pile = custom_pile(settings, frame.custom);
            put_leaf::<_, i32>(&pile, rows, node, area, top)
        }
    }
}

// Reads the rows of a list, and writes its column and its child's positions.
fn enter_list(
    kind: ListRows,
    reading: Reading<'_>,
    work: &mut [u32],
    area: &mut [u8],
    top: usize,
) -> Result<Entered, Fault>
    requires few { length reading.rows.positions.now ≤ 2 ^ 24 }
    requires lent { length work.old ≤ 2 ^ 24 }
    requires place { Place area.old reading.node top }
    ensures { (f : Field) (cs : Fields) → f.number ≡ reading.entry.node → many cs ≡ 1 → BranchEntered reading.entry.settings (view_of reading.entry.rows.tape) f (list kind.view kind.wide) cs reading.entry.in_force reading.entry.rows.positions.now top area.old area.new work.old work.new result }
{
    if kind.wide {
        rows::enter::<_, i64>(&kind, reading, work, area, top)
    } else {
        rows::enter::<_, i32>(&kind, reading, work, area, top)
    }
}

// Reads a node's rows, and writes its column and its children's positions.
pub fn enter<X: Leaf, S: StructRows>(
    named: Named<'_, X, S>,
    visit: Visit<'_>,
    work: &mut [u32],
    area: &mut [u8],
    top: usize,
) -> Result<Entered, Fault>
    requires ready { Ready (seen X.Leaf.meaning named.frame visit) work.old area.old top }
    ensures { Enters (seen X.Leaf.meaning named.entry.frame visit.entry) top area.old area.new work.old work.new result }
{
    let frame = named.frame;
    let node = visit.node;
    let reading = Reading {
        rows: visit.rows,
        settings: frame.settings,
        node,
        in_force: visit.in_force,
    };
    let count = frame.schema.count(node);
    match frame.schema.kind(node) {
        Kind::Branch(Branch::Struct) => {
            named.names.enter_struct(count, reading, work, area, top)
        }
        Kind::Branch(Branch::List { view, wide }) => {
            enter_list(ListRows { view, wide }, reading, work, area, top)
        }
        Kind::Branch(Branch::Fixed { .. }) => {
            rows::enter::<_, i32>(&FixedRows { count }, reading, work, area, top)
        }
        Kind::Branch(Branch::Map) => rows::enter::<_, i32>(&MapRows, reading, work, area, top),
        Kind::Leaf(kind) => Ok(Entered {
            kids: 0,
            stride: 0,
            next: enter_leaf(frame, visit, kind, area, top)?,
        }),
    }
}
