// Bare nulls: a null in a child whose flag allows none.
#![tactic(auto)]

ghost use Rattle.std.specs.Prelude.{◌≡◌, ℕ, ◌+◌, ◌*◌, ◌<◌, ◌≤◌, ◌||◌, ◌++◌, true, length};
ghost use Rattle.slip.specs.Slips.{answer_of};
ghost use Rattle.tape.specs.Layout.{element_count};
ghost use Rattle.tape.specs.Opened.{view_of};
ghost use Rattle.tape.specs.Values.{elem_of};
ghost use Rattle.tape.specs.View.{is_at};
ghost use Rattle.schema.specs.Tree.{Node, field_of};
ghost use Rattle.schema.specs.Opened.{NodeOf, size_of};
ghost use Rattle.batch.specs.Rows.{letter};
ghost use Rattle.batch.specs.Values.{is_null, may_be_null, value};
ghost use Rattle.nodes.specs.Nodes.{below_of, unbare};
ghost use Rattle.nodes.specs.Contract.{setup_of, seen, Leaves, Lying};
ghost use Rattle.bare.specs.Slots.{is_nothing, null_row, hidden_at, has_slot, veiled};

use leaf::Leaf;
use leaf::layout::{Layout, Reply};
use leaf::piles::{boolean_pile, custom_pile, null_pile, text_pile};
use nodes::{Frame, Visit};
use schema::Schema;
use schema::kind::{Branch, Kind, LeafKind};
use schema::settings::Settings;
use slip::Fault;
use tape::Tape;
use tape::element::Element;
use tape::rows::Rows;

// Whether the children of a node are nullable in force because it is: those of a struct alone.
pub fn below(schema: Schema<'_>, node: usize, in_force: bool) -> bool
    requires { node < size_of schema }
    ensures { (t : Node) → NodeOf schema.entry node t → result ≡ below_of t in_force }
{
    in_force && matches!(schema.kind(node), Kind::Branch(Branch::Struct))
}

// Whether a child is nullable in force.
pub fn child_in_force(schema: Schema<'_>, child: usize, forced: bool) -> bool
    requires { child < size_of schema }
    ensures { (t : Node) → NodeOf schema.entry child t → result ≡ (forced || (field_of t).nullable) }
{
    forced || schema.nullable(child)
}

// The visit of a child in the first of these rows, so many, and the rows behind them.
pub fn visit_child<'a>(
    schema: Schema<'_>,
    visit: Visit<'_>,
    child: usize,
    slots: usize,
    rows: Rows<'a>,
) -> (Visit<'a>, Rows<'a>)
    requires parent { visit.node < size_of schema }
    requires child { child < size_of schema }
    requires enough { slots ≤ length rows.positions.now }
    ensures node { result.0.node ≡ child }
    ensures in_force { (t c : Node) → NodeOf schema.entry visit.entry.node t → NodeOf schema.entry result.0.node c → result.0.in_force ≡ (below_of t visit.entry.in_force || (field_of c).nullable) }
    ensures tape { result.0.rows.tape ≡ rows.entry.tape }
    ensures same_tape { result.1.tape ≡ rows.entry.tape }
    ensures halves { rows.entry.positions.now ≡ result.0.rows.positions.now ++ result.1.positions.now }
    ensures short { length result.0.rows.positions.now ≡ slots }
{
    let Rows { tape, positions } = rows;
    let (own, others) = positions.split_at(slots);
    let forced = below(schema, visit.node, visit.in_force);
    let child = Visit {
        node: child,
        in_force: child_in_force(schema, child, forced),
        rows: Rows {
            tape,
            positions: own,
        },
    };
    (
        child,
        Rows {
            tape,
            positions: others,
        },
    )
}

// The bracket that a branch begins with.
fn opening(settings: Settings, branch: Branch) -> char
    ensures { result ≡ letter settings branch }
{
    match branch {
        Branch::Struct if settings.list_rows => '[',
        Branch::Struct | Branch::Map => '{',
        Branch::List { .. } | Branch::Fixed { .. } => '[',
    }
}

// Whether the element at `p` is what a branch begins with.
fn begins(settings: Settings, branch: Branch, tape: Tape<'_>, p: u32) -> bool
    requires { p < element_count (view_of tape).elements }
    ensures { result ≡ is_at (view_of tape.entry) (letter settings branch) p }
{
    tape.is_at(p, opening(settings, branch))
}

// Whether a leaf makes null of an element.
fn nothing<L: Leaf>(leaf: &L, e: Element) -> bool
    ensures { result ≡ is_nothing ((L.Leaf.meaning leaf.now).answer (elem_of e.entry)) }
{
    matches!(leaf.answer(e), Reply::Null)
}

// Whether a branch's row at `p` is null.
fn null_row(settings: Settings, branch: Branch, visit: Visit<'_>, p: u32) -> bool
    requires { p < element_count (view_of visit.rows.tape).elements }
    ensures { result ≡ null_row settings (view_of visit.entry.rows.tape) branch visit.entry.in_force p }
{
    let tape = visit.rows.tape;
    !begins(settings, branch, tape, p) && visit.in_force && (tape.is_at(p, 'z') || settings.lenient)
}

// Whether a node's value at `p` is null.
fn is_null<X: Leaf>(frame: Frame<'_, X>, visit: Visit<'_>, p: u32) -> bool
    requires within { visit.node < size_of frame.schema }
    requires position { p < element_count (view_of visit.rows.tape).elements }
    ensures { (root : Node) (size : ℕ) (t : Node) → NodeOf frame.entry.schema visit.entry.node t → result ≡ is_null t (value (setup_of frame.entry.settings (X.Leaf.meaning frame.entry.custom.now) root size) (view_of visit.entry.rows.tape) t visit.entry.in_force p) }
{
    let e = visit.rows.tape.element(p);
    match frame.schema.kind(visit.node) {
        Kind::Branch(branch) => null_row(frame.settings, branch, visit, p),
        Kind::Leaf(LeafKind::Text { .. }) => nothing(&text_pile(frame.settings), e),
        Kind::Leaf(LeafKind::Boolean) => nothing(&boolean_pile(frame.settings), e),
        Kind::Leaf(LeafKind::Null) => nothing(&null_pile(frame.settings), e),
        Kind::Leaf(LeafKind::Custom) => nothing(&custom_pile(frame.settings, frame.custom), e),
    }
}

// Whether a node may be null: by its flag, or because it has no values at all.
fn may_be_null<X: Leaf>(frame: Frame<'_, X>, node: usize) -> bool
    requires { node < size_of frame.schema }
    ensures { (root : Node) (size : ℕ) (t : Node) → NodeOf frame.entry.schema node t → result ≡ may_be_null (setup_of frame.entry.settings (X.Leaf.meaning frame.entry.custom.now) root size) t }
{
    if frame.schema.nullable(node) {
        return true;
    }
    match frame.schema.kind(node) {
        Kind::Leaf(LeafKind::Null) => true,
        Kind::Leaf(LeafKind::Custom) => matches!(frame.custom.layout(), Layout::None),
        Kind::Leaf(LeafKind::Text { .. } | LeafKind::Boolean) | Kind::Branch(_) => false,
    }
}

// Whether a slot of a node's children is hidden under a null row.
fn hidden<X>(frame: Frame<'_, X>, visit: Visit<'_>, slot: usize) -> bool
    requires within { visit.node < size_of frame.schema }
    requires slot { (t : Node) × NodeOf frame.schema visit.node t × has_slot t (length visit.rows.positions.now) slot }
    ensures { (t : Node) → NodeOf frame.entry.schema visit.entry.node t → result ≡ hidden_at frame.entry.settings (view_of visit.entry.rows.tape) t visit.entry.rows.positions.now slot }
{
    let Rows { tape, positions } = visit.rows;
    match frame.schema.kind(visit.node) {
        Kind::Branch(Branch::Struct) => {
            !begins(frame.settings, Branch::Struct, tape, positions[slot])
        }
        Kind::Branch(Branch::Fixed { count }) => !tape.is_at(positions[slot / count], '['),
        Kind::Branch(Branch::List { .. } | Branch::Map) | Kind::Leaf(_) => false,
    }
}

// Looks for a null in one child that may not have it, in slots that are not hidden.
fn check_child<X: Leaf>(
    frame: Frame<'_, X>,
    visit: Visit<'_>,
    child: Visit<'_>,
) -> Result<(), Fault>
    requires within { child.node < size_of frame.schema }
    requires formed { (t : Node) × NodeOf frame.schema visit.node t × ((i : ℕ) → i < length child.rows.positions.now → has_slot t (length visit.rows.positions.now) i) }
    ensures { (root : Node) (size : ℕ) (t c : Node) → NodeOf frame.entry.schema visit.entry.node t → NodeOf frame.entry.schema child.entry.node c → answer_of result ≡ unbare (setup_of frame.entry.settings (X.Leaf.meaning frame.entry.custom.now) root size) (view_of child.entry.rows.tape) c child.entry.in_force (veiled (hidden_at frame.entry.settings (view_of visit.entry.rows.tape) t visit.entry.rows.positions.now) 0 child.entry.rows.positions.now) }
{
    if may_be_null(frame, child.node) {
        return Ok(());
    }
    let slots = child.rows.positions;
    for (slot, p) in slots.iter().enumerate() {
        if is_null(frame, child, *p) && !hidden(frame, visit, slot) {
            return Err(Fault::BareNull {
                child: child.node,
                slot,
            });
        }
    }
    Ok(())
}

// Looks for a null that a child may not have, children in order: `mine` has their rows, so many for each.
pub fn leave<X: Leaf>(
    frame: Frame<'_, X>,
    visit: Visit<'_>,
    slots: usize,
    mine: Rows<'_>,
) -> Result<(), Fault>
    requires lying { Lying (seen X.Leaf.meaning frame visit) slots mine.positions.now }
    requires tape { mine.tape ≡ visit.rows.tape }
    ensures { Leaves (seen X.Leaf.meaning frame.entry visit.entry) result }
{
    let mut rows = mine;
    for child in frame.schema.children(visit.node) {
        let (child, others) = visit_child(frame.schema, visit, child, slots, rows);
        check_child(frame, visit, child)?;
        rows = others;
    }
    Ok(())
}
