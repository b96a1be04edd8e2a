// A node by itself: what entering it, leaving it and walking it and those below it mean.
#![tactic(auto)]

ghost use Rattle.nodes.specs.Laws.{ColumnsOfValues};

use schema::Schema;
use schema::settings::Settings;
use tape::rows::Rows;

// What stays the same over a walk: a schema, the settings and the custom leaf.
#[derive_where(Clone, Copy)]
pub struct Frame<'a, X> {
    pub schema: Schema<'a>,
    pub settings: Settings,
    pub custom: &'a X,
}

// A node that is visited: whether it is nullable in force, and its rows.
#[derive(Clone, Copy)]
pub struct Visit<'a> {
    pub node: usize,
    pub in_force: bool,
    pub rows: Rows<'a>,
}

// An accepted walk writes the columns of the values at its positions.
pub fn columns_are_values()
    ensures { ColumnsOfValues }
{}
