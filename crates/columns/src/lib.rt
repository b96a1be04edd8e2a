// Columns, written into the free part of a page.
#![tactic(auto)]

mod cells;
mod leaves;
pub mod offset;
pub mod plan;
mod scan;
pub mod spans;

pub use leaves::put_leaf;
