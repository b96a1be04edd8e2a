// The lines of a printout, made from values. One page is 80 columns wide.
#![tactic(auto)]

pub mod schemas;
pub mod sizes;
pub mod slips;
pub mod tapes;
pub mod words;
