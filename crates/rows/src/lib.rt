// The rows of an initiator: built from the tables, searched for a clash, asked what a LUN opens.
#![tactic(auto)]

pub mod building;
pub mod clashes;
pub mod opening;
pub mod table;
