// Tables: identifiers compared, entries looked up, and one function for each change of a table.
// A count past its table's size is read as the size, so that every state has an answer.
#![tactic(auto)]

pub mod aces;
pub mod effects;
pub mod enrolments;
pub mod identifiers;
pub mod keys;
pub mod lookups;
pub mod proxies;
pub mod tokens;
