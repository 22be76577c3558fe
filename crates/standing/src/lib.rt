// Refusal 2: whether the state handed in keeps the standing rules. Every state has an answer: a count past its table's size is read
// as the size, and nothing that a state refers to is used before it is looked for.
// A rule asks each entry of a table, or each two, by the test of document 01.
#![tactic(auto)]

pub mod aces;
pub mod initiators;
pub mod luacds;
pub mod proxies;
pub mod rules;
pub mod tokens;
pub mod units;
