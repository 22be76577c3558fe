// What the coordinator keeps, what it answers, and the values that both start from. The meaning of all of it is in specs/.
#![tactic(auto)]

pub mod answers;
pub mod outcomes;
pub mod setters;
pub mod state;
