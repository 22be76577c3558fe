// What the program writes: a text, and what is shown of a journal once it is read.
#![tactic(auto)]

pub mod out;
pub mod shown;
