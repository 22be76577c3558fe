// Journals: a line read as a statement, and answered by the coordinator. No input and no output: lines come in as slices, and texts go into lent buffers.
#![tactic(auto)]

pub mod answering;
pub mod kinds;
pub mod lending;
pub mod lines;
pub mod printing;
pub mod reading;
pub mod replaying;
pub mod statement;
pub mod telling;
pub mod words;
