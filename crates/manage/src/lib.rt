// MANAGE ACL: the end state, one table at a time, and the command.
#![tactic(auto)]

pub mod aces;
pub mod command;
pub mod enrolments;
pub mod live;
pub mod luacds;
pub mod room;
