// The state of a coordinator in words, written into a lent buffer.
#![tactic(auto)]

pub mod granted;
pub mod initiators;
pub mod naming;
pub mod proxies;
pub mod telling;
pub mod tokens;
pub mod units;
