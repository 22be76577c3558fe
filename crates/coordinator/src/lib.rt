// The coordinator. The public functions take any input and test the house refusals first; what they call asks for a coordinator that stands.
#![tactic(auto)]

pub mod commanding;
pub mod questions;
pub mod reading;
pub mod setup;
