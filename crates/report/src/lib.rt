// The two reports: REPORT ACL and the reach list, written into the lent buffer.
#![tactic(auto)]

pub mod each;
pub mod granted;
pub mod identified;
pub mod ordering;
pub mod paged;
pub mod reaching;
pub mod reporting;
pub mod sized;
pub mod tokened;
