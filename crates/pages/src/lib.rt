// The pages of a MANAGE ACL list: each is read as its own part of the list.
#![tactic(auto)]

pub mod form;
pub mod header;
pub mod page;
pub mod places;
pub mod walks;
pub mod whole;
