// Who could open a unit, when, and on what ground: the grounds of the unit followed from statement to statement, and the audit's table and answer as text. No input and no output.
#![tactic(auto)]

pub mod cells;
pub mod deeds;
pub mod following;
pub mod ledger;
pub mod sentence;
pub mod table;
