// Tasks and the tables that hold them.
#![tactic(auto)]

pub mod table;
pub mod task;
