// One processor, dispatched by task number: runs of a closed table, their releases and ticks, and the log of their jobs.
#![tactic(auto)]

mod admission;
pub mod record;
pub mod refusal;
pub mod run;
mod service;
