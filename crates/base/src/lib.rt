// What the other crates share: bounded lists, and the definitions of numbers in bytes and of first faults.
#![tactic(auto)]

pub mod bounded;
