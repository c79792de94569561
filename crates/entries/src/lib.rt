// The entries of a settings file, each read at the front of some bytes, and the faults of a file.
#![tactic(auto)]

mod bytes;
pub mod entry;
pub mod fault;
pub mod number;
pub mod question;
