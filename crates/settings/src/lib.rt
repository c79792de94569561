// The settings file: its reader, and what it fills.
#![tactic(auto)]

mod cursor;
mod reader;
mod section;
pub mod settings;
