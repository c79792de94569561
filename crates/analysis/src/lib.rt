// The analysis of a closed table under an arrival model.
#![tactic(auto)]

mod busy;
mod minimal;
mod packing;
pub mod question;
pub mod refusal;
mod safe;
mod sources;
mod subsets;
pub mod window;
