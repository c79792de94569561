// Worked examples as tests: the counts of curves and models, the lines for settings files, busy windows and questions, and what
// callers may rely on.
#![tactic(auto)]

#[cfg(test)]
mod callers;
#[cfg(test)]
mod counts;
#[cfg(test)]
mod files;
#[cfg(test)]
mod questions;
#[cfg(test)]
mod three_tasks;
#[cfg(test)]
mod windows;
