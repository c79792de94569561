// The mathematics of the analysis, over numbers and functions alone: definitions and laws, no code.
#![tactic(auto)]
