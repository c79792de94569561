// The settings file, by definitions alone: what its bytes say, and which bytes say it.
#![tactic(auto)]
