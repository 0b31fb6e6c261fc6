//! The graph of a program has the program's visits.
#![tactic(auto)]
