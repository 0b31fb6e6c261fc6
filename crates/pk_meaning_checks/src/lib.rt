//! Runs of programs beside those of their graphs, computed.
#![tactic(auto)]
