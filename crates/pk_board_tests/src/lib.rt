//! The tests of a board.
#![tactic(auto)]

#[cfg(test)]
mod ends;
#[cfg(test)]
mod lean;
#[cfg(test)]
mod plans;
#[cfg(test)]
mod refusals;
#[cfg(test)]
mod runs;
#[cfg(test)]
mod steps;
#[cfg(test)]
mod summing;
#[cfg(test)]
mod walks;
#[cfg(test)]
mod workers;
