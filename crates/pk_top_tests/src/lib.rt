//! Tests of the program's call over memory devices.
#![tactic(auto)]

#[cfg(test)]
mod certificates;
#[cfg(test)]
mod top;
