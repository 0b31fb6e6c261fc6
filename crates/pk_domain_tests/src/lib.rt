//! Tests of C's operators and of the numeric domains: intervals, congruences, values, shared blocks and states.
#![tactic(auto)]

#[cfg(test)]
mod blocks;
#[cfg(test)]
mod congruences;
#[cfg(test)]
mod ctypes;
#[cfg(test)]
mod intervals;
#[cfg(test)]
mod reduction;
#[cfg(test)]
mod states;
#[cfg(test)]
mod values;
