//! Tests on graphs of texts: how many points they have, what is known at the end of a line of instructions, and the bound on chains of widening steps.
#![tactic(auto)]

#[cfg(test)]
mod chains;
#[cfg(test)]
mod counts;
#[cfg(test)]
mod lines;
#[cfg(test)]
mod printing;
#[cfg(test)]
mod rows;
#[cfg(test)]
mod ways;
