//! Tests of the packs of texts' graphs.
#![tactic(auto)]

#[cfg(test)]
mod chains;
#[cfg(test)]
mod limits;
#[cfg(test)]
mod texts;
#[cfg(test)]
mod ways;
