//! Tests of the reading of certificates.
#![tactic(auto)]

#[cfg(test)]
mod heads;
#[cfg(test)]
mod lines;
