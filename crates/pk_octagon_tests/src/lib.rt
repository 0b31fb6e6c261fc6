//! Tests of octagons: bounds, closings and the integers that meet them, and what is done with matrices.
#![tactic(auto)]

#[cfg(test)]
mod closing;
#[cfg(test)]
mod matrices;
#[cfg(test)]
mod octagons;
#[cfg(test)]
mod points;
