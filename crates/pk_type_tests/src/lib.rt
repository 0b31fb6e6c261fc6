//! Tests of typing.
#![tactic(auto)]

#[cfg(test)]
mod bad;
#[cfg(test)]
mod enumerations;
#[cfg(test)]
mod places;
#[cfg(test)]
mod statics;
#[cfg(test)]
mod types;
#[cfg(test)]
mod typing;
