//! The tests of the scheduler's core: lists of events, given and drawn, on plans and on texts.
#![tactic(auto)]

#[cfg(test)]
mod agreeing;
#[cfg(test)]
mod drives;
#[cfg(test)]
mod lists;
#[cfg(test)]
mod mixing;
#[cfg(test)]
mod plans;
#[cfg(test)]
mod texts;
