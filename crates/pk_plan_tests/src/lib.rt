//! The tests of nests, plans, orders and iterations over orders.
#![tactic(auto)]

#[cfg(test)]
mod graphs;
#[cfg(test)]
mod iterations;
#[cfg(test)]
mod orders;
#[cfg(test)]
mod peaks;
#[cfg(test)]
mod plans;
