//! Tests of the crates that read: tokens, constructs, parsing, call paths, devices and the command line.
#![tactic(auto)]

#[cfg(test)]
mod calls;
#[cfg(test)]
mod command;
#[cfg(test)]
mod constructs;
#[cfg(test)]
mod io;
#[cfg(test)]
mod lex;
#[cfg(test)]
mod parse;
#[cfg(test)]
mod type_names;
