//! Tests of the crates that show what was found: origins of lines, the lines of reports, findings.
#![tactic(auto)]

#[cfg(test)]
mod origins;
#[cfg(test)]
mod reports;
