//! Tests of the formats in which findings are written: SARIF and a page.
#![tactic(auto)]

#[cfg(test)]
mod logs;
#[cfg(test)]
mod pages;
#[cfg(test)]
mod texts;
