//! Writes what was found as a page of HTML.
#![tactic(auto)]

mod findings;
mod functions;
mod laws;
mod lines;
mod loops;
mod marks;
mod pages;
mod places;
mod source;

pub use laws::findings_stand;
pub use pages::page;
