//! Graphs under construction: points, variables and edges as they are made, and trees whose constant parts are folded.
#![tactic(auto)]

mod drafts;
mod failures;
mod folding;

pub use drafts::{Draft, DraftEdge, Label, NOWHERE, Parts, Region, Size, inner, no_region};
pub use failures::LowerError;
pub use folding::{
    binary_tree, boxed_conversion, conversion, equals, operated_tree, represents, right_type,
    unary_tree,
};
