//! Packs of variables, over which small octagons stand: one for what lies outside of all components of a graph, and one for each component.
#![tactic(auto)]

mod answers;
mod chains;
mod edges;
mod ends;
mod failures;
mod laws;
mod listings;
mod marks;
mod points;

pub use answers::packs;
pub use chains::chain_bound_packs;
pub use failures::PackError;
pub use laws::{
    edges_have_packs, edges_lie_between_members, inner_edges_are_outer, one_octagon_bounds,
    one_pack_without_components, packs_are_of_their_edges,
};
pub use listings::Packs;
