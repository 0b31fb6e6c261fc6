//! The report of a graph as the join of its pieces, of which each point has one.
#![tactic(auto)]

mod accesses;
mod laws;
mod pieces;
mod places;
mod reports;

pub use accesses::accesses_at;
pub use laws::{any_order_is_put, reports_are_joined};
pub use pieces::{Piece, piece_by_state, piece_without_state};
pub use places::Pieces;
pub use reports::{Report, join};
