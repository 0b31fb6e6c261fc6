// Closing octagons over integers, in place (Miné 2006, section 3; the tightening after Bagnara, Hill and Zaffanella, "An improved tight closure algorithm for integer octagonal constraints", 2008).
#![tactic(auto)]

mod after;
mod bounded;
mod closing;
mod laws;
mod paths;
mod tight;

pub use after::close_after;
pub use bounded::small;
pub use closing::close;
pub use laws::{
    closed_stay_closed, closing_by_places, closing_is_closed, closing_is_determined,
    closing_is_of_points,
};
