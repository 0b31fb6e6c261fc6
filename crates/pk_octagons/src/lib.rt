//! Lists of octagons, each over its own variables.
#![tactic(auto)]

mod changes;
mod closing;
mod laws;
mod lowering;
mod marked;
mod octagons;
mod packs;
mod reductions;
mod turns;
mod values;

pub use laws::{
    octagons_are_sound, octagons_stay, one_is_itself, reductions_are_exact, resting_stay,
};
pub use octagons::Octagons;
pub use packs::{Pack, Place, PlacedPacks};
pub use values::put_loose;
