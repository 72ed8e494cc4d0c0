//! Selections of exceptions: what a filter, a mask and a take leave of them.
#![tactic(auto)]

mod fresh;
mod kept;
pub mod laws;
mod lookup;
mod place_map;
pub mod plan;
mod rows;
pub mod select;
mod take;
mod unmask;
mod widen;

pub use plan::{Kept, SelectPlaces, Taken};
pub use select::SelectPatches;
