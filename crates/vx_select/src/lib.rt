//! Rows of a column that are chosen by their places.
#![tactic(auto)]

mod chunk_filter;
mod deal;
pub mod gathering;
mod places;
pub mod select;
mod spots;
mod touched;
mod walk;

pub use gathering::gather;
pub use select::Select;
