//! Selectors of interleaved columns: which row of which value stands at each row.
#![tactic(auto)]

pub mod data;
mod rules;
pub mod selectors;

pub use data::InterleaveData;
pub use selectors::{Selectors, check_selectors};
