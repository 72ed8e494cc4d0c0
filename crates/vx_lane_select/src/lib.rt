//! Exceptions of lane layouts, laid over some of their rows.
#![tactic(auto)]

mod kept;
mod reads;
pub mod select;
mod taken;

pub use select::SelectLanes;
