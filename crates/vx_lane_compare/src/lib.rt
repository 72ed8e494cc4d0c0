//! Bits of comparisons, with the exceptions of lane layouts compared in their place.
#![tactic(auto)]

pub mod compare;
mod over;
mod reads;

pub use compare::CompareLanes;
