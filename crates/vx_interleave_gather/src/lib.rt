//! Rows gathered from several flat columns through selectors, which are checked first.
#![tactic(auto)]

mod columns;
pub mod gathers;
mod rows;

pub use gathers::{gather_bits, gather_ints, gather_validity};
