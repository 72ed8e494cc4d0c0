//! Calls on flat columns that work on each row by itself: a choice between two columns, nulls filled, integers cast, and rows
//! compared with a value. Each goes over the rows once, from buffer to buffer, and all but the choice give a constant of a constant.
#![tactic(auto)]

mod blocks;
mod cast;
mod column;
mod compare;
pub mod elementwise;
mod fill;
mod zip;

pub use elementwise::Elementwise;
