//! Calls on flat columns that work on many rows at once: selections of rows, and columns joined. Each is one pass from
//! buffer to buffer, and a constant stays a constant where what is selected of it is one.
#![tactic(auto)]

pub mod arrays;
pub mod bulk;
mod column;
mod gather;
pub mod join;

pub use arrays::{BoolArray, PrimitiveArray};
pub use bulk::Bulk;
pub use join::concat;
