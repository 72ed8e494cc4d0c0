//! Growable lists of rows, packed by kind.
#![tactic(auto)]

pub mod binaries;
pub mod buffer;
mod fitting;
mod moves;
mod offers;
pub mod row_ref;
mod single;
pub mod slots;
mod store;
pub mod texts;

pub use buffer::RowBuffer;
pub use row_ref::RowRef;
