//! Exceptions as arrays keep them: the columns in slots, two numbers beside them, and what metadata says of them.
#![tactic(auto)]

pub mod data;
pub mod laws;
pub mod metadata;

pub use data::{PatchSlotIndices, PatchesData};
pub use metadata::ToMetadata;
