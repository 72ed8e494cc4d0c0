//! Exceptions by row: a sorted list of them, which is searched and sliced.
#![tactic(auto)]

pub mod index;
pub mod laws;
pub mod patches;
mod rules;
mod search;

pub use index::{PATCH_CHUNK_SIZE, PatchIndex};
pub use patches::Patches;
