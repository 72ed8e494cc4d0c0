//! Exceptions that replace rows: of flat columns, and of chunks of decoded values.
#![tactic(auto)]

pub mod chunk;
mod overlay;
pub mod patch;

pub use chunk::{UnsignedPType, chunk_places, chunk_range, patch_chunk};
pub use patch::PatchFlat;
