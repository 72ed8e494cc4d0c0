//! The metadata of patches and of lane layouts as bytes: two messages of Protocol Buffers, read and written exactly.
#![tactic(auto)]

mod field;
pub mod laws;
pub mod patched;
pub mod patches;
mod types;
mod varint;
mod writing;

pub use patched::PatchedMetadata;
pub use patches::PatchesMetadata;
pub use vx_base::WireFault;
