//! Two columns side by side, and functions of single rows pushed through chunks.
#![tactic(auto)]

pub mod chunks;
pub mod flat;
pub mod laws;
pub mod paired;
pub mod push;
pub mod zipped;

pub use chunks::{AlignedPair, PairedChunks, paired_chunks};
pub use flat::flat_rows;
pub use paired::{PairedRange, PairedRanges, Pairing};
pub use push::{push_constant, push_unary};
pub use zipped::zip;
