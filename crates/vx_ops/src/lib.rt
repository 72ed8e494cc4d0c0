//! Calls that make a column of each row of another by itself: rows masked, nulls filled, integers cast, rows compared. A column
//! of chunks gives one of chunks, chunk by chunk, and of a constant what is filled, cast or compared is a constant.
#![tactic(auto)]

mod bits;
pub mod casting;
mod chunks;
pub mod comparing;
pub mod filling;
pub mod masking;

pub use casting::cast;
pub use comparing::compare;
pub use filling::fill;
pub use masking::mask;
pub use vx_pairs::{AlignedPair, PairedChunks, paired_chunks, push_constant, push_unary, zip};
