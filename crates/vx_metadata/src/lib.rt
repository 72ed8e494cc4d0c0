//! The serialized form of the assembled arrays: the bytes that stand beside an array's children, and the array that bytes and
//! children are.
#![tactic(auto)]

mod boundaries;
pub mod chunked;
pub mod interleave;
pub mod patched;

pub use chunked::SerializeChunked;
pub use interleave::SerializeInterleave;
pub use patched::SerializePatched;
