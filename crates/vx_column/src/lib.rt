//! Columns: their encodings, slices and reads.
#![tactic(auto)]

pub mod chunked;
pub mod column;
pub mod excepted;
pub mod interleave;
pub mod iterators;
mod kinds;
pub mod patched;

pub use chunked::{Chunked, ChunkedArray};
pub use column::Column;
pub use excepted::{Excepted, ExceptedArray};
pub use interleave::{Interleave, InterleaveArray};
pub use iterators::{ChunkIter, NonEmptyChunks};
pub use patched::{Patched, PatchedArray};
