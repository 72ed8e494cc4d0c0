//! Sorted search over anything that can say how its i-th element stands to a value.
#![tactic(auto)]

pub mod bound;
mod by;
pub mod gallop;
pub mod index_ord;
pub mod laws;
pub mod native;
pub mod primitive;
pub mod readers;
pub mod result;
pub mod search;
pub mod slice;

pub use bound::search_bound;
pub use gallop::{gallop_lower_bound, partition_point_counted};
pub use index_ord::IndexOrd;
pub use native::{NativeInt, Wide};
pub use primitive::{PlaceSearch, SearchSortedPrimitiveArray};
pub use readers::{FlatReader, RowReader, SliceReader};
pub use result::{SearchResult, SearchSortedSide};
pub use search::SearchSorted;
pub use slice::SortedSlice;
