//! Looking things up in columns: sorted search over the rows of any column, and membership in them.
#![tactic(auto)]

pub mod membership;
pub mod reader;
pub mod searcher;
pub mod searching;
mod sorted;

pub use membership::contains;
pub use reader::{ColumnReader, primitive_searcher};
pub use searcher::SearchSortedArray;
pub use searching::search;
