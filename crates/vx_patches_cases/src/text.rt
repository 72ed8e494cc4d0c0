//! Answers as text, that a call of either kind gives.
use std::alloc::Global;
use vx_base::Res;
use vx_search::SearchResult;

/// A number.
pub(crate) fn number_text(alloc: Global, number: usize) -> Res<String> {
    Ok(format!(in alloc; "{number}")?)
}

/// A place, found or not.
pub(crate) fn place_text(alloc: Global, place: SearchResult) -> Res<String> {
    Ok(format!(in alloc; "{place}")?)
}
