//! Searches that ask closures.
ghost use Rattle.std.specs.Prelude.{◌≡◌, ◌<◌, length, IfOk, IfErr};
ghost use Rattle.vx_rows.specs.declared.error.ColumnError.TheVariants.{Unsorted};
ghost use Rattle.vx_search.specs.declared.result.SearchResult.TheVariants.{Found};

use std::cmp::Ordering;
use vx_base::{ColumnError, Ledger, Res, Steps};
use vx_search::{SearchResult, SearchSorted, SearchSortedSide};

/// Searches for an index, by closures that look at indices alone.
pub(crate) fn place_of_index<S: SearchSorted<V>, V, L: Ledger>(
    seq: &mut S,
    index: usize,
    steps: &mut Steps<L>,
) -> Res<SearchResult>
    requires { index < length (S.sequence seq.old) }
    ensures { IfOk result (λ p. p ≡ Found index) }
{
    seq.search_sorted_by(
        |i: usize| Ok(i.cmp(&index)),
        |i: usize| Ok(if i < index {
            Ordering::Less
        } else {
            Ordering::Greater
        }),
        SearchSortedSide::Left,
        steps,
    )
}

/// Searches by a closure that refuses each question.
pub(crate) fn refused<S: SearchSorted<V>, V, L: Ledger>(
    seq: &mut S,
    steps: &mut Steps<L>,
) -> Res<SearchResult>
    ensures { IfErr result (λ e. e ≡ Unsorted) }
{
    seq.search_sorted_by(
        |_: usize| Err(ColumnError::Unsorted),
        |_: usize| Ok(Ordering::Less),
        SearchSortedSide::Right,
        steps,
    )
}

/// Searches for the front of the values that are equal to one, by closures that look at values.
pub(crate) fn front_of<S: SearchSorted<T>, T: Ord, L: Ledger>(
    seq: &mut S,
    values: &[T],
    value: &T,
    steps: &mut Steps<L>,
) -> Res<SearchResult>
    requires { length values.now ≡ length (S.sequence seq.old) }
{
    seq.search_sorted_by(
        |i: usize| Ok(values[i].cmp(value)),
        |i: usize| Ok(if values[i] < *value {
            Ordering::Less
        } else {
            Ordering::Greater
        }),
        SearchSortedSide::Left,
        steps,
    )
}

/// Searches for the back of them.
pub(crate) fn back_of<S: SearchSorted<T>, T: Ord, L: Ledger>(
    seq: &mut S,
    values: &[T],
    value: &T,
    steps: &mut Steps<L>,
) -> Res<SearchResult>
    requires { length values.now ≡ length (S.sequence seq.old) }
{
    seq.search_sorted_by(
        |i: usize| Ok(values[i].cmp(value)),
        |i: usize| Ok(if values[i] <= *value {
            Ordering::Less
        } else {
            Ordering::Greater
        }),
        SearchSortedSide::Right,
        steps,
    )
}
