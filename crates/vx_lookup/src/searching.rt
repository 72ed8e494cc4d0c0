//! Where a value stands in a column that is sorted.
ghost use Rattle.std.specs.Prelude.{◌≡◌, ◌≤◌, ◌⊎◌, IfOk, OnOk, IfErr, IsFalse};
ghost use Rattle.vx_rows.specs.Order.{row_cmp};
ghost use Rattle.vx_rows.specs.Types.{AlikeTypes, is_nested};
ghost use Rattle.vx_search.specs.Answers.{standing};
ghost use Rattle.vx_search.specs.Places.{place};
ghost use Rattle.vx_job.specs.Lookups.{IsAscending, IsOrderError};
ghost use Rattle.vx_column.specs.Columns.{IsSound, type_of, rows_of};
ghost use Rattle.vx_lookup.specs.Causes.{SearchCause};

use crate::searcher::SearchSortedArray;
use crate::sorted::check_sorted;
use std::alloc::Global;
use vx_base::{ColumnError, Ledger, Res, Steps};
use vx_column::Column;
use vx_pairs::flat_rows;
use vx_scalars::Scalar;
use vx_search::{SearchResult, SearchSorted, SearchSortedSide};

/// The place of a value among the rows: before the equal ones on the left side, behind them on the right, and where it
/// belongs if there is none. Reads all rows to see that they are sorted, and only then searches.
pub fn search<L: Ledger>(
    alloc: Global,
    column: &Column,
    value: &Scalar,
    side: SearchSortedSide,
    steps: &mut Steps<L>,
) -> Res<SearchResult>
    requires sound { IsSound column.now }
    requires flat { IsFalse (is_nested (type_of column.now)) }
    ensures ok { IfOk result (λ p. p ≡ place side (standing row_cmp (rows_of column.now) value.now.row)) }
    ensures alike { OnOk result (AlikeTypes (type_of column.now) value.now.dtype) }
    ensures sorted { OnOk result (IsAscending (rows_of column.now)) }
    ensures err { IfErr result (SearchCause (type_of column.now) (rows_of column.now) value.now.dtype) }
    ensures monotone { steps.old ≤ steps.new }
{
    if !column.dtype().eq_ignore_nullability(value.dtype()) {
        return Err(ColumnError::MismatchedTypes);
    }
    check_order(alloc, column, steps)?;
    let mut searcher = SearchSortedArray::new(alloc, column)?;
    searcher.search_sorted(value.row(), side, steps)
}

/// Refuses exactly a column of which some row is above its successor.
fn check_order<L: Ledger>(alloc: Global, column: &Column, steps: &mut Steps<L>) -> Res<()>
    requires { IsSound column.now }
    ensures sorted { OnOk result (IsAscending (rows_of column.now)) }
    ensures err { IfErr result (λ e. (e ≡ ColumnError.OutOfMemory) ⊎ IsOrderError (rows_of column.now) e) }
    ensures monotone { steps.old ≤ steps.new }
{
    let rows = flat_rows(alloc, column, steps)?;
    check_sorted(alloc, &rows, steps)
}
