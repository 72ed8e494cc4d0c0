//! The steps that look something up in the column, and leave it as it is.
ghost use Rattle.std.specs.Prelude.{◌≡◌, ◌≤◌, ◌⊎◌, IfOk, IfErr, OnOk, length, map};
ghost use Rattle.std.specs.List.{All, slice_get};
ghost use Rattle.vx_rows.specs.Order.{row_cmp};
ghost use Rattle.vx_search.specs.Answers.{standing};
ghost use Rattle.vx_search.specs.Places.{place};
ghost use Rattle.vx_column.specs.Columns.{rows_of, type_of, flat_of, IsSound};
ghost use Rattle.vx_job.specs.Lookups.{IsSearchError, IsContainsError, contained};

use crate::elementwise::check_plain;
use std::alloc::Global;
use vx_base::{ColumnError, Ledger, Res, Seq, Steps};
use vx_column::Column;
use vx_scalars::Scalar;
use vx_search::{SearchResult, SearchSortedSide};

/// The place of a value among the rows. The step has this number in its plan.
pub(crate) fn search<L: Ledger>(
    alloc: Global,
    number: usize,
    column: &Column,
    value: &Scalar,
    side: SearchSortedSide,
    steps: &mut Steps<L>,
) -> Res<SearchResult>
    requires { IsSound column.now }
    ensures ok { IfOk result (λ p. p ≡ place side (standing row_cmp (rows_of column.now) value.now.row)) }
    ensures free { OnOk result ((e : ColumnError)
        → IsSearchError number (type_of column.now) (rows_of column.now) value.now.dtype e → ⊥) }
    ensures err { IfErr result (λ e. (e ≡ ColumnError.OutOfMemory)
        ⊎ IsSearchError number (type_of column.now) (rows_of column.now) value.now.dtype e) }
    ensures monotone { steps.old ≤ steps.new }
{
    check_plain(number, column)?;
    vx_lookup::search(alloc, column, value, side, steps)
}

/// For each row whether it is among those of a source, and null for a null. A source is a part as it was opened.
pub(crate) fn contains<L: Ledger>(
    alloc: Global,
    column: &Column,
    sources: &[Column],
    source: usize,
    steps: &mut Steps<L>,
) -> Res<Seq<Option<bool>>>
    requires sound { IsSound column.now }
    requires sources { All IsSound sources.now }
    ensures ok { IfOk result (λ bits. bits ≡ contained (rows_of column.now) (slice_get (map flat_of sources.now) source)) }
    ensures free { OnOk result ((e : ColumnError)
        → IsContainsError source (slice_get (map flat_of sources.now) source) (type_of column.now) e → ⊥) }
    ensures err { IfErr result (λ e. (e ≡ ColumnError.OutOfMemory)
        ⊎ IsContainsError source (slice_get (map flat_of sources.now) source) (type_of column.now) e) }
    ensures monotone { steps.old ≤ steps.new }
{
    match sources.get(source) {
        None => Err(ColumnError::UnknownColumn { number: source }),
        Some(set) => vx_lookup::contains(alloc, column, set, steps),
    }
}
