//! Whether rows are sorted.
ghost use Rattle.std.specs.Prelude.{◌≡◌, ◌≤◌, ◌⊎◌, OnOk, IfErr};
ghost use Rattle.vx_job.specs.Lookups.{IsAscending, IsOrderError};

use std::alloc::Global;
use vx_base::{ColumnError, FlatColumn, Ledger, Res, Row, Steps};

/// Refuses exactly the rows of which some is above its successor.
pub(crate) fn check_sorted<L: Ledger>(
    alloc: Global,
    rows: &FlatColumn,
    steps: &mut Steps<L>,
) -> Res<()>
    ensures sorted { OnOk result (IsAscending rows.now.rows) }
    ensures err { IfErr result (λ e. (e ≡ ColumnError.OutOfMemory) ⊎ IsOrderError rows.now.rows e) }
    ensures monotone { steps.old ≤ steps.new }
{
    if let Some(_row) = rows.as_constant() {
        // A row that is repeated is sorted.
        return Ok(());
    }
    // No row stands before a null, which so serves as what stands before the first.
    let mut before: Row = None;
    for i in 0..rows.len() {
        if rows.cmp_at(i, &before, steps).is_lt() {
            return Err(ColumnError::Unsorted);
        }
        before = rows.row_at(alloc, i, steps)?;
    }
    Ok(())
}
