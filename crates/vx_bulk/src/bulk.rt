//! Selections of rows of a flat column.
ghost use Rattle.std.specs.Prelude.{◌≡◌, ◌+◌, ◌<◌, ◌≤◌, All, IfOk, IfSome, OnOk, IsFalse, IsOkUnless, count_by, is_none, is_some, sum_by, length, replicate};
ghost use Rattle.std.specs.List.{list_any};
ghost use Rattle.vx_base.specs.Column.{Flat, flat, IsFlat};
ghost use Rattle.vx_bulk.specs.Selections.{kept, picked, picked_at, joined_runs, masked, IsWithin, IsInside};
ghost use Rattle.vx_bulk.specs.Types.{nullable, taken_type};
ghost use Rattle.vx_masks.specs.Bits.{count_true};
ghost use Rattle.vx_masks.specs.Masks.{bits_of};

use crate::column::{column_of, nullable_column, repeated};
use crate::gather::{kept_rows, masked_rows, picked_rows, run_rows, taken_rows};
use std::alloc::Global;
use vx_base::{ColumnError, FlatColumn, Ledger, Res, Row, Steps};
use vx_masks::Mask;

/// Selections of rows, which are flat columns. Each raises the steps by the rows that it reads, and a refusal by no more.
pub trait Bulk {
    /// The type and the rows.
    ghost flat_of: { Self → Flat };

    /// The rows whose bit is true.
    fn filter<L: Ledger>(&self, alloc: Global, mask: &Mask, steps: &mut Steps<L>) -> Res<FlatColumn>
        requires { length (bits_of mask.now) ≡ length (flat_of self.now).rows };

    /// The rows at the places, in their order.
    fn pick<L: Ledger>(
        &self,
        alloc: Global,
        places: &[usize],
        steps: &mut Steps<L>,
    ) -> Res<FlatColumn>
        requires { All (λ place. place < length (flat_of self.now).rows) places.now };

    /// The rows at the places, in their order, and a null for each place that is absent.
    fn take<L: Ledger>(
        &self,
        alloc: Global,
        places: &[Option<usize>],
        steps: &mut Steps<L>,
    ) -> Res<FlatColumn>
        requires { All (IsWithin (length (flat_of self.now).rows)) places.now };

    /// The rows of the runs, each of a start and a length, one behind the other.
    fn runs<L: Ledger>(
        &self,
        alloc: Global,
        runs: &[(usize, usize)],
        steps: &mut Steps<L>,
    ) -> Res<FlatColumn>
        requires { All (IsInside (length (flat_of self.now).rows)) runs.now };

    /// The rows, with a null in place of each whose bit is false. Each row is counted, also one that isn't kept.
    fn mask<L: Ledger>(&self, alloc: Global, keep: &[bool], steps: &mut Steps<L>) -> Res<FlatColumn>
        requires { length keep.now ≡ length (flat_of self.now).rows };
}

impl Bulk for FlatColumn {
    ghost flat_of = { λ column. column };

    fn filter<L: Ledger>(&self, alloc: Global, mask: &Mask, steps: &mut Steps<L>) -> Res<FlatColumn>
        requires { length (bits_of mask.now) ≡ length self.now.rows }
        ensures ok { IfOk result (λ c. c ≡ flat self.now.dtype (kept self.now.rows (bits_of mask.now))) }
        ensures fits { IfOk result IsFlat }
        ensures err { IsOkUnless result ColumnError.OutOfMemory }
        ensures cost { OnOk result (steps.new ≡ steps.old + count_true (bits_of mask.now)) }
        ensures most { steps.new ≤ steps.old + count_true (bits_of mask.now) }
        ensures rise { steps.old ≤ steps.new }
    {
        match mask {
            Mask::AllTrue(len) => {
                steps.add(*len);
                self.share()
            }
            Mask::AllFalse(_) => FlatColumn::empty(alloc, self.dtype().copy()?),
            Mask::Values(_) => filtered(self, alloc, mask, steps),
        }
    }

    fn pick<L: Ledger>(
        &self,
        alloc: Global,
        places: &[usize],
        steps: &mut Steps<L>,
    ) -> Res<FlatColumn>
        requires { All (λ place. place < length self.now.rows) places.now }
        ensures ok { IfOk result (λ c. c ≡ flat self.now.dtype (picked_at self.now.rows places.now)) }
        ensures fits { IfOk result IsFlat }
        ensures err { IsOkUnless result ColumnError.OutOfMemory }
        ensures cost { OnOk result (steps.new ≡ steps.old + length places.now) }
        ensures most { steps.new ≤ steps.old + length places.now }
        ensures rise { steps.old ≤ steps.new }
    {
        match self.as_constant() {
            Some(row) => repeated(self, alloc, row, places.len(), steps),
            None => {
                let rows = picked_rows(self, alloc, places, steps)?;
                column_of(alloc, self.dtype(), rows)
            }
        }
    }

    fn take<L: Ledger>(
        &self,
        alloc: Global,
        places: &[Option<usize>],
        steps: &mut Steps<L>,
    ) -> Res<FlatColumn>
        requires { All (IsWithin (length self.now.rows)) places.now }
        ensures ok { IfOk result (λ c.
            c ≡ flat (taken_type self.now.dtype places.now) (picked self.now.rows places.now)) }
        ensures fits { IfOk result IsFlat }
        ensures err { IsOkUnless result ColumnError.OutOfMemory }
        ensures cost { OnOk result (steps.new ≡ steps.old + count_by is_some places.now) }
        ensures most { steps.new ≤ steps.old + count_by is_some places.now }
        ensures rise { steps.old ≤ steps.new }
    {
        if any_absent(places) {
            let rows = taken_rows(self, alloc, places, steps)?;
            return nullable_column(alloc, self.dtype(), rows);
        }
        taken(self, alloc, places, steps)
    }

    fn runs<L: Ledger>(
        &self,
        alloc: Global,
        runs: &[(usize, usize)],
        steps: &mut Steps<L>,
    ) -> Res<FlatColumn>
        requires { All (IsInside (length self.now.rows)) runs.now }
        ensures ok { IfOk result (λ c. c ≡ flat self.now.dtype (joined_runs self.now.rows runs.now)) }
        ensures fits { IfOk result IsFlat }
        ensures err { IsOkUnless result ColumnError.OutOfMemory }
        ensures cost { OnOk result (steps.new ≡ steps.old + sum_by (λ run. run.1) runs.now) }
        ensures most { steps.new ≤ steps.old + sum_by (λ run. run.1) runs.now }
        ensures rise { steps.old ≤ steps.new }
    {
        match self.as_constant() {
            Some(row) => repeated_by_runs(self, alloc, row, runs, steps),
            None => {
                let rows = run_rows(self, alloc, runs, steps)?;
                column_of(alloc, self.dtype(), rows)
            }
        }
    }

    fn mask<L: Ledger>(&self, alloc: Global, keep: &[bool], steps: &mut Steps<L>) -> Res<FlatColumn>
        requires { length keep.now ≡ length self.now.rows }
        ensures ok { IfOk result (λ c. c ≡ flat (nullable self.now.dtype) (masked self.now.rows keep.now)) }
        ensures fits { IfOk result IsFlat }
        ensures err { IsOkUnless result ColumnError.OutOfMemory }
        ensures cost { OnOk result (steps.new ≡ steps.old + length self.now.rows) }
        ensures most { steps.new ≤ steps.old + length self.now.rows }
        ensures rise { steps.old ≤ steps.new }
    {
        let rows = masked_rows(self, alloc, keep, steps)?;
        nullable_column(alloc, self.dtype(), rows)
    }
}

/// The rows whose bit is true.
fn filtered<L: Ledger>(
    column: &FlatColumn,
    alloc: Global,
    mask: &Mask,
    steps: &mut Steps<L>,
) -> Res<FlatColumn>
    requires { length (bits_of mask.now) ≡ length column.now.rows }
    ensures ok { IfOk result (λ c. c ≡ flat column.now.dtype (kept column.now.rows (bits_of mask.now))) }
    ensures fits { IfOk result IsFlat }
    ensures err { IsOkUnless result ColumnError.OutOfMemory }
    ensures cost { OnOk result (steps.new ≡ steps.old + count_true (bits_of mask.now)) }
    ensures most { steps.new ≤ steps.old + count_true (bits_of mask.now) }
    ensures rise { steps.old ≤ steps.new }
{
    match column.as_constant() {
        Some(row) => repeated(column, alloc, row, mask.true_count(), steps),
        None => {
            let rows = kept_rows(column, alloc, mask, steps)?;
            column_of(alloc, column.dtype(), rows)
        }
    }
}

/// The rows at places of which none is absent.
fn taken<L: Ledger>(
    column: &FlatColumn,
    alloc: Global,
    places: &[Option<usize>],
    steps: &mut Steps<L>,
) -> Res<FlatColumn>
    requires inside { All (IsWithin (length column.now.rows)) places.now }
    requires present { IsFalse (list_any is_none places.now) }
    ensures ok { IfOk result (λ c. c ≡ flat column.now.dtype (picked column.now.rows places.now)) }
    ensures fits { IfOk result IsFlat }
    ensures err { IsOkUnless result ColumnError.OutOfMemory }
    ensures cost { OnOk result (steps.new ≡ steps.old + count_by is_some places.now) }
    ensures most { steps.new ≤ steps.old + count_by is_some places.now }
    ensures rise { steps.old ≤ steps.new }
{
    match column.as_constant() {
        Some(row) => repeated(column, alloc, row, places.len(), steps),
        None => {
            let rows = taken_rows(column, alloc, places, steps)?;
            column_of(alloc, column.dtype(), rows)
        }
    }
}

/// The rows of runs of a column that is one row several times. Where they are more than can be counted, no memory holds
/// them.
fn repeated_by_runs<L: Ledger>(
    column: &FlatColumn,
    alloc: Global,
    row: &Row,
    runs: &[(usize, usize)],
    steps: &mut Steps<L>,
) -> Res<FlatColumn>
    requires same { column.now.rows ≡ replicate (length column.now.rows) row.now }
    requires inside { All (IsInside (length column.now.rows)) runs.now }
    ensures ok { IfOk result (λ c. c ≡ flat column.now.dtype (joined_runs column.now.rows runs.now)) }
    ensures fits { IfOk result IsFlat }
    ensures err { IsOkUnless result ColumnError.OutOfMemory }
    ensures cost { OnOk result (steps.new ≡ steps.old + sum_by (λ run. run.1) runs.now) }
    ensures most { steps.new ≤ steps.old + sum_by (λ run. run.1) runs.now }
    ensures rise { steps.old ≤ steps.new }
{
    match total(runs) {
        Some(count) => repeated(column, alloc, row, count, steps),
        None => Err(ColumnError::OutOfMemory),
    }
}

/// The number of rows of the runs, where it is one of 64 bits.
fn total(runs: &[(usize, usize)]) -> Option<usize>
    ensures { IfSome result (λ count. count ≡ sum_by (λ run. run.1) runs.now) }
{
    let mut total: usize = 0;
    for (_, count) in runs {
        total = total.checked_add(*count)?;
    }
    Some(total)
}

/// Whether a place is absent.
fn any_absent(places: &[Option<usize>]) -> bool
    ensures { result ≡ list_any is_none places.now }
{
    places.iter().any(|place| place.is_none())
}
