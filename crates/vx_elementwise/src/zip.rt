//! A choice between the rows of two flat columns.
ghost use Rattle.std.specs.Prelude.{◌≡◌, ◌+◌, ◌-◌, ◌<◌, ◌≤◌, ◌++◌, IfOk, OnOk, IsOkUnless, cond, false, get_or, length, replicate};
ghost use Rattle.std.specs.List.{slice_range};
ghost use Rattle.vx_base.specs.Column.{flat, IsFlat};
ghost use Rattle.vx_rows.specs.Types.{AlikeTypes};
ghost use Rattle.vx_scalars.specs.Elementwise.{chosen, chosen_type};

use crate::column::{column_of, either};
use std::alloc::Global;
use std::ops::Range;
use vx_base::{ColumnError, FlatColumn, Ledger, Res, RowBuffer, Steps};

/// A column of the rows that are chosen.
pub(crate) fn zip_columns<L: Ledger>(
    column: &FlatColumn,
    alloc: Global,
    other: &FlatColumn,
    choice: &[bool],
    steps: &mut Steps<L>,
) -> Res<FlatColumn>
    requires types { AlikeTypes column.now.dtype other.now.dtype }
    requires rows { length other.now.rows ≡ length column.now.rows }
    requires choice { length choice.now ≡ length column.now.rows }
    ensures ok { IfOk result (λ c.
        c ≡ flat (chosen_type column.now.dtype other.now.dtype) (chosen column.now.rows other.now.rows choice.now)) }
    ensures fits { IfOk result IsFlat }
    ensures err { IsOkUnless result ColumnError.OutOfMemory }
    ensures cost { OnOk result (steps.new ≡ steps.old + length column.now.rows) }
    ensures most { steps.new ≤ steps.old + length column.now.rows }
    ensures rise { steps.old ≤ steps.new }
{
    let nullability = either(column.dtype(), other.dtype());
    let rows = chosen_rows(column, alloc, other, choice, steps)?;
    column_of(alloc, column.dtype(), nullability, rows)
}

/// The rows that are chosen. Each run of rows of one column is appended at once.
fn chosen_rows<L: Ledger>(
    column: &FlatColumn,
    alloc: Global,
    other: &FlatColumn,
    choice: &[bool],
    steps: &mut Steps<L>,
) -> Res<RowBuffer>
    requires rows { length other.now.rows ≡ length column.now.rows }
    requires choice { length choice.now ≡ length column.now.rows }
    ensures ok { IfOk result (λ rows. rows ≡ chosen column.now.rows other.now.rows choice.now) }
    ensures err { IsOkUnless result ColumnError.OutOfMemory }
    ensures cost { OnOk result (steps.new ≡ steps.old + length column.now.rows) }
    ensures most { steps.new ≤ steps.old + length column.now.rows }
    ensures rise { steps.old ≤ steps.new }
{
    let mut rows = RowBuffer::new(alloc, column.dtype());
    let mut start = 0;
    while start < choice.len() {
        let end = run_end(choice, start);
        append_run(
            column,
            alloc,
            other,
            choice[start],
            start..end,
            &mut rows,
            steps,
        )?;
        start = end;
    }
    Ok(rows)
}

/// Where the run of bits ends that are like the one at `start`.
fn run_end(choice: &[bool], start: usize) -> usize
    requires { start < length choice.now }
    ensures more { start < result }
    ensures inside { result ≤ length choice.now }
    ensures same { slice_range choice.now start result ≡ replicate (result - start) (get_or choice.now start false) }
{
    for i in start + 1..choice.len() {
        if choice[i] != choice[start] {
            return i;
        }
    }
    choice.len()
}

/// Appends rows of the one column or of the other.
fn append_run<L: Ledger>(
    column: &FlatColumn,
    alloc: Global,
    other: &FlatColumn,
    choice: bool,
    run: Range<usize>,
    rows: &mut RowBuffer,
    steps: &mut Steps<L>,
) -> Res<()>
    requires order { run.start ≤ run.end }
    requires inside { run.end ≤ length column.now.rows }
    requires rows { length other.now.rows ≡ length column.now.rows }
    ensures ok { OnOk result (rows.new ≡ rows.old ++ slice_range (cond choice column.now.rows other.now.rows) run.start run.end) }
    ensures err { IsOkUnless result ColumnError.OutOfMemory }
    ensures cost { steps.new ≡ steps.old + (run.end - run.start) }
{
    if choice {
        column.append_into(alloc, run, rows, steps)
    } else {
        other.append_into(alloc, run, rows, steps)
    }
}
