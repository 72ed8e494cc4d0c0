//! Rows of a flat column that are put into a buffer, a range after the other.
ghost use Rattle.std.specs.Prelude.{◌≡◌, ◌+◌, ◌-◌, ◌<◌, ◌≤◌, ◌∷◌, ◌++◌, [], All, IfOk, OnOk, IsOkUnless, None, cond, count_by, get_or, is_some, length, sum_by};
ghost use Rattle.std.specs.List.{slice_range};
ghost use Rattle.vx_bulk.specs.Selections.{kept, picked_row, picked, picked_at, joined_runs, masked, IsWithin, IsInside};
ghost use Rattle.vx_masks.specs.Bits.{count_true};
ghost use Rattle.vx_masks.specs.Masks.{bits_of};

use std::alloc::Global;
use std::ops::Range;
use vx_base::{ColumnError, FlatColumn, Ledger, Res, RowBuffer, Steps};
use vx_masks::Mask;

/// The rows at the places.
pub(crate) fn picked_rows<L: Ledger>(
    column: &FlatColumn,
    alloc: Global,
    places: &[usize],
    steps: &mut Steps<L>,
) -> Res<RowBuffer>
    requires { All (λ place. place < length column.now.rows) places.now }
    ensures ok { IfOk result (λ rows. rows ≡ picked_at column.now.rows places.now) }
    ensures err { IsOkUnless result ColumnError.OutOfMemory }
    ensures cost { OnOk result (steps.new ≡ steps.old + length places.now) }
    ensures most { steps.new ≤ steps.old + length places.now }
    ensures rise { steps.old ≤ steps.new }
{
    let mut rows = RowBuffer::new(alloc, column.dtype());
    for place in places {
        push_row(column, alloc, *place, &mut rows, steps)?;
    }
    Ok(rows)
}

/// Appends the row at a place.
#[tactic(auto, using(crate::proofs::Picks::range_of_one))]
fn push_row<L: Ledger>(
    column: &FlatColumn,
    alloc: Global,
    place: usize,
    rows: &mut RowBuffer,
    steps: &mut Steps<L>,
) -> Res<()>
    requires { place < length column.now.rows }
    ensures ok { OnOk result (rows.new ≡ rows.old ++ get_or column.now.rows place None ∷ []) }
    ensures err { IsOkUnless result ColumnError.OutOfMemory }
    ensures cost { steps.new ≡ steps.old + 1 }
{
    // The place behind one below the length is a number too.
    let _ = column.len();
    column.append_into(alloc, place..place + 1, rows, steps)
}

/// The rows at the places, and a null for each place that is absent.
pub(crate) fn taken_rows<L: Ledger>(
    column: &FlatColumn,
    alloc: Global,
    places: &[Option<usize>],
    steps: &mut Steps<L>,
) -> Res<RowBuffer>
    requires { All (IsWithin (length column.now.rows)) places.now }
    ensures ok { IfOk result (λ rows. rows ≡ picked column.now.rows places.now) }
    ensures err { IsOkUnless result ColumnError.OutOfMemory }
    ensures cost { OnOk result (steps.new ≡ steps.old + count_by is_some places.now) }
    ensures most { steps.new ≤ steps.old + count_by is_some places.now }
    ensures rise { steps.old ≤ steps.new }
{
    let mut rows = RowBuffer::new(alloc, column.dtype());
    for place in places {
        push_place(column, alloc, *place, &mut rows, steps)?;
    }
    Ok(rows)
}

/// Appends the row at a place, or a null where it is absent.
fn push_place<L: Ledger>(
    column: &FlatColumn,
    alloc: Global,
    place: Option<usize>,
    rows: &mut RowBuffer,
    steps: &mut Steps<L>,
) -> Res<()>
    requires { IsWithin (length column.now.rows) place }
    ensures ok { OnOk result (rows.new ≡ rows.old ++ picked_row column.now.rows place ∷ []) }
    ensures err { IsOkUnless result ColumnError.OutOfMemory }
    ensures cost { steps.new ≡ steps.old + cond (is_some place) 1 0 }
{
    match place {
        Some(place) => push_row(column, alloc, place, rows, steps),
        None => rows.push_null(alloc),
    }
}

/// The rows of the runs, one behind the other.
pub(crate) fn run_rows<L: Ledger>(
    column: &FlatColumn,
    alloc: Global,
    runs: &[(usize, usize)],
    steps: &mut Steps<L>,
) -> Res<RowBuffer>
    requires { All (IsInside (length column.now.rows)) runs.now }
    ensures ok { IfOk result (λ rows. rows ≡ joined_runs column.now.rows runs.now) }
    ensures err { IsOkUnless result ColumnError.OutOfMemory }
    ensures cost { OnOk result (steps.new ≡ steps.old + sum_by (λ run. run.1) runs.now) }
    ensures most { steps.new ≤ steps.old + sum_by (λ run. run.1) runs.now }
    ensures rise { steps.old ≤ steps.new }
{
    let mut rows = RowBuffer::new(alloc, column.dtype());
    for (start, count) in runs {
        push_run(column, alloc, *start, *count, &mut rows, steps)?;
    }
    Ok(rows)
}

/// Appends the rows of a run. One of no rows may start anywhere.
fn push_run<L: Ledger>(
    column: &FlatColumn,
    alloc: Global,
    start: usize,
    count: usize,
    rows: &mut RowBuffer,
    steps: &mut Steps<L>,
) -> Res<()>
    requires { IsInside (length column.now.rows) (start, count) }
    ensures ok { OnOk result (rows.new ≡ rows.old ++ slice_range column.now.rows start (start + count)) }
    ensures err { IsOkUnless result ColumnError.OutOfMemory }
    ensures cost { steps.new ≡ steps.old + count }
{
    if count == 0 {
        return Ok(());
    }
    // The run ends at a number.
    let _ = column.len();
    column.append_into(alloc, start..start + count, rows, steps)
}

/// The rows whose bit is true, each run of them at once.
pub(crate) fn kept_rows<L: Ledger>(
    column: &FlatColumn,
    alloc: Global,
    mask: &Mask,
    steps: &mut Steps<L>,
) -> Res<RowBuffer>
    requires { length (bits_of mask.now) ≡ length column.now.rows }
    ensures ok { IfOk result (λ rows. rows ≡ kept column.now.rows (bits_of mask.now)) }
    ensures err { IsOkUnless result ColumnError.OutOfMemory }
    ensures cost { OnOk result (steps.new ≡ steps.old + count_true (bits_of mask.now)) }
    ensures most { steps.new ≤ steps.old + count_true (bits_of mask.now) }
    ensures rise { steps.old ≤ steps.new }
{
    let mut rows = RowBuffer::new(alloc, column.dtype());
    let mut start = 0;
    for i in 0..mask.len() {
        start = keep_or_skip(column, alloc, mask.value(i), start..i, &mut rows, steps)?;
    }
    append(column, alloc, start..mask.len(), &mut rows, steps)?;
    Ok(rows)
}

/// Takes the bit behind a run of true ones, whose rows aren't appended yet. A true bit makes the run longer. Behind a false one
/// the run's rows are appended, and the next run starts. Gives where the run starts.
fn keep_or_skip<L: Ledger>(
    column: &FlatColumn,
    alloc: Global,
    bit: bool,
    run: Range<usize>,
    rows: &mut RowBuffer,
    steps: &mut Steps<L>,
) -> Res<usize>
    requires order { run.start ≤ run.end }
    requires inside { run.end < length column.now.rows }
    ensures start { IfOk result (λ start. start ≤ run.end + 1) }
    ensures ok { IfOk result (λ start. rows.new ++ slice_range column.now.rows start (run.end + 1)
        ≡ (rows.old ++ slice_range column.now.rows run.start run.end) ++ cond bit (get_or column.now.rows run.end None ∷ []) []) }
    ensures err { IsOkUnless result ColumnError.OutOfMemory }
    ensures cost { IfOk result (λ start. steps.new + 1 + run.start ≡ steps.old + start + cond bit 1 0) }
    ensures most { steps.new + run.start ≤ steps.old + run.end }
    ensures rise { steps.old ≤ steps.new }
{
    if bit {
        return Ok(run.start);
    }
    // The place behind one below the length is a number too.
    let _ = column.len();
    let next = run.end + 1;
    append(column, alloc, run, rows, steps)?;
    Ok(next)
}

/// Appends the rows of the range, of which there may be none.
fn append<L: Ledger>(
    column: &FlatColumn,
    alloc: Global,
    range: Range<usize>,
    rows: &mut RowBuffer,
    steps: &mut Steps<L>,
) -> Res<()>
    requires order { range.start ≤ range.end }
    requires inside { range.end ≤ length column.now.rows }
    ensures ok { OnOk result (rows.new ≡ rows.old ++ slice_range column.now.rows range.start range.end) }
    ensures err { IsOkUnless result ColumnError.OutOfMemory }
    ensures cost { steps.new ≡ steps.old + (range.end - range.start) }
{
    if range.start == range.end {
        return Ok(());
    }
    column.append_into(alloc, range, rows, steps)
}

/// The rows, with a null in place of each whose bit is false. Each run of rows that stay is appended at once.
pub(crate) fn masked_rows<L: Ledger>(
    column: &FlatColumn,
    alloc: Global,
    keep: &[bool],
    steps: &mut Steps<L>,
) -> Res<RowBuffer>
    requires { length keep.now ≡ length column.now.rows }
    ensures ok { IfOk result (λ rows. rows ≡ masked column.now.rows keep.now) }
    ensures err { IsOkUnless result ColumnError.OutOfMemory }
    ensures cost { OnOk result (steps.new ≡ steps.old + length column.now.rows) }
    ensures most { steps.new ≤ steps.old + length column.now.rows }
    ensures rise { steps.old ≤ steps.new }
{
    let mut rows = RowBuffer::new(alloc, column.dtype());
    let mut start = 0;
    for (i, bit) in keep.iter().enumerate() {
        start = keep_or_null(column, alloc, *bit, start..i, &mut rows, steps)?;
    }
    append(column, alloc, start..keep.len(), &mut rows, steps)?;
    Ok(rows)
}

/// Takes the bit behind a run of true ones, whose rows aren't appended yet. A true bit makes the run longer. Behind a false one
/// the run's rows are appended and then a null, and the next run starts. Gives where the run starts.
fn keep_or_null<L: Ledger>(
    column: &FlatColumn,
    alloc: Global,
    bit: bool,
    run: Range<usize>,
    rows: &mut RowBuffer,
    steps: &mut Steps<L>,
) -> Res<usize>
    requires order { run.start ≤ run.end }
    requires inside { run.end < length column.now.rows }
    ensures start { IfOk result (λ start. start ≤ run.end + 1) }
    ensures ok { IfOk result (λ start. rows.new ++ slice_range column.now.rows start (run.end + 1)
        ≡ (rows.old ++ slice_range column.now.rows run.start run.end) ++ cond bit (get_or column.now.rows run.end None) None ∷ []) }
    ensures err { IsOkUnless result ColumnError.OutOfMemory }
    ensures cost { IfOk result (λ start. steps.new + run.start ≡ steps.old + start) }
    ensures most { steps.new + run.start ≤ steps.old + run.end + 1 }
    ensures rise { steps.old ≤ steps.new }
{
    if bit {
        return Ok(run.start);
    }
    // The place behind one below the length is a number too.
    let _ = column.len();
    let next = run.end + 1;
    append(column, alloc, run, rows, steps)?;
    steps.tick();
    rows.push_null(alloc)?;
    Ok(next)
}
