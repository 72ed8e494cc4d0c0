//! Opening: the columns of parts.
ghost use Rattle.std.specs.Prelude.{◌≡◌, ◌+◌, ◌<◌, ◌≤◌, ◌∷◌, length, IfOk, IfErr, OnOk, IsOkUnless};
ghost use Rattle.vx_job.specs.Parts.{IsFaultOf, IsFaultUnder, IsFaultIn, Within, PartsCause};
ghost use Rattle.vx_job.specs.Parts.{part_open_cost, open_cost};
ghost use Rattle.vx_job.specs.declared.part.Part.TheVariants.{Flat as flat, Constant as constant, Chunked as chunked, Lanes as lanes, Excepted as excepted, Interleaved as interleaved};
ghost use Rattle.vx_plan.specs.Opened.{IsOpened, AreOpened};

use std::alloc::Global;
use vx_base::copy::copy_row;
use vx_base::{ColumnError, DType, FlatColumn, Ledger, Path, Res, Row, Steps};
use vx_column::{ChunkedArray, Column, ExceptedArray, InterleaveArray, PatchedArray};
use vx_job::Part;

/// The columns of a plan's parts, which share their rows. Refuses `UnknownColumn` where there is none.
pub fn open_parts<L: Ledger>(
    alloc: Global,
    parts: &[Part],
    steps: &mut Steps<L>,
) -> Res<Vec<Column>>
    ensures some { OnOk result (0 < length parts.now) }
    ensures ok { IfOk result (λ columns. AreOpened parts.now columns.items) }
    ensures err { IfErr result (λ e. PartsCause parts.now e) }
    ensures rise { steps.new ≤ steps.old + open_cost parts.now }
    ensures monotone { steps.old ≤ steps.new }
{
    if parts.is_empty() {
        return Err(ColumnError::UnknownColumn { number: 0 });
    }
    open_all(alloc, parts, steps)
}

/// The column of the part, or its first fault.
#[cycle(open)]
pub fn open_part<L: Ledger>(alloc: Global, part: &Part, steps: &mut Steps<L>) -> Res<Column>
    ensures ok { IfOk result (λ column. IsOpened part.now column) }
    ensures err { IfErr result (λ e. IsFaultOf part.now e) }
    ensures rise { steps.new ≤ steps.old + part_open_cost part.now }
    ensures monotone { steps.old ≤ steps.new }
{
    match part {
        Part::Flat(rows) => open_flat(rows),
        Part::Constant { dtype, row, len } => open_constant(alloc, dtype, row, *len),
        Part::Chunked { dtype, chunks } => open_chunked(alloc, chunks.as_slice(), dtype, steps),
        Part::Lanes {
            inner,
            n_lanes,
            offset,
            lane_offsets,
            indices,
            values,
        } => open_lanes(
            alloc,
            inner.get(),
            *n_lanes,
            *offset,
            lane_offsets,
            indices,
            values,
            steps,
        ),
        Part::Excepted {
            base,
            offset,
            indices,
            values,
            chunk_offsets,
        } => open_excepted(
            alloc,
            base.get(),
            *offset,
            indices,
            values.get(),
            chunk_offsets,
            steps,
        ),
        Part::Interleaved {
            values,
            array_indices,
            row_indices,
        } => open_interleaved(alloc, values.as_slice(), array_indices, row_indices, steps),
    }
}

fn open_flat(rows: &FlatColumn) -> Res<Column>
    ensures ok { IfOk result (λ column. IsOpened (flat rows.now) column) }
    ensures err { IfErr result (λ e. IsFaultOf (flat rows.now) e) }
{
    let rows = rows.share()?;
    Ok(Column::flat(rows))
}

fn open_constant(alloc: Global, dtype: &DType, row: &Row, len: usize) -> Res<Column>
    ensures ok { IfOk result (λ column. IsOpened (constant dtype.now row.now len) column) }
    ensures err { IfErr result (λ e. IsFaultOf (constant dtype.now row.now len) e) }
{
    let dtype = dtype.copy()?;
    let row = copy_row(alloc, row)?;
    let rows = FlatColumn::constant(alloc, dtype, row, len)?;
    Ok(Column::flat(rows))
}

#[cycle(open)]
fn open_chunked<L: Ledger>(
    alloc: Global,
    chunks: &[Part],
    dtype: &DType,
    steps: &mut Steps<L>,
) -> Res<Column>
    ensures ok { IfOk result (λ column. IsOpened (chunked dtype.now chunks.now) column) }
    ensures err { IfErr result (λ e. IsFaultOf (chunked dtype.now chunks.now) e) }
    ensures rise { steps.new ≤ steps.old + open_cost chunks.now }
    ensures monotone { steps.old ≤ steps.new }
{
    let columns = open_all(alloc, chunks, steps)?;
    let dtype = dtype.copy()?;
    let array = ChunkedArray::try_new(alloc, columns, dtype)?;
    Ok(Column::Chunked(array))
}

#[cycle(open)]
fn open_lanes<L: Ledger>(
    alloc: Global,
    inner: &Part,
    n_lanes: usize,
    offset: usize,
    lane_offsets: &FlatColumn,
    indices: &FlatColumn,
    values: &FlatColumn,
    steps: &mut Steps<L>,
) -> Res<Column>
    ensures ok { IfOk result (λ column. IsOpened (lanes inner.now n_lanes offset lane_offsets.now indices.now values.now) column) }
    ensures err { IfErr result (λ e. IsFaultOf (lanes inner.now n_lanes offset lane_offsets.now indices.now values.now) e) }
    ensures rise { steps.new ≤ steps.old + part_open_cost (lanes inner.now n_lanes offset lane_offsets.now indices.now values.now) }
    ensures monotone { steps.old ≤ steps.new }
{
    let inner = open_child(alloc, 0, inner, steps)?;
    let lane_offsets = lane_offsets.share()?;
    let indices = indices.share()?;
    let values = values.share()?;
    let array = PatchedArray::try_new(
        alloc,
        inner,
        n_lanes,
        offset,
        lane_offsets,
        indices,
        values,
        steps,
    )?;
    Ok(Column::Patched(array))
}

#[cycle(open)]
fn open_excepted<L: Ledger>(
    alloc: Global,
    base: &Part,
    offset: usize,
    indices: &FlatColumn,
    values: &Part,
    chunk_offsets: &Option<FlatColumn>,
    steps: &mut Steps<L>,
) -> Res<Column>
    ensures ok { IfOk result (λ column. IsOpened (excepted base.now offset indices.now values.now chunk_offsets.now) column) }
    ensures err { IfErr result (λ e. IsFaultOf (excepted base.now offset indices.now values.now chunk_offsets.now) e) }
    ensures rise { steps.new ≤ steps.old + (part_open_cost base.now + part_open_cost values.now) }
    ensures monotone { steps.old ≤ steps.new }
{
    let base = open_child(alloc, 0, base, steps)?;
    let values = open_child(alloc, 1, values, steps)?;
    let indices = indices.share()?;
    let chunk_offsets = share_some(chunk_offsets)?;
    let array = ExceptedArray::try_new(alloc, base, offset, indices, values, chunk_offsets)?;
    Ok(Column::Excepted(array))
}

#[cycle(open)]
fn open_interleaved<L: Ledger>(
    alloc: Global,
    values: &[Part],
    array_indices: &FlatColumn,
    row_indices: &FlatColumn,
    steps: &mut Steps<L>,
) -> Res<Column>
    ensures ok { IfOk result (λ column. IsOpened (interleaved values.now array_indices.now row_indices.now) column) }
    ensures err { IfErr result (λ e. IsFaultOf (interleaved values.now array_indices.now row_indices.now) e) }
    ensures rise { steps.new ≤ steps.old + open_cost values.now }
    ensures monotone { steps.old ≤ steps.new }
{
    let columns = open_all(alloc, values, steps)?;
    let array_indices = array_indices.share()?;
    let row_indices = row_indices.share()?;
    let array = InterleaveArray::try_new(alloc, columns, array_indices, row_indices)?;
    Ok(Column::Interleave(array))
}

/// The columns of the parts in order, or the first fault, under the number of its part.
#[cycle(open)]
fn open_all<L: Ledger>(alloc: Global, parts: &[Part], steps: &mut Steps<L>) -> Res<Vec<Column>>
    ensures ok { IfOk result (λ columns. AreOpened parts.now columns.items) }
    ensures err { IfErr result (λ e. IsFaultIn parts.now e) }
    ensures rise { steps.new ≤ steps.old + open_cost parts.now }
    ensures monotone { steps.old ≤ steps.new }
{
    let mut columns = Vec::new(alloc);
    for (number, part) in parts.iter().enumerate() {
        columns.push(open_child(alloc, number, part, steps)?)?;
    }
    Ok(columns)
}

/// The column of the child of that number, or its first fault, under the number.
#[cycle(open)]
fn open_child<L: Ledger>(
    alloc: Global,
    number: usize,
    part: &Part,
    steps: &mut Steps<L>,
) -> Res<Column>
    ensures ok { IfOk result (λ column. IsOpened part.now column) }
    ensures err { IfErr result (λ e. IsFaultUnder number part.now e) }
    ensures rise { steps.new ≤ steps.old + part_open_cost part.now }
    ensures monotone { steps.old ≤ steps.new }
{
    match open_part(alloc, part, steps) {
        Ok(column) => Ok(column),
        Err(error) => Err(within(alloc, number, error)),
    }
}

/// Another handle on the rows, where there are some.
fn share_some(rows: &Option<FlatColumn>) -> Res<Option<FlatColumn>>
    ensures ok { IfOk result (λ shared. shared ≡ rows.now) }
    ensures err { IsOkUnless result ColumnError.OutOfMemory }
{
    match rows {
        None => Ok(None),
        Some(rows) => Ok(Some(rows.share()?)),
    }
}

/// The error of a child, as that of the part that holds it.
fn within(alloc: Global, number: usize, error: ColumnError) -> ColumnError
    ensures { Within number error result }
{
    match error {
        ColumnError::Malformed { at, rule } => match longer(alloc, number, at.as_slice()) {
            Ok(at) => ColumnError::Malformed { at, rule },
            Err(error) => error,
        },
        ColumnError::Unsupported { at } => match longer(alloc, number, at.as_slice()) {
            Ok(at) => ColumnError::Unsupported { at },
            Err(error) => error,
        },
        error => error,
    }
}

/// The path with a number before it.
fn longer(alloc: Global, number: usize, path: &[usize]) -> Res<Path>
    ensures ok { IfOk result (λ longer. longer ≡ number ∷ path.now) }
    ensures err { IsOkUnless result ColumnError.OutOfMemory }
{
    let mut numbers = Vec::new(alloc);
    numbers.push(number)?;
    numbers.extend_from_slice(path)?;
    Path::from_slice(alloc, numbers.as_slice())
}
