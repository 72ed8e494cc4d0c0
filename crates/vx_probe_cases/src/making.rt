//! Columns out of the JSON of a case.
ghost use Rattle.std.specs.Prelude.{All, IfOk};
ghost use Rattle.vx_column.specs.Columns.{IsSound};

use crate::asked::AskedColumn;
use serde_json::Value;
use std::alloc::Global;
use std::io;
use vx_base::{FlatColumn, NoLedger, Res, Steps};
use vx_cases::columns::{column_of, column_or_null, member, number};
use vx_column::{ChunkedArray, Column, ExceptedArray, InterleaveArray, PatchedArray};

/// The column that a case says.
pub(crate) fn asked_of(rt: &HostRuntime, case: &Value) -> io::Result<Res<AskedColumn>> {
    let alloc = rt.alloc();
    if let Some(flat) = case.get("flat") {
        Ok(Ok(AskedColumn::new(flat_of(alloc, flat)?)))
    } else if let Some(chunks) = case.get("chunks") {
        Ok(chunked(alloc, flats_of(alloc, chunks)?))
    } else if let Some(lanes) = case.get("lanes") {
        lanes_of(rt, lanes)
    } else if let Some(excepted) = case.get("excepted") {
        excepted_of(alloc, excepted)
    } else {
        interleaved_of(alloc, member(case, "interleaved")?)
    }
}

fn flat_of(alloc: Global, value: &Value) -> io::Result<Column>
    ensures { IfOk result IsSound }
{
    let rows = column_of(alloc, value)?;
    Ok(Column::flat(rows))
}

fn flats_of(alloc: Global, value: &Value) -> io::Result<Vec<Column>>
    ensures { IfOk result (λ columns. All IsSound columns.items) }
{
    let Some(values) = value.as_array() else {
        return Err(io::Error::other("columns are no list"));
    };
    let mut columns = Vec::new(alloc);
    for value in values {
        let column = flat_of(alloc, value)?;
        columns.push(column)?;
    }
    Ok(columns)
}

fn chunked(alloc: Global, chunks: Vec<Column>) -> Res<AskedColumn>
    requires { All IsSound chunks.items }
{
    let array = ChunkedArray::try_from_chunks(alloc, chunks)?;
    Ok(AskedColumn::new(Column::Chunked(array)))
}

fn lanes_of(rt: &HostRuntime, value: &Value) -> io::Result<Res<AskedColumn>> {
    let alloc = rt.alloc();
    let n_lanes = number(value, "n_lanes")?;
    let offset = number(value, "offset")?;
    let lane_offsets = column_of(alloc, member(value, "lane_offsets")?)?;
    let indices = column_of(alloc, member(value, "indices")?)?;
    let values = column_of(alloc, member(value, "values")?)?;
    let inner = flat_of(alloc, member(value, "inner")?)?;
    let mut steps = Steps::new(rt, NoLedger::new());
    let array = PatchedArray::try_new(
        alloc,
        inner,
        n_lanes,
        offset,
        lane_offsets,
        indices,
        values,
        &mut steps,
    );
    Ok(match array {
        Ok(array) => Ok(AskedColumn::new(Column::Patched(array))),
        Err(error) => Err(error),
    })
}

fn excepted_of(alloc: Global, value: &Value) -> io::Result<Res<AskedColumn>> {
    let offset = number(value, "offset")?;
    let indices = column_of(alloc, member(value, "indices")?)?;
    let chunk_offsets = column_or_null(alloc, member(value, "chunk_offsets")?)?;
    let base = flat_of(alloc, member(value, "base")?)?;
    let values = flat_of(alloc, member(value, "values")?)?;
    Ok(
        match ExceptedArray::try_new(alloc, base, offset, indices, values, chunk_offsets) {
            Ok(array) => Ok(AskedColumn::new(Column::Excepted(array))),
            Err(error) => Err(error),
        },
    )
}

fn interleaved_of(alloc: Global, value: &Value) -> io::Result<Res<AskedColumn>> {
    let array_indices = column_of(alloc, member(value, "array_indices")?)?;
    let row_indices = column_of(alloc, member(value, "row_indices")?)?;
    let values = flats_of(alloc, member(value, "values")?)?;
    Ok(interleaved(alloc, values, array_indices, row_indices))
}

fn interleaved(
    alloc: Global,
    values: Vec<Column>,
    array_indices: FlatColumn,
    row_indices: FlatColumn,
) -> Res<AskedColumn>
    requires { All IsSound values.items }
{
    let array = InterleaveArray::try_new(alloc, values, array_indices, row_indices)?;
    Ok(AskedColumn::new(Column::Interleave(array)))
}
