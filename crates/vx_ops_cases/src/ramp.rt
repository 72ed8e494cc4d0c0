//! Columns of many chunks, whose rows are their own numbers.
ghost use Rattle.std.specs.Prelude.{All, IfOk};
ghost use Rattle.vx_column.specs.Columns.{IsSound};

use crate::opened::Opened;
use serde_json::Value;
use std::alloc::Global;
use std::io;
use vx_base::{DType, FlatColumn, Res, RowBuffer};
use vx_cases::columns::{dtype_of, member, number};
use vx_column::{ChunkedArray, Column};

/// A flat column of the numbers from one on.
fn numbers_from(alloc: Global, dtype: &DType, first: usize, rows: usize) -> Res<Column>
    ensures { IfOk result IsSound }
{
    let mut buffer = RowBuffer::new(alloc, dtype);
    for k in 0..rows {
        buffer.push_int(alloc, first.saturating_add(k) as i128)?;
    }
    let copies = buffer.copies(alloc, 0..buffer.len())?;
    let flat = FlatColumn::try_new(alloc, dtype.copy()?, copies)?;
    Ok(Column::flat(flat))
}

fn chunks_of(alloc: Global, dtype: &DType, chunks: usize, rows: usize) -> Res<Vec<Column>>
    ensures { IfOk result (λ columns. All IsSound columns.items) }
{
    let mut columns = Vec::new(alloc);
    for k in 0..chunks {
        columns.push(numbers_from(alloc, dtype, k.saturating_mul(rows), rows)?)?;
    }
    Ok(columns)
}

fn ramp(alloc: Global, dtype: DType, chunks: usize, rows: usize) -> Res<Opened> {
    let columns = chunks_of(alloc, &dtype, chunks, rows)?;
    let array = ChunkedArray::try_new(alloc, columns, dtype)?;
    Ok(Opened::new(Column::Chunked(array)))
}

/// The chunked column that a case says.
pub(crate) fn ramp_of(alloc: Global, case: &Value) -> io::Result<Res<Opened>> {
    let Some(dtype) = member(case, "ramp")?.as_str().and_then(dtype_of) else {
        return Err(io::Error::other("a column has no type"));
    };
    let chunks = number(case, "chunks")?;
    let rows = number(case, "rows")?;
    Ok(ramp(alloc, dtype, chunks, rows))
}
