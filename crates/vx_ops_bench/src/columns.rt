//! The columns that are measured.
ghost use Rattle.std.specs.Prelude.{IfOk};
ghost use Rattle.vx_column.specs.Columns.{IsSound};

use crate::rows::row_at;
use crate::{Layout, Measure};
use std::alloc::Global;
use vx_base::{ColumnError, DType, FlatColumn, Nullability, PType, Res, RowBuffer, Value};
use vx_column::{ChunkedArray, Column};

/// How many chunks a chunked column has.
const CHUNKS: u64 = 1000;

/// The type of the rows.
pub(crate) fn dtype(ptype: PType) -> DType {
    DType::Primitive(ptype, Nullability::Nullable)
}

/// The rows from one on.
fn flat(alloc: Global, first: u64, count: u64) -> Res<FlatColumn> {
    let dtype = dtype(PType::I64);
    let mut rows = RowBuffer::new(alloc, &dtype);
    for place in 0..count {
        let row = row_at(first.saturating_add(place));
        rows.push(alloc, row.map(|number| Value::Int(number as i128)))?;
    }
    if !rows.fits(&dtype) {
        return Err(ColumnError::MismatchedTypes);
    }
    FlatColumn::from_buffer(alloc, dtype, rows)
}

fn chunked(alloc: Global, first: u64, rows: u64) -> Res<Column>
    ensures { IfOk result IsSound }
{
    let size = rows.div_ceil(CHUNKS);
    let mut chunks = Vec::new(alloc);
    for chunk in 0..CHUNKS {
        let start = size.saturating_mul(chunk);
        let count = size.min(rows.saturating_sub(start));
        let rows = flat(alloc, first.saturating_add(start), count)?;
        chunks.push(Column::flat(rows))?;
    }
    let array = ChunkedArray::try_new(alloc, chunks, dtype(PType::I64))?;
    Ok(Column::Chunked(array))
}

/// The column of the rows from one on, in the layout that is measured.
pub(crate) fn column(alloc: Global, measure: Measure, first: u64) -> Res<Column>
    ensures { IfOk result IsSound }
{
    match measure.layout {
        Layout::Chunked => chunked(alloc, first, measure.rows),
        Layout::Flat | Layout::Plain => Ok(Column::flat(flat(alloc, first, measure.rows)?)),
    }
}
