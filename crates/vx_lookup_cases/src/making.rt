//! Columns out of the JSON of a case.
ghost use Rattle.std.specs.Prelude.{All, IfOk};
ghost use Rattle.vx_column.specs.Columns.{IsSound};

use crate::asked::AskedColumn;
use serde_json::Value;
use std::alloc::Global;
use std::io;
use vx_base::Res;
use vx_cases::columns::{column_of, member};
use vx_column::{ChunkedArray, Column};

/// The column that a case says.
pub(crate) fn asked_of(alloc: Global, case: &Value) -> io::Result<Res<AskedColumn>> {
    if let Some(chunks) = case.get("chunks") {
        return Ok(chunked(alloc, flats_of(alloc, chunks)?));
    }
    let column = flat_of(alloc, member(case, "flat")?)?;
    Ok(Ok(AskedColumn::new(column)))
}

pub(crate) fn flat_of(alloc: Global, value: &Value) -> io::Result<Column>
    ensures { IfOk result IsSound }
{
    let rows = column_of(alloc, value)?;
    Ok(Column::flat(rows))
}

fn flats_of(alloc: Global, value: &Value) -> io::Result<Vec<Column>>
    ensures { IfOk result (λ columns. All IsSound columns.items) }
{
    let Some(values) = value.as_array() else {
        return Err(io::Error::other("columns are no list"));
    };
    let mut columns = Vec::new(alloc);
    for value in values {
        let column = flat_of(alloc, value)?;
        columns.push(column)?;
    }
    Ok(columns)
}

fn chunked(alloc: Global, chunks: Vec<Column>) -> Res<AskedColumn>
    requires { All IsSound chunks.items }
{
    let array = ChunkedArray::try_from_chunks(alloc, chunks)?;
    Ok(AskedColumn::new(Column::Chunked(array)))
}
