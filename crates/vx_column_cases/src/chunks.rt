//! Chunked columns of the columns of parts.
ghost use Rattle.std.specs.Prelude.{All, IfOk};
ghost use Rattle.vx_column.specs.Columns.{IsSound};

use crate::opened::{Opened, column_of};
use crate::reading::{parts_of, type_of};
use serde_json::Value;
use std::io;
use vx_base::{DType, Res};
use vx_column::{ChunkedArray, Column};
use vx_job::Part;

fn columns_of(rt: &HostRuntime, parts: &[Part]) -> Res<Vec<Column>>
    ensures { IfOk result (λ columns. All IsSound columns.items) }
{
    let mut columns = Vec::new(rt.alloc());
    for part in parts {
        columns.push(column_of(rt, part)?)?;
    }
    Ok(columns)
}

/// The columns of the parts as chunks of this type.
fn of_type(rt: &HostRuntime, parts: &[Part], dtype: DType) -> Res<Opened> {
    let columns = columns_of(rt, parts)?;
    let array = ChunkedArray::try_new(rt.alloc(), columns, dtype)?;
    Ok(Opened::new(Column::Chunked(array)))
}

/// The columns of the parts as chunks of the first one's type.
fn of_first_type(rt: &HostRuntime, parts: &[Part]) -> Res<Opened> {
    let columns = columns_of(rt, parts)?;
    let array = ChunkedArray::try_from_chunks(rt.alloc(), columns)?;
    Ok(Opened::new(Column::Chunked(array)))
}

/// The chunked column of the parts, and of the type, that two values say.
pub(crate) fn chunks_of(
    rt: &HostRuntime,
    parts: &Value,
    dtype: Option<&Value>,
) -> io::Result<Res<Opened>> {
    let parts = parts_of(rt.alloc(), parts)?;
    match dtype {
        Some(dtype) => Ok(of_type(rt, parts.as_slice(), type_of(rt.alloc(), dtype)?)),
        None => Ok(of_first_type(rt, parts.as_slice())),
    }
}
