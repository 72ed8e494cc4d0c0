//! Calls on chunked columns.
ghost use Rattle.vx_column.specs.Columns.{IsSound};
ghost use Rattle.vx_column.specs.declared.column.Column.TheVariants.{Chunked as chunked_column};

use crate::opened::Opened;
use std::alloc::Global;
use vx_base::{Ledger, Res, Steps};
use vx_cases::Call;
use vx_column::{ChunkedArray, Column};

/// What the column reduces to, if it is chunked and there is such a column.
pub(crate) fn reduced(alloc: Global, column: &Column) -> Res<Option<Opened>>
    requires { IsSound column.now }
{
    let Column::Chunked(array) = column else {
        return Ok(None);
    };
    match array.reduce(alloc)? {
        Some(column) => Ok(Some(Opened::new(column))),
        None => Ok(None),
    }
}

/// Another handle on the chunk of this number.
pub(crate) fn chunk(alloc: Global, column: &Column, at: usize) -> Res<Option<Opened>>
    requires { IsSound column.now }
{
    match column {
        Column::Chunked(array) if at < array.nchunks() => {
            let chunk = array.chunk(at).share(alloc)?;
            Ok(Some(Opened::new(chunk)))
        }
        _ => Ok(None),
    }
}

/// The chunk and the place of an index, if the column is chunked and reaches to it.
pub(crate) fn place<L: Ledger>(
    alloc: Global,
    column: &Column,
    index: usize,
    steps: &mut Steps<L>,
) -> Res<String>
    requires { IsSound column.now }
{
    if index > column.len() {
        return Ok(String::from_str(alloc, "not allowed")?);
    }
    let Column::Chunked(array) = column else {
        return Ok(String::from_str(alloc, "no chunks")?);
    };
    let (chunk, place) = array.find_chunk_idx(index, steps);
    Ok(format!(in alloc; "chunk {chunk}, place {place}")?)
}

/// How many chunks have rows.
fn filled(array: &ChunkedArray) -> usize
    requires { IsSound (chunked_column array.now) }
{
    let mut count = 0usize;
    for _chunk in array.non_empty_chunks() {
        count = count.saturating_add(1);
    }
    count
}

/// What a call of chunked columns answers.
pub(crate) fn answer(alloc: Global, array: &ChunkedArray, call: &Call<'_>) -> Res<String>
    requires { IsSound (chunked_column array.now) }
{
    Ok(match call.name {
        "nchunks" => format!(in alloc; "{}", array.nchunks())?,
        "iter_chunks" => format!(in alloc; "{}", array.iter_chunks().count())?,
        "array_iterator" => format!(in alloc; "{}", array.array_iterator().count())?,
        "chunks" => format!(in alloc; "{}", array.chunks(alloc)?.len())?,
        "non_empty_chunks" => format!(in alloc; "{}", filled(array))?,
        "offsets" => format!(in alloc; "{:?}", array.chunk_offset_values())?,
        "offset_rows" => format!(in alloc; "{}", array.chunk_offsets_array().len())?,
        _ => String::from_str(alloc, "no call of chunked columns")?,
    })
}
