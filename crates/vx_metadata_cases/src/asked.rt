//! Calls on arrays.
//!
//! - `["slice",start,end]` makes the column of some rows;
//! - `["bytes"]`: the metadata, each byte as two hexadecimal digits, or `no bytes`;
//! - `["again"]` makes the array that its own metadata and children are the serialized form of;
//! - `["again_as",[byte,..]]` makes the array of its own children and other metadata;
//! - `["rows"]`: all rows.
ghost use Rattle.vx_column.specs.Columns.{IsSound};
ghost use Rattle.vx_column.specs.declared.column.Column.TheVariants.{Chunked as chunked_column, Patched as patched_column};

use crate::reading::bytes_of;
use std::alloc::{AllocError, Global};
use std::fmt::Write;
use std::marker::Model;
use vx_base::{Ledger, Res, Seq, Steps};
use vx_cases::columns::rows_text;
use vx_cases::{Asked, Call};
use vx_column::{ChunkedArray, Column, InterleaveArray, PatchedArray};
use vx_metadata::{SerializeChunked, SerializeInterleave, SerializePatched};

/// A column that calls ask, whose parts fit together.
pub(crate) struct AskedArray {
    column: Column,
}

impl Drop for AskedArray {
    fn drop(self) {
        let AskedArray { column: _ } = self;
    }
}

impl Model for AskedArray {
    ghost use Rattle.vx_column.specs.Columns.{IsSound};
    ghost use Rattle.vx_column.specs.declared.column.Column.{Column};
    ghost use Rattle.vx_column.specs.contracts.column.Column as column_row;

    ghost Value = { Column };

    ghost coded = { column_row.the_row.coded };

    ghost view = { λ asked. asked.column };

    ghost invariant = { λ asked. IsSound asked.column };
}

impl AskedArray {
    pub(crate) fn new(column: Column) -> Self
        requires { IsSound column }
    {
        AskedArray { column }
    }
}

fn sliced<L: Ledger>(
    alloc: Global,
    column: &Column,
    call: &Call<'_>,
    steps: &mut Steps<L>,
) -> Res<AskedArray>
    requires { IsSound column.now }
{
    let part = column.slice(alloc, call.number(1)..call.number(2), steps)?;
    Ok(AskedArray::new(part))
}

/// The metadata of a column; a flat one, or one with exceptions by row, has none.
fn metadata(alloc: Global, column: &Column) -> Res<Option<Seq<u8>>>
    requires { IsSound column.now }
{
    match column {
        Column::Chunked(array) => Ok(Some(array.serialize(alloc))),
        Column::Patched(array) => Ok(Some(array.serialize(alloc)?)),
        Column::Interleave(array) => Ok(Some(array.serialize()?)),
        _ => Ok(None),
    }
}

/// Chunks as an array again.
fn chunked_again<L: Ledger>(
    alloc: Global,
    array: &ChunkedArray,
    metadata: &[u8],
    steps: &mut Steps<L>,
) -> Res<AskedArray>
    requires { IsSound (chunked_column array.now) }
{
    let dtype = array.dtype().copy()?;
    let chunk_offsets = array.chunk_offsets_array().share()?;
    // Each chunk is sound.
    let _ = array.children();
    let chunks = array.chunks(alloc)?;
    let len = array.len();
    let again = ChunkedArray::deserialize(
        alloc,
        dtype,
        len,
        metadata,
        chunk_offsets,
        chunks,
        steps,
    )?;
    Ok(AskedArray::new(Column::Chunked(again)))
}

/// Lanes as an array again.
fn patched_again<L: Ledger>(
    alloc: Global,
    array: &PatchedArray,
    metadata: &[u8],
    steps: &mut Steps<L>,
) -> Res<AskedArray>
    requires { IsSound (patched_column array.now) }
{
    let dtype = array.dtype().copy()?;
    let lane_offsets = array.lane_offsets().share()?;
    let indices = array.patch_indices().share()?;
    let values = array.patch_values().share()?;
    let inner = array.inner().share(alloc)?;
    let len = array.lanes().len();
    let again = PatchedArray::deserialize(
        alloc,
        dtype,
        len,
        metadata,
        inner,
        lane_offsets,
        indices,
        values,
        steps,
    )?;
    Ok(AskedArray::new(Column::Patched(again)))
}

/// The array of a column's children and this metadata.
fn again<L: Ledger>(
    alloc: Global,
    column: &Column,
    metadata: &[u8],
    steps: &mut Steps<L>,
) -> Res<Option<AskedArray>>
    requires { IsSound column.now }
{
    match column {
        Column::Chunked(array) => Ok(Some(chunked_again(alloc, array, metadata, steps)?)),
        Column::Patched(array) => Ok(Some(patched_again(alloc, array, metadata, steps)?)),
        Column::Interleave(_) => {
            let _ = InterleaveArray::deserialize(metadata)?;
            Ok(None)
        }
        _ => Ok(None),
    }
}

/// The array of a column's children and its metadata.
fn read_back<L: Ledger>(
    alloc: Global,
    column: &Column,
    steps: &mut Steps<L>,
) -> Res<Option<AskedArray>>
    requires { IsSound column.now }
{
    match metadata(alloc, column)? {
        Some(bytes) => again(alloc, column, bytes.as_slice(), steps),
        None => Ok(None),
    }
}

/// The array of a column's children and the metadata of a call.
fn read_as<L: Ledger>(
    alloc: Global,
    column: &Column,
    call: &Call<'_>,
    steps: &mut Steps<L>,
) -> Res<Option<AskedArray>>
    requires { IsSound column.now }
{
    match bytes_of(alloc, call.argument(1)) {
        Ok(bytes) => again(alloc, column, bytes.as_slice(), steps),
        Err(_) => Ok(None),
    }
}

/// Bytes in hexadecimal digits, `no bytes` where there are none.
fn hex_text(alloc: Global, bytes: &[u8]) -> Result<String, AllocError> {
    if bytes.is_empty() {
        return String::from_str(alloc, "no bytes");
    }
    let mut text = String::new(alloc);
    for (i, byte) in bytes.iter().enumerate() {
        if i > 0 {
            text.push(' ')?;
        }
        write!(text, "{byte:02x}")?;
    }
    Ok(text)
}

/// The metadata as text.
fn bytes_text(alloc: Global, column: &Column) -> Res<String>
    requires { IsSound column.now }
{
    match metadata(alloc, column)? {
        Some(bytes) => Ok(hex_text(alloc, bytes.as_slice())?),
        None => Ok(String::from_str(alloc, "none")?),
    }
}

/// All rows.
fn rows<L: Ledger>(alloc: Global, column: &Column, steps: &mut Steps<L>) -> Res<String>
    requires { IsSound column.now }
{
    let mut rows = Seq::new(alloc);
    column.append_into(alloc, &mut rows, steps)?;
    Ok(rows_text(alloc, rows.as_slice())?)
}

impl Asked for AskedArray {
    fn shape(&self, alloc: Global) -> Result<String, AllocError> {
        format!(in alloc; "{}, rows {}", self.column.id(), self.column.len())
    }

    fn makes(&self, call: &Call<'_>) -> bool {
        matches!(call.name, "slice" | "again" | "again_as")
    }

    fn made<L: Ledger>(
        &self,
        alloc: Global,
        call: &Call<'_>,
        steps: &mut Steps<L>,
    ) -> Res<Option<Self>> {
        let column = &self.column;
        match call.name {
            "slice" => Ok(Some(sliced(alloc, column, call, steps)?)),
            "again" => read_back(alloc, column, steps),
            _ => read_as(alloc, column, call, steps),
        }
    }

    fn answer<L: Ledger>(
        &self,
        alloc: Global,
        call: &Call<'_>,
        steps: &mut Steps<L>,
    ) -> Res<String> {
        match call.name {
            "bytes" => bytes_text(alloc, &self.column),
            "rows" => rows(alloc, &self.column, steps),
            _ => Ok(String::from_str(alloc, "no call")?),
        }
    }
}
