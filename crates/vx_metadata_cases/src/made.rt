//! Arrays that cases make.
ghost use Rattle.std.specs.Prelude.{All};
ghost use Rattle.vx_column.specs.Columns.{IsSound};

use crate::asked::AskedArray;
use crate::reading::{bytes_of, column, columns, dtype, flat};
use serde_json::Value;
use std::alloc::Global;
use std::io;
use vx_base::{DType, FlatColumn, NoLedger, Res, Steps};
use vx_cases::columns::{member, number};
use vx_column::{ChunkedArray, Column, InterleaveArray, PatchedArray};
use vx_metadata::{SerializeChunked, SerializePatched};

fn chunked_array(alloc: Global, chunks: Vec<Column>, dtype: DType) -> Res<AskedArray>
    requires { All IsSound chunks.items }
{
    let array = ChunkedArray::try_new(alloc, chunks, dtype)?;
    Ok(AskedArray::new(Column::Chunked(array)))
}

fn chunked(alloc: Global, parts: &Value) -> io::Result<Res<AskedArray>> {
    let dtype = dtype(parts, "dtype")?;
    let chunks = columns(alloc, parts, "chunks")?;
    Ok(chunked_array(alloc, chunks, dtype))
}

/// The columns of a layout.
struct LaneColumns {
    lane_offsets: FlatColumn,
    indices: FlatColumn,
    values: FlatColumn,
}

impl Drop for LaneColumns {
    fn drop(self) {
        let LaneColumns {
            lane_offsets: _,
            indices: _,
            values: _,
        } = self;
    }
}

impl LaneColumns {
    fn read(alloc: Global, parts: &Value) -> io::Result<LaneColumns> {
        let lane_offsets = flat(alloc, parts, "lane_offsets")?;
        let indices = flat(alloc, parts, "indices")?;
        let values = flat(alloc, parts, "values")?;
        Ok(LaneColumns {
            lane_offsets,
            indices,
            values,
        })
    }

    /// The array of these columns over an inner one.
    fn over(self, rt: &HostRuntime, inner: Column, n_lanes: usize, offset: usize) -> Res<AskedArray>
        requires { IsSound inner }
    {
        let LaneColumns {
            lane_offsets,
            indices,
            values,
        } = self;
        let mut steps = Steps::new(rt, NoLedger::new());
        let array = PatchedArray::try_new(
            rt.alloc(),
            inner,
            n_lanes,
            offset,
            lane_offsets,
            indices,
            values,
            &mut steps,
        )?;
        Ok(AskedArray::new(Column::Patched(array)))
    }

    /// The array of this serialized form.
    fn read_over(
        self,
        rt: &HostRuntime,
        dtype: DType,
        len: usize,
        metadata: &[u8],
        inner: Column,
    ) -> Res<AskedArray>
        requires { IsSound inner }
    {
        let LaneColumns {
            lane_offsets,
            indices,
            values,
        } = self;
        let mut steps = Steps::new(rt, NoLedger::new());
        let array = PatchedArray::deserialize(
            rt.alloc(),
            dtype,
            len,
            metadata,
            inner,
            lane_offsets,
            indices,
            values,
            &mut steps,
        )?;
        Ok(AskedArray::new(Column::Patched(array)))
    }
}

fn patched(rt: &HostRuntime, parts: &Value) -> io::Result<Res<AskedArray>> {
    let n_lanes = number(parts, "n_lanes")?;
    let offset = number(parts, "offset")?;
    let lanes = LaneColumns::read(rt.alloc(), parts)?;
    let inner = column(rt.alloc(), parts, "inner")?;
    Ok(lanes.over(rt, inner, n_lanes, offset))
}

fn interleaved_array(
    alloc: Global,
    values: Vec<Column>,
    array_indices: FlatColumn,
    row_indices: FlatColumn,
) -> Res<AskedArray>
    requires { All IsSound values.items }
{
    let array = InterleaveArray::try_new(alloc, values, array_indices, row_indices)?;
    Ok(AskedArray::new(Column::Interleave(array)))
}

fn interleaved(alloc: Global, parts: &Value) -> io::Result<Res<AskedArray>> {
    let array_indices = flat(alloc, parts, "array_indices")?;
    let row_indices = flat(alloc, parts, "row_indices")?;
    let values = columns(alloc, parts, "values")?;
    Ok(interleaved_array(alloc, values, array_indices, row_indices))
}

fn read_chunks(
    rt: &HostRuntime,
    dtype: DType,
    len: usize,
    metadata: &[u8],
    chunk_offsets: FlatColumn,
    chunks: Vec<Column>,
) -> Res<AskedArray>
    requires { All IsSound chunks.items }
{
    let mut steps = Steps::new(rt, NoLedger::new());
    let array = ChunkedArray::deserialize(
        rt.alloc(),
        dtype,
        len,
        metadata,
        chunk_offsets,
        chunks,
        &mut steps,
    )?;
    Ok(AskedArray::new(Column::Chunked(array)))
}

fn read_chunked(rt: &HostRuntime, form: &Value) -> io::Result<Res<AskedArray>> {
    let len = number(form, "len")?;
    let metadata = bytes_of(rt.alloc(), member(form, "metadata")?)?;
    let dtype = dtype(form, "dtype")?;
    let chunk_offsets = flat(rt.alloc(), form, "chunk_offsets")?;
    let chunks = columns(rt.alloc(), form, "chunks")?;
    Ok(read_chunks(rt, dtype, len, metadata.as_slice(), chunk_offsets, chunks))
}

fn read_patched(rt: &HostRuntime, form: &Value) -> io::Result<Res<AskedArray>> {
    let len = number(form, "len")?;
    let metadata = bytes_of(rt.alloc(), member(form, "metadata")?)?;
    let dtype = dtype(form, "dtype")?;
    let lanes = LaneColumns::read(rt.alloc(), form)?;
    let inner = column(rt.alloc(), form, "inner")?;
    Ok(lanes.read_over(rt, dtype, len, metadata.as_slice(), inner))
}

/// What a case makes.
pub(crate) fn made_of(rt: &HostRuntime, case: &Value) -> io::Result<Res<AskedArray>> {
    if let Some(parts) = case.get("chunked") {
        chunked(rt.alloc(), parts)
    } else if let Some(parts) = case.get("patched") {
        patched(rt, parts)
    } else if let Some(parts) = case.get("interleaved") {
        interleaved(rt.alloc(), parts)
    } else if let Some(form) = case.get("read_chunked") {
        read_chunked(rt, form)
    } else {
        read_patched(rt, member(case, "read_patched")?)
    }
}
