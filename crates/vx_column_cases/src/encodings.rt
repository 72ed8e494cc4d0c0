//! Calls on columns with exceptions by row or by lane, and on interleaved ones.
ghost use Rattle.std.specs.Prelude.{◌≡◌, ◌+◌};
ghost use Rattle.vx_lanes.specs.Layouts.{chunks_of};
ghost use Rattle.vx_column.specs.Columns.{IsSound, lanes_of};
ghost use Rattle.vx_column.specs.declared.column.Column.TheVariants.{Patched as patched_column, Excepted as excepted_column, Interleave as interleave_column};

use crate::column::rows;
use crate::opened::Opened;
use std::alloc::Global;
use vx_base::{Ledger, Res, Steps};
use vx_cases::Call;
use vx_column::{Column, ExceptedArray, InterleaveArray, PatchedArray};

/// How many places a chunk of lanes has.
const CHUNK: usize = 1024;

/// What a call of columns with exceptions by row answers.
pub(crate) fn excepted<L: Ledger>(
    alloc: Global,
    array: &ExceptedArray,
    call: &Call<'_>,
    steps: &mut Steps<L>,
) -> Res<String>
    requires { IsSound (excepted_column array.now) }
{
    Ok(match call.name {
        "parts" => format!(in alloc;
            "base {}, values {}, places {}",
            array.base().len(),
            array.values().len(),
            array.index().num_patches()
        )?,
        "indices" => rows(alloc, array.indices(), steps)?,
        "chunk_offsets" => match array.chunk_offsets() {
            Some(slot) => rows(alloc, slot, steps)?,
            None => String::from_str(alloc, "none")?,
        },
        _ => String::from_str(alloc, "no call of exceptions by row")?,
    })
}

/// How many chunks so many places are.
fn chunk_count(places: usize) -> usize
    ensures { result ≡ chunks_of places }
{
    places.div_ceil(CHUNK)
}

/// How many chunks the lanes of a column have.
fn lane_chunks(array: &PatchedArray) -> usize
    requires { IsSound (patched_column array.now) }
    ensures { result ≡ chunks_of ((lanes_of array.now).offset + (lanes_of array.now).len) }
{
    let len = array.lanes().len();
    chunk_count(array.offset() + len)
}

/// Where the exceptions of a lane of a chunk stand.
fn lane<L: Ledger>(
    alloc: Global,
    array: &PatchedArray,
    call: &Call<'_>,
    steps: &mut Steps<L>,
) -> Res<String>
    requires { IsSound (patched_column array.now) }
{
    let chunk = call.number(1);
    let lane = call.number(2);
    if chunk >= lane_chunks(array) || lane >= array.n_lanes() {
        return Ok(String::from_str(alloc, "not allowed")?);
    }
    let range = array.lane_range(chunk, lane, steps);
    Ok(format!(in alloc; "{range:?}")?)
}

/// The rows of these chunks, if the column is one of lanes and has them.
pub(crate) fn chunks_of_lanes<L: Ledger>(
    alloc: Global,
    column: &Column,
    call: &Call<'_>,
    steps: &mut Steps<L>,
) -> Res<Option<Opened>>
    requires { IsSound column.now }
{
    let Column::Patched(array) = column else {
        return Ok(None);
    };
    let start = call.number(1);
    let end = call.number(2);
    if start > end || end > lane_chunks(array) {
        return Ok(None);
    }
    let part = array.slice_chunks(alloc, start..end, steps)?;
    Ok(Some(Opened::new(Column::Patched(part))))
}

/// What a call of columns with exceptions by lane answers.
pub(crate) fn patched<L: Ledger>(
    alloc: Global,
    array: &PatchedArray,
    call: &Call<'_>,
    steps: &mut Steps<L>,
) -> Res<String>
    requires { IsSound (patched_column array.now) }
{
    Ok(match call.name {
        "layout" => format!(in alloc;
            "lanes {}, lane offsets {}, indices {}, values {}, offset {}",
            array.n_lanes(),
            array.lane_offsets().len(),
            array.patch_indices().len(),
            array.patch_values().len(),
            array.offset()
        )?,
        "inner" => format!(in alloc; "rows {}", array.inner().len())?,
        "lane" => lane(alloc, array, call, steps)?,
        _ => String::from_str(alloc, "no call of exceptions by lane")?,
    })
}

/// How many rows the value of this number has.
fn value(alloc: Global, array: &InterleaveArray, at: usize) -> Res<String>
    requires { IsSound (interleave_column array.now) }
{
    if at >= array.num_values() {
        return Ok(String::from_str(alloc, "not allowed")?);
    }
    Ok(format!(in alloc; "rows {}", array.value(at).len())?)
}

/// What a call of interleaved columns answers.
pub(crate) fn interleaved(alloc: Global, array: &InterleaveArray, call: &Call<'_>) -> Res<String>
    requires { IsSound (interleave_column array.now) }
{
    Ok(match call.name {
        "selectors" => format!(in alloc;
            "values {}, array indices {}, row indices {}",
            array.num_values(),
            array.array_indices().len(),
            array.row_indices().len()
        )?,
        "value" => value(alloc, array, call.number(1))?,
        _ => String::from_str(alloc, "no call of interleaved columns")?,
    })
}
