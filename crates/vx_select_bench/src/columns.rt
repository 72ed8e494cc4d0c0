//! The columns that are selected from. Row i is i, but what stands in an exception is one more or the exception's number.
ghost use Rattle.std.specs.Prelude.{IfOk};
ghost use Rattle.vx_column.specs.Columns.{IsSound};

use crate::{Layout, Measure};
use std::alloc::Global;
use vx_base::{
    ColumnError, DType, FlatColumn, NoLedger, Nullability, PType, Res, RowBuffer, Steps, Value,
};
use vx_column::{ChunkedArray, Column, ExceptedArray, InterleaveArray, PatchedArray};

/// How many rows have one exception, and how many places of a lane.
const EVERY: u64 = 10;

/// How many chunks a chunked column has.
const CHUNKS: u64 = 1000;

/// How many rows have one chunk offset, and stand in one chunk of lanes.
const CHUNK: u64 = 1024;

/// How many lanes a chunk has.
const LANES: u64 = 16;

/// How many exceptions a lane has.
const PER_LANE: u64 = 7;

/// A list of numbers, each of which is told by its place.
#[derive(Clone, Copy)]
enum Numbers {
    /// From the first on, each greater by the step than the one before it.
    Rising { first: u64, step: u64 },
    /// How many exceptions stand before each chunk.
    ChunkOffsets,
    /// Where the exceptions of lanes stand in their chunks: at each tenth place of a lane.
    LaneIndices,
    /// 0 and 1 in turn.
    InTurn,
    /// Each number twice.
    Twice,
}

impl Numbers {
    fn at(self, place: u64) -> u64 {
        match self {
            Numbers::Rising { first, step } => first.wrapping_add(place.wrapping_mul(step)),
            Numbers::ChunkOffsets => place.wrapping_mul(CHUNK).div_ceil(EVERY),
            Numbers::LaneIndices => {
                place % PER_LANE * (EVERY * LANES) + place / PER_LANE % LANES
            }
            Numbers::InTurn => place % 2,
            Numbers::Twice => place / 2,
        }
    }
}

fn dtype_of(ptype: PType) -> DType {
    DType::Primitive(ptype, Nullability::NonNullable)
}

/// So many numbers of a list.
fn flat(alloc: Global, ptype: PType, numbers: Numbers, count: u64) -> Res<FlatColumn> {
    let dtype = dtype_of(ptype);
    let mut rows = RowBuffer::new(alloc, &dtype);
    for place in 0..count {
        rows.push(alloc, Some(Value::Int(numbers.at(place) as i128)))?;
    }
    if !rows.fits(&dtype) {
        return Err(ColumnError::MismatchedTypes);
    }
    FlatColumn::from_buffer(alloc, dtype, rows)
}

/// So many numbers from the first on, each greater by the step than the one before it.
fn rising(alloc: Global, first: u64, step: u64, count: u64) -> Res<FlatColumn> {
    flat(alloc, PType::I64, Numbers::Rising { first, step }, count)
}

fn chunked(alloc: Global, rows: u64) -> Res<Column>
    ensures { IfOk result IsSound }
{
    let size = rows.div_ceil(CHUNKS);
    let mut chunks = Vec::new(alloc);
    for chunk in 0..CHUNKS {
        let first = size.saturating_mul(chunk);
        let count = size.min(rows.saturating_sub(first));
        chunks.push(Column::flat(rising(alloc, first, 1, count)?))?;
    }
    let array = ChunkedArray::try_new(alloc, chunks, dtype_of(PType::I64))?;
    Ok(Column::Chunked(array))
}

fn excepted(alloc: Global, rows: u64) -> Res<Column>
    ensures { IfOk result IsSound }
{
    let count = rows.div_ceil(EVERY);
    let every = Numbers::Rising {
        first: 0,
        step: EVERY,
    };
    let base = rising(alloc, 0, 1, rows)?;
    let indices = flat(alloc, PType::U64, every, count)?;
    let values = rising(alloc, 1, EVERY, count)?;
    let chunk_offsets = flat(
        alloc,
        PType::U64,
        Numbers::ChunkOffsets,
        rows.div_ceil(CHUNK),
    )?;
    let array = ExceptedArray::try_new(
        alloc,
        Column::flat(base),
        0,
        indices,
        Column::flat(values),
        Some(chunk_offsets),
    )?;
    Ok(Column::Excepted(array))
}

fn lanes(rt: &HostRuntime, rows: u64) -> Res<Column>
    ensures { IfOk result IsSound }
{
    let alloc = rt.alloc();
    let lanes = rows.div_ceil(CHUNK).saturating_mul(LANES);
    let count = lanes.saturating_mul(PER_LANE);
    let starts = Numbers::Rising {
        first: 0,
        step: PER_LANE,
    };
    let inner = rising(alloc, 0, 1, rows)?;
    let lane_offsets = flat(alloc, PType::U32, starts, lanes.saturating_add(1))?;
    let indices = flat(alloc, PType::U16, Numbers::LaneIndices, count)?;
    let values = rising(alloc, 0, 1, count)?;
    let array = PatchedArray::try_new(
        alloc,
        Column::flat(inner),
        LANES as usize,
        0,
        lane_offsets,
        indices,
        values,
        &mut Steps::new(rt, NoLedger::new()),
    )?;
    Ok(Column::Patched(array))
}

fn interleaved(alloc: Global, rows: u64) -> Res<Column>
    ensures { IfOk result IsSound }
{
    let array_indices = flat(alloc, PType::U8, Numbers::InTurn, rows)?;
    let row_indices = flat(alloc, PType::U32, Numbers::Twice, rows)?;
    let mut values = Vec::new(alloc);
    for first in 0..2 {
        let count = rows.saturating_sub(first).div_ceil(2);
        values.push(Column::flat(rising(alloc, first, 2, count)?))?;
    }
    let array = InterleaveArray::try_new(alloc, values, array_indices, row_indices)?;
    Ok(Column::Interleave(array))
}

/// The column of the layout that is measured.
pub(crate) fn column(rt: &HostRuntime, measure: Measure) -> Res<Column>
    ensures { IfOk result IsSound }
{
    let alloc = rt.alloc();
    match measure.layout {
        Layout::Chunked => chunked(alloc, measure.rows),
        Layout::Excepted => excepted(alloc, measure.rows),
        Layout::Lanes => lanes(rt, measure.rows),
        Layout::Interleaved => interleaved(alloc, measure.rows),
        Layout::Flat | Layout::Plain => Ok(Column::flat(rising(alloc, 0, 1, measure.rows)?)),
    }
}
