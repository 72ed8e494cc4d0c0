//! Calls on lane layouts.
ghost use Rattle.std.specs.Prelude.{◌≡◌, ◌+◌, ◌≤◌, IsTrue};
ghost use Rattle.vx_lanes.specs.Layouts.{chunks_of};

use crate::reading::rows_of;
use std::alloc::{AllocError, Global};
use std::hash::{DefaultHasher, Hash, Hasher};
use vx_base::{ColumnError, Ledger, Res, Steps};
use vx_cases::columns::rows_text;
use vx_cases::{Asked, Call};
use vx_lanes::layout::CHUNK;
use vx_lanes::{Lanes, PatchedData, PatchedSlots};

/// A layout that calls ask.
#[derive(Drop)]
pub(crate) struct AskedLanes {
    pub(crate) lanes: Lanes,
}

/// How many chunks the rows stand in.
fn chunk_count(lanes: &Lanes) -> usize
    ensures { result ≡ chunks_of (lanes.now.offset + lanes.now.len) }
{
    (lanes.offset() + lanes.len()).div_ceil(CHUNK)
}

fn are_rows(lanes: &Lanes, start: usize, end: usize) -> bool
    ensures ordered { IsTrue result → start ≤ end }
    ensures inside { IsTrue result → end ≤ lanes.now.len }
{
    start <= end && end <= lanes.len()
}

fn are_chunks(lanes: &Lanes, start: usize, end: usize) -> bool
    ensures ordered { IsTrue result → start ≤ end }
    ensures inside { IsTrue result → end ≤ chunks_of (lanes.now.offset + lanes.now.len) }
{
    start <= end && end <= chunk_count(lanes)
}

fn not_allowed(alloc: Global) -> Result<String, AllocError> {
    String::from_str(alloc, "not allowed")
}

/// Where the exceptions of a chunk's lane stand.
fn lane_range<L: Ledger>(
    alloc: Global,
    lanes: &Lanes,
    call: &Call<'_>,
    steps: &mut Steps<L>,
) -> Result<String, AllocError> {
    let (chunk, lane) = (call.number(1), call.number(2));
    if chunk >= chunk_count(lanes) || lane >= lanes.n_lanes() {
        return not_allowed(alloc);
    }
    let range = lanes.lane_range(chunk, lane, steps);
    format!(in alloc; "{}..{}", range.start, range.end)
}

/// The number of a row's exception.
fn find<L: Ledger>(
    alloc: Global,
    lanes: &Lanes,
    row: usize,
    steps: &mut Steps<L>,
) -> Result<String, AllocError> {
    if row >= lanes.len() {
        return not_allowed(alloc);
    }
    match lanes.find(row, steps) {
        Some(exception) => format!(in alloc; "{exception}"),
        None => String::from_str(alloc, "none"),
    }
}

/// Each row that has an exception, and the exception's number behind it.
fn found<L: Ledger>(
    alloc: Global,
    lanes: &Lanes,
    steps: &mut Steps<L>,
) -> Result<String, AllocError> {
    let mut text = String::new(alloc);
    for row in 0..lanes.len() {
        if let Some(exception) = lanes.find(row, steps) {
            push_found(&mut text, row, exception)?;
        }
    }
    Ok(text)
}

fn push_found(text: &mut String, row: usize, exception: usize) -> Result<(), AllocError> {
    if !text.is_empty() {
        text.push(' ')?;
    }
    write!(text, "{row}:{exception}")?;
    Ok(())
}

/// The layout of some rows, or all of it where they aren't rows of it.
fn slice(lanes: &Lanes, call: &Call<'_>) -> Res<Lanes> {
    let (start, end) = (call.number(1), call.number(2));
    if are_rows(lanes, start, end) {
        lanes.slice(start..end)
    } else {
        lanes.share()
    }
}

/// The layout of some chunks, or all of it where they aren't chunks of it.
fn chunks(lanes: &Lanes, call: &Call<'_>) -> Res<Lanes> {
    let (start, end) = (call.number(1), call.number(2));
    if !are_chunks(lanes, start, end) {
        return lanes.share();
    }
    let (chunks, _rows) = lanes.slice_chunks(start..end)?;
    Ok(chunks)
}

/// The rows that chunks cover.
fn rows_of_chunks(alloc: Global, lanes: &Lanes, call: &Call<'_>) -> Res<String> {
    let (start, end) = (call.number(1), call.number(2));
    if !are_chunks(lanes, start, end) {
        return Ok(not_allowed(alloc)?);
    }
    let (_chunks, rows) = lanes.slice_chunks(start..end)?;
    Ok(format!(in alloc; "{}..{}", rows.start, rows.end)?)
}

/// Rows with the exceptions laid over them.
fn overlay<L: Ledger>(
    alloc: Global,
    lanes: &Lanes,
    call: &Call<'_>,
    steps: &mut Steps<L>,
) -> Res<String> {
    let Ok(mut rows) = rows_of(alloc, call.argument(1)) else {
        return Err(ColumnError::OutOfMemory);
    };
    if rows.len() != lanes.len() {
        return Ok(not_allowed(alloc)?);
    }
    lanes.overlay(rows.as_mut_slice(), steps);
    Ok(rows_text(alloc, rows.as_slice())?)
}

/// What the layout says of itself beside its children.
fn data_text(alloc: Global, lanes: &Lanes) -> Result<String, AllocError> {
    let data = PatchedData {
        n_lanes: lanes.n_lanes(),
        offset: lanes.offset(),
    };
    format!(in alloc; "{data}")
}

fn hash_of(data: &PatchedData) -> u64 {
    let mut state = DefaultHasher::new();
    data.hash(&mut state);
    state.finish()
}

/// Whether what the layout says of itself is the same as that of so many lanes and such an offset, and a copy of it too; where
/// it is, whether their hashes are the same.
fn same_data(alloc: Global, lanes: &Lanes, call: &Call<'_>) -> Result<String, AllocError> {
    let data = PatchedData {
        n_lanes: lanes.n_lanes(),
        offset: lanes.offset(),
    };
    let other = PatchedData {
        n_lanes: call.number(1),
        offset: call.number(2),
    };
    let copy = other.clone()?;
    let same = data == copy;
    format!(in alloc;
        "{same}, hashes {}",
        same && hash_of(&data) == hash_of(&other)
    )
}

/// The numbers of the slots of a patched array.
fn slots_text(alloc: Global) -> Result<String, AllocError> {
    let below = (PatchedSlots::INNER, PatchedSlots::LANE_OFFSETS);
    let exceptions = (PatchedSlots::PATCH_INDICES, PatchedSlots::PATCH_VALUES);
    format!(in alloc; "{} {} {} {}", below.0, below.1, exceptions.0, exceptions.1)
}

impl Asked for AskedLanes {
    fn shape(&self, alloc: Global) -> Result<String, AllocError> {
        format!(in alloc;
            "rows {}, lanes {}, offset {}, lane offsets {}, indices {}, values {}",
            self.lanes.len(),
            self.lanes.n_lanes(),
            self.lanes.offset(),
            self.lanes.lane_offsets().len(),
            self.lanes.patch_indices().len(),
            self.lanes.patch_values().len()
        )
    }

    fn makes(&self, call: &Call<'_>) -> bool {
        let (start, end) = (call.number(1), call.number(2));
        match call.name {
            "share" => true,
            "slice" => are_rows(&self.lanes, start, end),
            "chunks" => are_chunks(&self.lanes, start, end),
            _ => false,
        }
    }

    fn made<L: Ledger>(
        &self,
        _alloc: Global,
        call: &Call<'_>,
        _steps: &mut Steps<L>,
    ) -> Res<Option<Self>> {
        let lanes = match call.name {
            "slice" => slice(&self.lanes, call)?,
            "chunks" => chunks(&self.lanes, call)?,
            _ => self.lanes.share()?,
        };
        Ok(Some(AskedLanes { lanes }))
    }

    fn answer<L: Ledger>(
        &self,
        alloc: Global,
        call: &Call<'_>,
        steps: &mut Steps<L>,
    ) -> Res<String> {
        Ok(match call.name {
            "shape" => self.shape(alloc)?,
            "data" => data_text(alloc, &self.lanes)?,
            "same" => same_data(alloc, &self.lanes, call)?,
            "slots" => slots_text(alloc)?,
            "lane" => lane_range(alloc, &self.lanes, call, steps)?,
            "find" => find(alloc, &self.lanes, call.number(1), steps)?,
            "found" => found(alloc, &self.lanes, steps)?,
            "rows" => rows_of_chunks(alloc, &self.lanes, call)?,
            "overlay" => overlay(alloc, &self.lanes, call, steps)?,
            _ => not_allowed(alloc)?,
        })
    }
}
