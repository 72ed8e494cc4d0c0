//! Calls on chunks of some lengths.
use serde_json::Value;
use std::alloc::{AllocError, Global};
use vx_base::{FlatColumn, Ledger, Res, Steps};
use vx_cases::{Asked, Call};
use vx_chunks::{Boundaries, SlicePlan};

/// Whom calls on chunks ask.
#[derive(Drop)]
pub(crate) struct Chunks {
    boundaries: Boundaries,
}

/// Chunks of these lengths.
pub(crate) fn chunks_of(alloc: Global, value: &Value) -> Res<Chunks> {
    let mut lens = Vec::new(alloc);
    if let Some(numbers) = value.as_array() {
        for number in numbers {
            lens.push(number.as_u64().unwrap_or(0) as usize)?;
        }
    }
    Ok(Chunks {
        boundaries: Boundaries::from_lengths(alloc, lens.as_slice())?,
    })
}

/// The boundaries as a column: their number, whether they are unsigned, and each of them.
fn array<L: Ledger>(
    alloc: Global,
    column: &FlatColumn,
    steps: &mut Steps<L>,
) -> Result<String, AllocError> {
    let mut text = format!(in alloc; "{:?}", column.dtype().nullability())?;
    if !column.is_unsigned() {
        text.push_str(" not unsigned")?;
        return Ok(text);
    }
    for i in 0..column.len() {
        write!(text, " {}", column.number_at(i, steps))?;
    }
    Ok(text)
}

fn find<L: Ledger>(
    alloc: Global,
    boundaries: &Boundaries,
    index: usize,
    steps: &mut Steps<L>,
) -> Result<String, AllocError> {
    if index > boundaries.len() {
        return String::from_str(alloc, "not allowed");
    }
    let (chunk, place) = boundaries.find_chunk_idx(index, steps);
    format!(in alloc; "chunk {chunk}, place {place}")
}

fn plan_text(alloc: Global, plan: SlicePlan) -> Result<String, AllocError> {
    match plan {
        SlicePlan::Whole => String::from_str(alloc, "whole"),
        SlicePlan::Empty => String::from_str(alloc, "empty"),
        SlicePlan::One { chunk, start, end } => {
            format!(in alloc; "chunk {chunk} from {start} to {end}")
        }
        SlicePlan::Many {
            first,
            first_start,
            last,
            last_end,
        } => {
            format!(in alloc; "chunk {first} from {first_start}, to chunk {last} to {last_end}")
        }
    }
}

fn plan<L: Ledger>(
    alloc: Global,
    boundaries: &Boundaries,
    call: &Call<'_>,
    steps: &mut Steps<L>,
) -> Result<String, AllocError> {
    let (start, end) = (call.number(1), call.number(2));
    if start > end || end > boundaries.len() {
        return String::from_str(alloc, "not allowed");
    }
    let plan = boundaries.plan_slice(start..end, steps);
    plan_text(alloc, plan)
}

fn chunk_len(alloc: Global, boundaries: &Boundaries, chunk: usize) -> Result<String, AllocError> {
    if chunk >= boundaries.nchunks() {
        return String::from_str(alloc, "not allowed");
    }
    format!(in alloc; "{}", boundaries.chunk_len(chunk))
}

impl Asked for Chunks {
    fn shape(&self, alloc: Global) -> Result<String, AllocError> {
        format!(in alloc;
            "chunks {}, rows {}",
            self.boundaries.nchunks(),
            self.boundaries.len()
        )
    }

    fn makes(&self, call: &Call<'_>) -> bool {
        call.name == "share"
    }

    fn made<L: Ledger>(
        &self,
        _alloc: Global,
        _call: &Call<'_>,
        _steps: &mut Steps<L>,
    ) -> Res<Option<Self>> {
        let boundaries = self.boundaries.share()?;
        Ok(Some(Chunks { boundaries }))
    }

    fn answer<L: Ledger>(
        &self,
        alloc: Global,
        call: &Call<'_>,
        steps: &mut Steps<L>,
    ) -> Res<String> {
        let boundaries = &self.boundaries;
        Ok(match call.name {
            "shape" => self.shape(alloc)?,
            "values" => format!(in alloc; "{:?}", boundaries.values())?,
            "array" => array(alloc, boundaries.array(), steps)?,
            "chunk_len" => chunk_len(alloc, boundaries, call.number(1))?,
            "find" => find(alloc, boundaries, call.number(1), steps)?,
            "plan" => plan(alloc, boundaries, call, steps)?,
            "search_cost" => format!(in alloc; "{}", boundaries.search_cost())?,
            _ => String::from_str(alloc, "no call of chunks")?,
        })
    }
}
