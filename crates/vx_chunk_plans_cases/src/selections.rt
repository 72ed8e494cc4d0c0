//! Selections of rows of chunks of some lengths: `["filter",[bit,..]]`, `["take",[index or null,..]]`, and
//! `["runs",[[start,length],..],len]`, where the lengths are to sum to `len`.
use crate::shown::{filters_text, runs_text, take_text};
use serde_json::Value;
use std::alloc::{AllocError, Global};
use vx_base::{Ledger, Res, Steps};
use vx_cases::{Asked, Call};
use vx_chunk_plans::SelectionPlans;
use vx_chunks::Boundaries;
use vx_masks::Mask;

/// Whom selections ask.
#[derive(Drop)]
pub(crate) struct Chunks {
    boundaries: Boundaries,
}

/// Chunks of these lengths.
pub(crate) fn chunks_of(alloc: Global, value: &Value) -> Res<Chunks> {
    let mut lens = Vec::new(alloc);
    if let Some(numbers) = value.as_array() {
        for number in numbers {
            lens.push(number.as_u64().unwrap_or(0) as usize)?;
        }
    }
    Ok(Chunks {
        boundaries: Boundaries::from_lengths(alloc, lens.as_slice())?,
    })
}

fn bits_of(alloc: Global, value: &Value) -> Result<Vec<bool>, AllocError> {
    let mut bits = Vec::new(alloc);
    if let Some(values) = value.as_array() {
        for value in values {
            bits.push(value.as_bool().unwrap_or(false))?;
        }
    }
    Ok(bits)
}

fn indices_of(alloc: Global, value: &Value) -> Result<Vec<Option<usize>>, AllocError> {
    let mut indices = Vec::new(alloc);
    if let Some(values) = value.as_array() {
        for value in values {
            match value.as_u64() {
                Some(index) => indices.push(Some(index as usize))?,
                None => indices.push(None)?,
            }
        }
    }
    Ok(indices)
}

fn number_at(value: &Value, at: usize) -> usize {
    match value.get(at).and_then(Value::as_u64) {
        Some(number) => number as usize,
        None => 0,
    }
}

fn runs_of(alloc: Global, value: &Value) -> Result<Vec<(usize, usize)>, AllocError> {
    let mut runs = Vec::new(alloc);
    if let Some(values) = value.as_array() {
        for value in values {
            runs.push((number_at(value, 0), number_at(value, 1)))?;
        }
    }
    Ok(runs)
}

fn filter<L: Ledger>(
    alloc: Global,
    boundaries: &Boundaries,
    bits: &[bool],
    steps: &mut Steps<L>,
) -> Res<String> {
    let mask = Mask::from_bits(alloc, bits)?;
    if mask.len() != boundaries.len() {
        return Ok(String::from_str(alloc, "not allowed")?);
    }
    let filters = boundaries.plan_filter(alloc, &mask, steps)?;
    Ok(filters_text(alloc, boundaries, filters.as_slice())?)
}

fn take<L: Ledger>(
    alloc: Global,
    boundaries: &Boundaries,
    indices: &[Option<usize>],
    steps: &mut Steps<L>,
) -> Res<String> {
    let plan = boundaries.plan_take(alloc, indices, steps)?;
    Ok(take_text(alloc, boundaries, &plan)?)
}

fn runs<L: Ledger>(
    alloc: Global,
    boundaries: &Boundaries,
    runs: &[(usize, usize)],
    len: usize,
    steps: &mut Steps<L>,
) -> Res<String> {
    let plan = boundaries.plan_runs(alloc, runs, len, steps)?;
    Ok(runs_text(alloc, boundaries, &plan)?)
}

impl Asked for Chunks {
    fn shape(&self, alloc: Global) -> Result<String, AllocError> {
        format!(in alloc; "chunks {}", self.boundaries.nchunks())
    }

    fn makes(&self, _call: &Call<'_>) -> bool {
        false
    }

    fn made<L: Ledger>(
        &self,
        _alloc: Global,
        _call: &Call<'_>,
        _steps: &mut Steps<L>,
    ) -> Res<Option<Self>> {
        Ok(None)
    }

    fn answer<L: Ledger>(
        &self,
        alloc: Global,
        call: &Call<'_>,
        steps: &mut Steps<L>,
    ) -> Res<String> {
        let boundaries = &self.boundaries;
        match call.name {
            "filter" => {
                let bits = bits_of(alloc, call.argument(1))?;
                filter(alloc, boundaries, bits.as_slice(), steps)
            }
            "take" => {
                let indices = indices_of(alloc, call.argument(1))?;
                take(alloc, boundaries, indices.as_slice(), steps)
            }
            "runs" => {
                let named = runs_of(alloc, call.argument(1))?;
                runs(alloc, boundaries, named.as_slice(), call.number(2), steps)
            }
            _ => Ok(String::from_str(alloc, "no selection")?),
        }
    }
}
