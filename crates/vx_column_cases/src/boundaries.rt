//! Calls on the boundaries of chunks.
use crate::reading::numbers_of;
use serde_json::Value;
use std::alloc::{AllocError, Global};
use std::io;
use vx_base::{Ledger, Res, Steps};
use vx_cases::{Asked, Call};
use vx_chunks::Boundaries;

/// Boundaries that calls ask.
pub(crate) struct Bounds {
    boundaries: Boundaries,
}

impl Drop for Bounds {
    fn drop(self) {
        let Bounds { boundaries: _ } = self;
    }
}

fn made_of(alloc: Global, lengths: &[usize]) -> Res<Bounds> {
    let boundaries = Boundaries::from_lengths(alloc, lengths)?;
    Ok(Bounds { boundaries })
}

/// The boundaries of chunks of the lengths that a value says.
pub(crate) fn bounds_of(alloc: Global, value: &Value) -> io::Result<Res<Bounds>> {
    let lengths = numbers_of(alloc, value)?;
    Ok(made_of(alloc, lengths.as_slice()))
}

impl Asked for Bounds {
    fn shape(&self, alloc: Global) -> Result<String, AllocError> {
        format!(in alloc; "{} chunks", self.boundaries.nchunks())
    }

    fn makes(&self, _call: &Call<'_>) -> bool {
        false
    }

    fn made<L: Ledger>(
        &self,
        _alloc: Global,
        _call: &Call<'_>,
        _steps: &mut Steps<L>,
    ) -> Res<Option<Self>> {
        Ok(None)
    }

    fn answer<L: Ledger>(
        &self,
        alloc: Global,
        call: &Call<'_>,
        steps: &mut Steps<L>,
    ) -> Res<String> {
        let len = self.boundaries.len();
        let start = call.number(1);
        let end = call.number(2);
        Ok(match call.name {
            "find_chunk" if start <= len => {
                let (chunk, place) = self.boundaries.find_chunk_idx(start, steps);
                format!(in alloc; "chunk {chunk}, place {place}")?
            }
            "plan" if start <= end && end <= len => {
                let plan = self.boundaries.plan_slice(start..end, steps);
                format!(in alloc; "{plan:?}")?
            }
            "find_chunk" | "plan" => String::from_str(alloc, "not allowed")?,
            _ => String::from_str(alloc, "no call of boundaries")?,
        })
    }
}
