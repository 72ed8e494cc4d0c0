//! Calls on a mask.
ghost use Rattle.std.specs.Prelude.{◌<◌, ◌≤◌, All, IsTrue, ◌↔◌};

use crate::reading::{bits_of, bits_text, number_of, numbers_of, pairs_of};
use serde_json::Value;
use std::alloc::{AllocError, Global};
use vx_base::{ColumnError, Ledger, Path, Res, Steps};
use vx_cases::{Asked, Call};
use vx_masks::Mask;

/// Whom calls on a mask ask.
#[derive(Drop)]
pub(crate) struct Masks {
    mask: Mask,
}

/// The mask of a case. One that may not be made is refused as `Unsupported`.
pub(crate) fn masks_of(alloc: Global, case: &Value) -> Res<Masks> {
    let len = number_of(case.get("len"));
    let mask = if let Some(indices) = case.get("indices") {
        from_indices(alloc, len, indices)?
    } else if let Some(slices) = case.get("slices") {
        from_slices(alloc, len, slices)?
    } else {
        let bits = bits_of(alloc, case.get("bits").and_then(Value::as_str))?;
        Mask::from_bits(alloc, bits.as_slice())?
    };
    Ok(Masks { mask })
}

fn from_indices(alloc: Global, len: usize, value: &Value) -> Res<Mask> {
    let indices = numbers_of(alloc, value)?;
    if !are_below(indices.as_slice(), len) {
        return Err(ColumnError::Unsupported {
            at: Path::empty(alloc),
        });
    }
    Mask::from_indices(alloc, len, indices.as_slice())
}

fn from_slices(alloc: Global, len: usize, value: &Value) -> Res<Mask> {
    let slices = pairs_of(alloc, value)?;
    if !are_within(slices.as_slice(), len) {
        return Err(ColumnError::Unsupported {
            at: Path::empty(alloc),
        });
    }
    Mask::from_slices(alloc, len, slices.as_slice())
}

/// Whether the indices are below a length.
fn are_below(indices: &[usize], len: usize) -> bool
    ensures { IsTrue result ↔ All (λ i. i < len) indices.now }
{
    indices.iter().all(|index| *index < len)
}

/// Whether no slice ends before it starts, or past a length.
fn are_within(slices: &[(usize, usize)], len: usize) -> bool
    ensures { IsTrue result ↔ All (λ s. (s.0 ≤ s.1) × (s.1 ≤ len)) slices.now }
{
    slices
        .iter()
        .all(|slice| slice.0 <= slice.1 && slice.1 <= len)
}

/// All bits, each asked for.
fn bits(alloc: Global, mask: &Mask) -> Result<Vec<bool>, AllocError> {
    let mut bits = Vec::new(alloc);
    for i in 0..mask.len() {
        bits.push(mask.value(i))?;
    }
    Ok(bits)
}

fn value(alloc: Global, mask: &Mask, i: usize) -> Result<String, AllocError> {
    if i >= mask.len() {
        return String::from_str(alloc, "not allowed");
    }
    format!(in alloc; "{}", mask.value(i))
}

fn rank(alloc: Global, mask: &Mask, i: usize) -> Result<String, AllocError> {
    if i > mask.len() {
        return String::from_str(alloc, "not allowed");
    }
    format!(in alloc; "{}", mask.rank(i))
}

fn indices(alloc: Global, mask: &Mask) -> Result<String, AllocError> {
    match mask.cached_indices() {
        Some(places) => format!(in alloc; "{places:?}"),
        None => String::from_str(alloc, "none"),
    }
}

/// The bits of the range; none where it isn't within the mask.
fn slice(alloc: Global, mask: &Mask, start: usize, end: usize) -> Res<Option<Masks>> {
    if start > end || end > mask.len() {
        return Ok(None);
    }
    let mask = mask.slice(alloc, start..end)?;
    Ok(Some(Masks { mask }))
}

/// The same mask with its indices cached, so many times.
fn cached(alloc: Global, mask: &Mask, times: usize) -> Res<Option<Masks>> {
    let bits = bits(alloc, mask)?;
    let mut mask = Mask::from_bits(alloc, bits.as_slice())?;
    for _done in 0..times {
        mask = mask.with_cached_indices(alloc)?;
    }
    Ok(Some(Masks { mask }))
}

impl Asked for Masks {
    fn shape(&self, alloc: Global) -> Result<String, AllocError> {
        match &self.mask {
            Mask::AllTrue(len) => format!(in alloc; "all true {len}"),
            Mask::AllFalse(len) => format!(in alloc; "all false {len}"),
            Mask::Values(_) => format!(in alloc; "values {}", self.mask.len()),
        }
    }

    fn makes(&self, call: &Call<'_>) -> bool {
        matches!(call.name, "slice" | "cached")
    }

    fn made<L: Ledger>(
        &self,
        alloc: Global,
        call: &Call<'_>,
        _steps: &mut Steps<L>,
    ) -> Res<Option<Self>> {
        match call.name {
            "slice" => slice(alloc, &self.mask, call.number(1), call.number(2)),
            _ => cached(alloc, &self.mask, call.number(1)),
        }
    }

    fn answer<L: Ledger>(
        &self,
        alloc: Global,
        call: &Call<'_>,
        _steps: &mut Steps<L>,
    ) -> Res<String> {
        let mask = &self.mask;
        Ok(match call.name {
            "shape" => self.shape(alloc)?,
            "bits" => bits_text(alloc, bits(alloc, mask)?.as_slice())?,
            "len" => format!(in alloc; "{}", mask.len())?,
            "true_count" => format!(in alloc; "{}", mask.true_count())?,
            "value" => value(alloc, mask, call.number(1))?,
            "rank" => rank(alloc, mask, call.number(1))?,
            "indices" => indices(alloc, mask)?,
            _ => String::from_str(alloc, "no call of masks")?,
        })
    }
}
