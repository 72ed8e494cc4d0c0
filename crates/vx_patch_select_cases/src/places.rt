//! Calls on the places of exceptions. B are bits, as `"101"`.
//!
//! - `["plan_filter",B]`, `["plan_filter_cached",B]`: what a filter keeps, by a mask without cached indices and with them;
//! - `["plan_mask",B]`: which exceptions a mask leaves;
//! - `["plan_take",[i],nulls]`: what a take keeps of these indices, and whether for an index that is absent an entry stands.
use crate::masks::{indices_of, mask_of};
use serde_json::Value;
use std::alloc::{AllocError, Global};
use std::io;
use vx_base::{Ledger, Res, Steps};
use vx_cases::columns::{column_of, column_or_null, member, number};
use vx_cases::{Asked, Call};
use vx_masks::Mask;
use vx_patch_select::SelectPlaces;
use vx_patches::PatchIndex;

/// The places that calls ask.
#[derive(Drop)]
pub(crate) struct AskedPlaces {
    places: PatchIndex,
}

/// The places that a case says.
pub(crate) fn places_of(alloc: Global, value: &Value) -> io::Result<Res<AskedPlaces>> {
    let len = number(value, "len")?;
    let offset = number(value, "offset")?;
    let indices = column_of(alloc, member(value, "indices")?)?;
    let chunk_offsets = column_or_null(alloc, member(value, "chunk_offsets")?)?;
    Ok(asked(PatchIndex::try_new(alloc, len, offset, indices, chunk_offsets)))
}

fn asked(made: Res<PatchIndex>) -> Res<AskedPlaces> {
    Ok(AskedPlaces { places: made? })
}

fn kept_text<L: Ledger>(
    places: &PatchIndex,
    alloc: Global,
    mask: &Mask,
    steps: &mut Steps<L>,
) -> Res<String> {
    if mask.len() != places.array_len() {
        return Ok(String::from_str(alloc, "not allowed")?);
    }
    let kept = places.plan_filter(alloc, mask, steps)?;
    Ok(format!(in alloc;
        "{:?} at {:?}",
        kept.places.as_slice(),
        kept.indices.as_slice()
    )?)
}

fn left_text<L: Ledger>(
    places: &PatchIndex,
    alloc: Global,
    mask: &Mask,
    steps: &mut Steps<L>,
) -> Res<String> {
    if mask.len() != places.array_len() {
        return Ok(String::from_str(alloc, "not allowed")?);
    }
    let left = places.plan_mask(alloc, mask, steps)?;
    Ok(format!(in alloc; "{:?}", left.as_slice())?)
}

fn cached_text<L: Ledger>(
    places: &PatchIndex,
    alloc: Global,
    bits: &Value,
    steps: &mut Steps<L>,
) -> Res<String> {
    let mask = mask_of(alloc, bits)?.with_cached_indices(alloc)?;
    kept_text(places, alloc, &mask, steps)
}

fn taken_text<L: Ledger>(
    places: &PatchIndex,
    alloc: Global,
    call: &Call<'_>,
    steps: &mut Steps<L>,
) -> Res<String> {
    let indices = indices_of(alloc, call.argument(1))?;
    let include_nulls = call.argument(2).as_bool().unwrap_or(false);
    let taken = places.plan_take(alloc, indices.as_slice(), include_nulls, steps)?;
    Ok(format!(in alloc;
        "{:?} at {:?}",
        taken.places.as_slice(),
        taken.indices.as_slice()
    )?)
}

impl Asked for AskedPlaces {
    fn shape(&self, alloc: Global) -> Result<String, AllocError> {
        format!(in alloc;
            "rows {}, exceptions {}",
            self.places.array_len(),
            self.places.num_patches()
        )
    }

    fn makes(&self, _call: &Call<'_>) -> bool {
        false
    }

    fn made<L: Ledger>(
        &self,
        _alloc: Global,
        _call: &Call<'_>,
        _steps: &mut Steps<L>,
    ) -> Res<Option<Self>> {
        Ok(None)
    }

    fn answer<L: Ledger>(
        &self,
        alloc: Global,
        call: &Call<'_>,
        steps: &mut Steps<L>,
    ) -> Res<String> {
        let places = &self.places;
        match call.name {
            "plan_filter" => kept_text(places, alloc, &mask_of(alloc, call.argument(1))?, steps),
            "plan_filter_cached" => cached_text(places, alloc, call.argument(1), steps),
            "plan_mask" => left_text(places, alloc, &mask_of(alloc, call.argument(1))?, steps),
            "plan_take" => taken_text(places, alloc, call, steps),
            _ => Ok(String::from_str(alloc, "no call of places")?),
        }
    }
}
