//! Calls on the places of exceptions.
//!
//! - `["slice",start,end]`, `["share"]` and `["with_chunk_offsets",F]` make other places;
//! - `["shape"]`: the numbers of rows and of exceptions, the offset, and how many exceptions of the first chunk are cut away;
//! - `["parts"]`: how many indices there are, and whether there are chunk offsets;
//! - `["search",row]`, `["near",row]`: the place of a row, and from and to which place the exceptions of its chunk stand;
//! - `["places",start,end]`: which exceptions a slice keeps;
//! - `["search_cost"]`, `["cut_cost"]`: what a search and a cut end of a slice count at most.
use crate::text::place_text;
use serde_json::Value;
use std::alloc::{AllocError, Global};
use std::io;
use vx_base::{Ledger, Res, Steps};
use vx_cases::columns::{column_of, column_or_null, member, number};
use vx_cases::{Asked, Call};
use vx_patches::PatchIndex;

/// The places that calls ask.
#[derive(Drop)]
pub(crate) struct AskedPlaces {
    places: PatchIndex,
}

/// The places that a case says.
pub(crate) fn places_of(alloc: Global, value: &Value) -> io::Result<Res<AskedPlaces>> {
    let len = number(value, "len")?;
    let offset = number(value, "offset")?;
    let indices = column_of(alloc, member(value, "indices")?)?;
    let chunk_offsets = column_or_null(alloc, member(value, "chunk_offsets")?)?;
    Ok(asked(PatchIndex::try_new(alloc, len, offset, indices, chunk_offsets)))
}

fn asked(made: Res<PatchIndex>) -> Res<AskedPlaces> {
    Ok(AskedPlaces { places: made? })
}

fn parts_text(places: &PatchIndex, alloc: Global) -> Res<String> {
    Ok(format!(in alloc;
        "indices {}, chunk offsets {}",
        places.indices().len(),
        places.chunk_offsets().is_some()
    )?)
}

fn near_text<L: Ledger>(
    places: &PatchIndex,
    alloc: Global,
    row: usize,
    steps: &mut Steps<L>,
) -> Res<String> {
    if row >= places.array_len() {
        return Ok(String::from_str(alloc, "not allowed")?);
    }
    let near = places.places_near(row, steps);
    Ok(format!(in alloc; "{near:?}")?)
}

/// Which exceptions a slice keeps, as text.
fn kept_text<L: Ledger>(
    places: &PatchIndex,
    alloc: Global,
    call: &Call<'_>,
    steps: &mut Steps<L>,
) -> Res<String> {
    match places.slice(call.number(1)..call.number(2), steps)? {
        Some((_, kept)) => Ok(format!(in alloc; "{kept:?}")?),
        None => Ok(String::from_str(alloc, "none")?),
    }
}

fn cost_text(alloc: Global, cost: u64) -> Res<String> {
    Ok(format!(in alloc; "{cost}")?)
}

/// The places with the chunk offsets of a call; None where the call gives none that can be read.
fn with_offsets(places: &PatchIndex, alloc: Global, call: &Call<'_>) -> Res<Option<AskedPlaces>> {
    let Ok(chunk_offsets) = column_or_null(alloc, call.argument(1)) else {
        return Ok(None);
    };
    let shared = places.share()?;
    let places = shared.with_chunk_offsets(alloc, chunk_offsets)?;
    Ok(Some(AskedPlaces { places }))
}

fn part<L: Ledger>(
    places: &PatchIndex,
    call: &Call<'_>,
    steps: &mut Steps<L>,
) -> Res<Option<AskedPlaces>> {
    match places.slice(call.number(1)..call.number(2), steps)? {
        Some((places, _)) => Ok(Some(AskedPlaces { places })),
        None => Ok(None),
    }
}

impl Asked for AskedPlaces {
    fn shape(&self, alloc: Global) -> Result<String, AllocError> {
        format!(in alloc;
            "rows {}, exceptions {}, offset {}, cut away {:?}",
            self.places.array_len(),
            self.places.num_patches(),
            self.places.offset(),
            self.places.offset_within_chunk()
        )
    }

    fn makes(&self, call: &Call<'_>) -> bool {
        matches!(call.name, "slice" | "share" | "with_chunk_offsets")
    }

    fn made<L: Ledger>(
        &self,
        alloc: Global,
        call: &Call<'_>,
        steps: &mut Steps<L>,
    ) -> Res<Option<Self>> {
        match call.name {
            "slice" => part(&self.places, call, steps),
            "with_chunk_offsets" => with_offsets(&self.places, alloc, call),
            _ => Ok(Some(AskedPlaces {
                places: self.places.share()?,
            })),
        }
    }

    fn answer<L: Ledger>(
        &self,
        alloc: Global,
        call: &Call<'_>,
        steps: &mut Steps<L>,
    ) -> Res<String> {
        let places = &self.places;
        match call.name {
            "shape" => Ok(self.shape(alloc)?),
            "parts" => parts_text(places, alloc),
            "search" => place_text(alloc, places.search_index(call.number(1), steps)),
            "near" => near_text(places, alloc, call.number(1), steps),
            "places" => kept_text(places, alloc, call, steps),
            "search_cost" => cost_text(alloc, places.search_cost()),
            "cut_cost" => cost_text(alloc, places.cut_cost()),
            _ => Ok(String::from_str(alloc, "no call of places")?),
        }
    }
}
