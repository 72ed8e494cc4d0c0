//! Calls that need no searcher.
ghost use Rattle.std.specs.Prelude.{◌<◌, ◌⊎◌};

use crate::asking::{not_allowed, side_of};
use serde_json::Value;
use std::alloc::{AllocError, Global};
use vx_base::{Ledger, Res, Steps};
use vx_cases::{Asked, Call};
use vx_search::{SearchResult, search_bound};

/// Answers
///
/// - `["bound",len]`, what a search may cost, and `["side",SIDE]`, the side's text;
/// - `["to_found",R]`, `["to_index",R]`, `["to_ends_index",R,len]` and `["to_offsets_index",R,len,SIDE]`, where R is a
///   result, as `{"Found":3}`.
#[derive(Drop)]
pub(crate) struct Alone {}

/// The result that a call says.
fn result_of(call: &Call<'_>) -> SearchResult {
    let said = call.argument(1);
    match said.get("Found").and_then(Value::as_u64) {
        Some(place) => SearchResult::Found(place as usize),
        None => SearchResult::NotFound(place_of(said.get("NotFound"))),
    }
}

fn place_of(value: Option<&Value>) -> usize {
    match value.and_then(Value::as_u64) {
        Some(place) => place as usize,
        None => 0,
    }
}

fn ends_index(alloc: Global, place: SearchResult, len: usize) -> Res<String> {
    if place.to_index() == 0 && len == 0 {
        return not_allowed(alloc);
    }
    Ok(format!(in alloc; "{}", place.to_ends_index(len))?)
}

impl Asked for Alone {
    fn shape(&self, alloc: Global) -> Result<String, AllocError> {
        Ok(String::new(alloc))
    }

    fn makes(&self, _call: &Call<'_>) -> bool {
        false
    }

    fn made<L: Ledger>(
        &self,
        _alloc: Global,
        _call: &Call<'_>,
        _steps: &mut Steps<L>,
    ) -> Res<Option<Self>> {
        Ok(None)
    }

    fn answer<L: Ledger>(
        &self,
        alloc: Global,
        call: &Call<'_>,
        _steps: &mut Steps<L>,
    ) -> Res<String> {
        let place = result_of(call);
        match call.name {
            "bound" => Ok(format!(in alloc; "{}", search_bound(call.number(1)))?),
            "side" => Ok(format!(in alloc; "{}", side_of(call, 1))?),
            "to_found" => Ok(format!(in alloc; "{:?}", place.to_found())?),
            "to_index" => Ok(format!(in alloc; "{}", place.to_index())?),
            "to_ends_index" => ends_index(alloc, place, call.number(2)),
            "to_offsets_index" => {
                let entry = place.to_offsets_index(call.number(2), side_of(call, 3));
                Ok(format!(in alloc; "{entry}")?)
            }
            _ => not_allowed(alloc),
        }
    }
}
