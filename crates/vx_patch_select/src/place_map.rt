//! The places of exceptions in a hash map.
ghost use Rattle.std.specs.Prelude.{◌≡◌, ℕ, ◌+◌, ◌≤◌, ◌<◌, length, Some, IfOk, OnOk, IsOkUnless, nat_eq, cond};
ghost use Rattle.std.specs.HashMap.{get};
ghost use Rattle.vx_rows.specs.declared.error.ColumnError.TheVariants.{OutOfMemory};
ghost use Rattle.vx_patches.specs.Places.{indices_of, rows_of};
ghost use Rattle.vx_patches.specs.Pairs.{value_at};
ghost use Rattle.vx_patch_select.specs.Plans.{placed};
ghost use Rattle.vx_patch_select.specs.Maps.{FindsPlaces};

use crate::lookup::Lookup;
use std::alloc::{AllocError, Global};
use std::collections::HashMap;
use std::marker::Model;
use vx_base::{Ledger, Res, Steps};
use vx_patches::Patches;

/// Exceptions whose places are looked up in a map from row to place.
#[derive(Drop)]
pub(crate) struct PlaceMap<'a> {
    patches: &'a Patches,
    places: HashMap<usize, usize>,
}

impl<'a> Model for PlaceMap<'a> {
    ghost use Rattle.vx_patches.specs.Places.{rows_of};
    ghost use Rattle.vx_patches.specs.Pairs.{Overlay, overlay_code};
    ghost use Rattle.vx_patch_select.specs.Maps.{FindsPlaces};

    ghost Value = { Overlay };

    ghost coded = { overlay_code };

    ghost view = { λ m. m.patches.now };

    ghost invariant = { λ m. FindsPlaces (rows_of m.patches.now.index) m.places };
}

impl<'a> PlaceMap<'a> {
    /// The map of these exceptions. Raises the steps by their number.
    pub(crate) fn new<L: Ledger>(
        patches: &'a Patches,
        alloc: Global,
        steps: &mut Steps<L>,
    ) -> Res<PlaceMap<'a>>
        ensures ok { IfOk result (λ map. map ≡ patches.now) }
        ensures err { IsOkUnless result OutOfMemory }
        ensures rise { steps.new ≤ steps.old + length (indices_of patches.now.index) }
        ensures monotone { steps.old ≤ steps.new }
    {
        let places = places_by_row(patches, alloc, steps)?;
        Ok(PlaceMap { patches, places })
    }
}

/// The place of each exception by its row.
fn places_by_row<L: Ledger>(
    patches: &Patches,
    alloc: Global,
    steps: &mut Steps<L>,
) -> Res<HashMap<usize, usize>>
    ensures ok { IfOk result (FindsPlaces (rows_of patches.now.index)) }
    ensures err { IsOkUnless result OutOfMemory }
    ensures rise { steps.new ≤ steps.old + length (indices_of patches.now.index) }
    ensures monotone { steps.old ≤ steps.new }
{
    let mut places = HashMap::new(alloc);
    let _row_count = patches.array_len();
    for place in 0..patches.num_patches() {
        put(&mut places, patches.row_at(place, steps), place)?;
    }
    Ok(places)
}

/// Puts a place at a row.
fn put(places: &mut HashMap<usize, usize>, row: usize, place: usize) -> Result<(), AllocError>
    ensures { OnOk result ((q : ℕ) → get nat_eq places.new q ≡ cond (nat_eq row q) (Some place) (get nat_eq places.old q)) }
{
    places.insert(row, place)?;
    Ok(())
}

impl<'a> Lookup for PlaceMap<'a> {
    ghost rows = { λ patches. rows_of patches.index };

    ghost lookup_cost = { λ _. 0 };

    fn place_of<L: Ledger>(&self, row: usize, steps: &mut Steps<L>) -> Option<usize>
        ensures place { result ≡ value_at row (placed (rows_of self.now.index)) }
        ensures rise { steps.new ≤ steps.old + 0 }
        ensures monotone { steps.old ≤ steps.new }
    {
        self.places.get(&row).copied()
    }
}
