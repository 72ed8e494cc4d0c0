//! What takes name, exceptions being looked up by their row.
ghost use Rattle.std.specs.Prelude.{◌≡◌, ℕ, ◌+◌, ◌*◌, ◌≤◌, List, length, IfOk, OnOk, IsOkUnless};
ghost use Rattle.vx_rows.specs.declared.error.ColumnError.TheVariants.{OutOfMemory};
ghost use Rattle.vx_patches.specs.Places.{IsIndex, rows_of};
ghost use Rattle.vx_patches.specs.Pairs.{IsOverlay, value_at};
ghost use Rattle.vx_patches.specs.Search.{search_cost};
ghost use Rattle.vx_patch_select.specs.Selected.{named, taken_pairs};
ghost use Rattle.vx_patch_select.specs.Plans.{placed, placed_some, taken_of, IsTakenTo};

use crate::plan::Taken;
use std::alloc::Global;
use vx_base::{Ledger, Res, Steps};
use vx_patches::{PatchIndex, Patches};

/// Exceptions that are looked up by their row.
pub(crate) trait Lookup {
    /// The rows that have an exception.
    ghost rows: { Self → List ℕ };

    /// The most that looking one up raises the steps by.
    ghost lookup_cost: { Self → ℕ };

    /// The place of the exception of a row, if it has one.
    fn place_of<L: Ledger>(&self, row: usize, steps: &mut Steps<L>) -> Option<usize>
        ensures place { result ≡ value_at row (placed (rows self.now)) }
        ensures rise { steps.new ≤ steps.old + lookup_cost self.now }
        ensures monotone { steps.old ≤ steps.new };
}

impl Lookup for PatchIndex {
    ghost rows = { λ index. rows_of index };

    ghost lookup_cost = { λ index. search_cost index };

    fn place_of<L: Ledger>(&self, row: usize, steps: &mut Steps<L>) -> Option<usize>
        ensures place { result ≡ value_at row (placed (rows_of self.now)) }
        ensures rise { steps.new ≤ steps.old + search_cost self.now }
        ensures monotone { steps.old ≤ steps.new }
    {
        let _row_count = self.array_len();
        self.search_index(row, steps).to_found()
    }
}

impl Lookup for Patches {
    ghost rows = { λ patches. rows_of patches.index };

    ghost lookup_cost = { λ patches. search_cost patches.index };

    fn place_of<L: Ledger>(&self, row: usize, steps: &mut Steps<L>) -> Option<usize>
        ensures place { result ≡ value_at row (placed (rows_of self.now.index)) }
        ensures rise { steps.new ≤ steps.old + search_cost self.now.index }
        ensures monotone { steps.old ≤ steps.new }
    {
        let _row_count = self.array_len();
        self.search_index(row, steps).to_found()
    }
}

/// What a take leaves of exceptions.
pub(crate) fn plan_take<P: Lookup, L: Ledger>(
    patches: &P,
    alloc: Global,
    indices: &[Option<usize>],
    include_nulls: bool,
    steps: &mut Steps<L>,
) -> Res<Taken>
    ensures ok { IfOk result (λ taken. taken ≡ taken_of (taken_pairs include_nulls (placed_some (P.rows patches.now)) indices.now)) }
    ensures err { IsOkUnless result OutOfMemory }
    ensures rise { steps.new ≤ steps.old + length indices.now * P.lookup_cost patches.now }
    ensures monotone { steps.old ≤ steps.new }
{
    let mut taken = Taken::none(alloc);
    for (position, index) in indices.iter().enumerate() {
        if let Some(place) = named_place(patches, *index, include_nulls, steps) {
            taken.push(position, place)?;
        }
    }
    Ok(taken)
}

/// The place that an index names, or none where it is absent and nulls are wanted.
#[tactic(auto, using(crate::proofs::Taking::named_found, crate::proofs::Taking::named_missing))]
fn named_place<P: Lookup, L: Ledger>(
    patches: &P,
    index: Option<usize>,
    include_nulls: bool,
    steps: &mut Steps<L>,
) -> Option<Option<usize>>
    ensures named { result ≡ named include_nulls (placed_some (P.rows patches.now)) index }
    ensures rise { steps.new ≤ steps.old + P.lookup_cost patches.now }
    ensures monotone { steps.old ≤ steps.new }
{
    match index {
        Some(row) => match patches.place_of(row, steps) {
            Some(place) => Some(Some(place)),
            None => None,
        },
        None => { if include_nulls { Some(None) } else { None } }
    }
}
