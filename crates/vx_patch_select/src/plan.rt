//! Which exceptions a selection leaves, by their places.
ghost use Rattle.std.specs.Prelude.{◌≡◌, ℕ, ◌+◌, ◌*◌, ◌≤◌, ◌∷◌, ◌++◌, [], length, map, None, IfOk, IsOkUnless, OnOk, OnErr};
ghost use Rattle.vx_rows.specs.declared.error.ColumnError.TheVariants.{OutOfMemory};
ghost use Rattle.vx_masks.specs.Bits.{count_true};
ghost use Rattle.vx_masks.specs.Masks.{bits_of, cached_places};
ghost use Rattle.vx_search.specs.Places.{search_bound};
ghost use Rattle.vx_patches.specs.Places.{indices_of, rows_of};
ghost use Rattle.vx_patches.specs.Search.{search_cost};
ghost use Rattle.vx_patch_select.specs.Selected.{kept_pairs, unmasked_pairs, taken_pairs};
ghost use Rattle.vx_patch_select.specs.Plans.{placed, placed_some, kept_of, taken_of};

use crate::rows::PatchRows;
use crate::{kept, lookup};
use std::alloc::Global;
use vx_base::{Ledger, Res, Seq, Steps};
use vx_masks::Mask;
use vx_patches::PatchIndex;

/// What a filter leaves: the places of the exceptions that are kept, and for each its index among the rows that are kept.
pub struct Kept {
    pub places: Seq<usize>,
    pub indices: Seq<u64>,
}

impl Drop for Kept {
    fn drop(self) {
        let Kept {
            places: _,
            indices: _,
        } = self;
    }
}

impl Kept {
    /// No exception.
    pub(crate) fn none(alloc: Global) -> Kept
        ensures { result ≡ kept_of [] }
    {
        Kept {
            places: Seq::new(alloc),
            indices: Seq::new(alloc),
        }
    }

    /// Adds an exception with its new index. After a refusal the plan is of no use.
    pub(crate) fn push(&mut self, place: usize, rank: usize) -> Res<()>
        ensures places { OnOk result (self.new.places ≡ self.old.places ++ place ∷ []) }
        ensures indices { OnOk result (self.new.indices ≡ self.old.indices ++ rank ∷ []) }
        ensures err { IsOkUnless result OutOfMemory }
    {
        self.places.push(place)?;
        self.indices.push(rank as u64)?;
        Ok(())
    }
}

/// What a take leaves: for each entry the place of its exception, or none where it is nothing, and its index among those
/// that are taken.
pub struct Taken {
    pub places: Seq<Option<usize>>,
    pub indices: Seq<u64>,
}

impl Drop for Taken {
    fn drop(self) {
        let Taken {
            places: _,
            indices: _,
        } = self;
    }
}

impl Taken {
    /// No entry.
    pub(crate) fn none(alloc: Global) -> Taken
        ensures { result ≡ taken_of [] }
    {
        Taken {
            places: Seq::new(alloc),
            indices: Seq::new(alloc),
        }
    }

    /// Adds an entry with its index. After a refusal the plan is of no use.
    pub(crate) fn push(&mut self, index: usize, place: Option<usize>) -> Res<()>
        ensures places { OnOk result (self.new.places ≡ self.old.places ++ place ∷ []) }
        ensures indices { OnOk result (self.new.indices ≡ self.old.indices ++ index ∷ []) }
        ensures err { IsOkUnless result OutOfMemory }
    {
        self.places.push(place)?;
        self.indices.push(index as u64)?;
        Ok(())
    }
}

/// Selections of the places of exceptions.
pub trait SelectPlaces {
    /// How many rows there are, with an exception or without.
    ghost row_count: { Self → ℕ };

    /// The exceptions whose row has a true bit, each at the number of true bits before its row. More exceptions than true
    /// bits are galloped through; else cached indices of the mask are; else each exception is ranked in the mask.
    fn plan_filter<L: Ledger>(&self, alloc: Global, mask: &Mask, steps: &mut Steps<L>) -> Res<Kept>
        requires { length (bits_of mask.now) ≡ row_count self.now };

    /// The places of the exceptions whose row has no true bit.
    fn plan_mask<L: Ledger>(
        &self,
        alloc: Global,
        mask: &Mask,
        steps: &mut Steps<L>,
    ) -> Res<Seq<usize>>
        requires { length (bits_of mask.now) ≡ row_count self.now };

    /// For each index that names the row of an exception its place, and where nulls are wanted none for each index that is
    /// absent. An index past the end names no row.
    fn plan_take<L: Ledger>(
        &self,
        alloc: Global,
        indices: &[Option<usize>],
        include_nulls: bool,
        steps: &mut Steps<L>,
    ) -> Res<Taken>;
}

impl SelectPlaces for PatchIndex {
    ghost row_count = { λ index. index.len };

    fn plan_filter<L: Ledger>(&self, alloc: Global, mask: &Mask, steps: &mut Steps<L>) -> Res<Kept>
        requires { length (bits_of mask.now) ≡ self.now.len }
        ensures ok { IfOk result (λ kept. kept ≡ kept_of (kept_pairs (bits_of mask.now) (placed (rows_of self.now)))) }
        ensures err { IsOkUnless result OutOfMemory }
        ensures rise { cached_places mask.now ≡ None → steps.new ≤ steps.old + count_true (bits_of mask.now) * (search_bound (length (indices_of self.now)) + 3) }
        ensures monotone { steps.old ≤ steps.new }
    {
        let rows = PatchRows::new(self.indices(), self.offset(), self.array_len());
        kept::plan_filter(&rows, alloc, mask, steps)
    }

    fn plan_mask<L: Ledger>(
        &self,
        alloc: Global,
        mask: &Mask,
        steps: &mut Steps<L>,
    ) -> Res<Seq<usize>>
        requires { length (bits_of mask.now) ≡ self.now.len }
        ensures ok { IfOk result (λ places. places ≡ map (λ p. p.1) (unmasked_pairs (bits_of mask.now) (placed (rows_of self.now)))) }
        ensures err { IsOkUnless result OutOfMemory }
        ensures rise { steps.new ≤ steps.old + length (indices_of self.now) }
        ensures monotone { steps.old ≤ steps.new }
    {
        let rows = PatchRows::new(self.indices(), self.offset(), self.array_len());
        kept::plan_mask(&rows, alloc, mask, steps)
    }

    fn plan_take<L: Ledger>(
        &self,
        alloc: Global,
        indices: &[Option<usize>],
        include_nulls: bool,
        steps: &mut Steps<L>,
    ) -> Res<Taken>
        ensures ok { IfOk result (λ taken. taken ≡ taken_of (taken_pairs include_nulls (placed_some (rows_of self.now)) indices.now)) }
        ensures err { IsOkUnless result OutOfMemory }
        ensures rise { steps.new ≤ steps.old + length indices.now * search_cost self.now }
        ensures monotone { steps.old ≤ steps.new }
    {
        lookup::plan_take(self, alloc, indices, include_nulls, steps)
    }
}
