//! Selections of exceptions, which are exceptions again.
ghost use Rattle.std.specs.Prelude.{◌≡◌, ◌+◌, ◌*◌, ◌≤◌, length, true, false, Some, None, IfOk, OnOk, IfErr, IsOkUnless, IsTrue};
ghost use Rattle.vx_rows.specs.declared.error.ColumnError.TheVariants.{OutOfMemory};
ghost use Rattle.vx_masks.specs.Bits.{all_true, count_true};
ghost use Rattle.vx_masks.specs.Masks.{bits_of, cached_places};
ghost use Rattle.vx_search.specs.Places.{search_bound};
ghost use Rattle.vx_patches.specs.Places.{indices_of};
ghost use Rattle.vx_patches.specs.Pairs.{pairs_of};
ghost use Rattle.vx_patch_select.specs.Selected.{kept_pairs};
ghost use Rattle.vx_patch_select.specs.Plans.{kept_of, planned};
ghost use Rattle.vx_patches.specs.Search.{search_cost};
ghost use Rattle.vx_patch_select.specs.Patched.{of_pairs, pairs_left, IsUnmasked, MaskCause};
ghost use Rattle.vx_patch_select.specs.Takes.{names_rows, taken, TakeCause};

use crate::fresh::fresh;
use crate::plan::Kept;
use crate::rows::PatchRows;
use crate::{kept, take, unmask};
use std::alloc::Global;
use vx_base::{ColumnError, FlatColumn, Ledger, Res, Steps};
use vx_bulk::{Bulk, PrimitiveArray};
use vx_masks::Mask;
use vx_patches::Patches;

/// Selections of exceptions. Where no exception is left, they answer none.
pub trait SelectPatches: Sized {
    /// The exceptions of the rows whose bit is true, among these rows alone. Refuses a mask of another length.
    fn filter<L: Ledger>(
        &self,
        alloc: Global,
        mask: &Mask,
        steps: &mut Steps<L>,
    ) -> Res<Option<Self>>;

    /// The exceptions of the rows whose bit is false, each at its index as before. A null may be one of their values. Chunk
    /// offsets stay where no bit is true, and are dropped else. Refuses a mask of another length.
    fn mask<L: Ledger>(
        &self,
        alloc: Global,
        mask: &Mask,
        steps: &mut Steps<L>,
    ) -> Res<Option<Self>>;

    /// The exceptions at the rows that the indices name, each at the position of its index. A null is passed over, and so is
    /// an index past the end. Refuses `MismatchedTypes` where the indices aren't of an unsigned type; a null may be one of
    /// them. Looks up in a map or searches, by the counts.
    fn take<L: Ledger>(
        &self,
        alloc: Global,
        indices: &FlatColumn,
        steps: &mut Steps<L>,
    ) -> Res<Option<Self>>;

    /// The same, and for each null among the indices an exception that is null.
    fn take_with_nulls<L: Ledger>(
        &self,
        alloc: Global,
        indices: &FlatColumn,
        steps: &mut Steps<L>,
    ) -> Res<Option<Self>>;

    /// The same, with nulls or without, by a search for each index.
    fn take_search<L: Ledger>(
        &self,
        alloc: Global,
        indices: PrimitiveArray,
        include_nulls: bool,
        steps: &mut Steps<L>,
    ) -> Res<Option<Self>>;

    /// The same, with nulls or without, by a map from rows to places.
    fn take_map<L: Ledger>(
        &self,
        alloc: Global,
        indices: PrimitiveArray,
        include_nulls: bool,
        steps: &mut Steps<L>,
    ) -> Res<Option<Self>>;
}

impl SelectPatches for Patches {
    fn filter<L: Ledger>(
        &self,
        alloc: Global,
        mask: &Mask,
        steps: &mut Steps<L>,
    ) -> Res<Option<Patches>>
        ensures pairs { IfOk result (λ left. pairs_left left ≡ kept_pairs (bits_of mask.now) (pairs_of self.now)) }
        ensures fresh { all_true (bits_of mask.now) ≡ false → IfOk result (λ left. left ≡ of_pairs (count_true (bits_of mask.now)) self.now.values.dtype (kept_pairs (bits_of mask.now) (pairs_of self.now))) }
        ensures whole { all_true (bits_of mask.now) ≡ true → IfOk result (λ left. left ≡ Some self.now) }
        ensures long { OnOk result (length (bits_of mask.now) ≡ self.now.index.len) }
        ensures err { IfErr result (MaskCause self.now.index.len (length (bits_of mask.now))) }
        ensures rise { cached_places mask.now ≡ None → steps.new ≤ steps.old + count_true (bits_of mask.now) * (search_bound (length (indices_of self.now.index)) + 4) }
        ensures monotone { steps.old ≤ steps.new }
    {
        let expected = self.array_len();
        let found = mask.len();
        if found != expected {
            return Err(ColumnError::LengthMismatch { expected, found });
        }
        if mask.true_count() == found {
            return Ok(Some(self.share()?));
        }
        filtered(self, alloc, mask, steps)
    }

    fn mask<L: Ledger>(
        &self,
        alloc: Global,
        mask: &Mask,
        steps: &mut Steps<L>,
    ) -> Res<Option<Patches>>
        ensures ok { IfOk result (IsUnmasked (bits_of mask.now) self.now) }
        ensures long { OnOk result (length (bits_of mask.now) ≡ self.now.index.len) }
        ensures err { IfErr result (MaskCause self.now.index.len (length (bits_of mask.now))) }
        ensures rise { steps.new ≤ steps.old + 4 * length (indices_of self.now.index) }
        ensures monotone { steps.old ≤ steps.new }
    {
        unmask::unmasked(self, alloc, mask, steps)
    }

    fn take<L: Ledger>(
        &self,
        alloc: Global,
        indices: &FlatColumn,
        steps: &mut Steps<L>,
    ) -> Res<Option<Patches>>
        ensures ok { IfOk result (λ left. left ≡ taken false self.now indices.now) }
        ensures unsigned { OnOk result (IsTrue (names_rows indices.now.dtype)) }
        ensures err { IfErr result (TakeCause indices.now.dtype) }
        ensures rise { steps.new ≤ steps.old + length indices.now.rows * (search_cost self.now.index + 8) }
        ensures monotone { steps.old ≤ steps.new }
    {
        take::by_count(self, alloc, indices, false, steps)
    }

    fn take_with_nulls<L: Ledger>(
        &self,
        alloc: Global,
        indices: &FlatColumn,
        steps: &mut Steps<L>,
    ) -> Res<Option<Patches>>
        ensures ok { IfOk result (λ left. left ≡ taken true self.now indices.now) }
        ensures unsigned { OnOk result (IsTrue (names_rows indices.now.dtype)) }
        ensures err { IfErr result (TakeCause indices.now.dtype) }
        ensures rise { steps.new ≤ steps.old + length indices.now.rows * (search_cost self.now.index + 8) }
        ensures monotone { steps.old ≤ steps.new }
    {
        take::by_count(self, alloc, indices, true, steps)
    }

    fn take_search<L: Ledger>(
        &self,
        alloc: Global,
        indices: PrimitiveArray,
        include_nulls: bool,
        steps: &mut Steps<L>,
    ) -> Res<Option<Patches>>
        ensures ok { IfOk result (λ left. left ≡ taken include_nulls self.now indices) }
        ensures unsigned { OnOk result (IsTrue (names_rows indices.dtype)) }
        ensures err { IfErr result (TakeCause indices.dtype) }
        ensures rise { steps.new ≤ steps.old + length indices.rows * (search_cost self.now.index + 3) }
        ensures monotone { steps.old ≤ steps.new }
    {
        take::by_search(self, alloc, indices.column(), include_nulls, steps)
    }

    fn take_map<L: Ledger>(
        &self,
        alloc: Global,
        indices: PrimitiveArray,
        include_nulls: bool,
        steps: &mut Steps<L>,
    ) -> Res<Option<Patches>>
        ensures ok { IfOk result (λ left. left ≡ taken include_nulls self.now indices) }
        ensures unsigned { OnOk result (IsTrue (names_rows indices.dtype)) }
        ensures err { IfErr result (TakeCause indices.dtype) }
        ensures rise { steps.new ≤ steps.old + length (indices_of self.now.index) + length indices.rows * 3 }
        ensures monotone { steps.old ≤ steps.new }
    {
        take::by_map(self, alloc, indices.column(), include_nulls, steps)
    }
}

/// The exceptions of the rows whose bit is true, made anew.
fn filtered<L: Ledger>(
    patches: &Patches,
    alloc: Global,
    mask: &Mask,
    steps: &mut Steps<L>,
) -> Res<Option<Patches>>
    requires { length (bits_of mask.now) ≡ patches.now.index.len }
    ensures ok { IfOk result (λ left. left ≡ of_pairs (count_true (bits_of mask.now)) patches.now.values.dtype (kept_pairs (bits_of mask.now) (pairs_of patches.now))) }
    ensures err { IsOkUnless result OutOfMemory }
    ensures rise { cached_places mask.now ≡ None → steps.new ≤ steps.old + count_true (bits_of mask.now) * (search_bound (length (indices_of patches.now.index)) + 4) }
    ensures monotone { steps.old ≤ steps.new }
{
    let rows = PatchRows::new(patches.indices(), patches.offset(), patches.array_len());
    let kept = kept::plan_filter(&rows, alloc, mask, steps)?;
    pick_kept(patches, alloc, mask, &kept, steps)
}

/// The exceptions that a plan of a filter keeps.
fn pick_kept<L: Ledger>(
    patches: &Patches,
    alloc: Global,
    mask: &Mask,
    kept: &Kept,
    steps: &mut Steps<L>,
) -> Res<Option<Patches>>
    requires { kept.now ≡ kept_of (planned (bits_of mask.now) patches.now.index) }
    ensures ok { IfOk result (λ left. left ≡ of_pairs (count_true (bits_of mask.now)) patches.now.values.dtype (kept_pairs (bits_of mask.now) (pairs_of patches.now))) }
    ensures err { IsOkUnless result OutOfMemory }
    ensures rise { steps.new ≤ steps.old + count_true (bits_of mask.now) }
    ensures monotone { steps.old ≤ steps.new }
{
    let _row_count = patches.array_len();
    let places = kept.places.as_slice();
    if places.is_empty() {
        return Ok(None);
    }
    let values = patches.values().pick(alloc, places, steps)?;
    let left = fresh(alloc, mask.true_count(), kept.indices.as_slice(), values)?;
    Ok(Some(left))
}
