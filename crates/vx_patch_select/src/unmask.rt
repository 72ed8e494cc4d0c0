//! What masks leave of exceptions.
ghost use Rattle.std.specs.Prelude.{◌≡◌, ◌≢◌, ◌+◌, ◌*◌, ◌<◌, ◌≤◌, All, length, None, Ok, IfOk, OnOk, IfErr, IsOkUnless};
ghost use Rattle.std.specs.List.Sorted.{IsStrictlyIncreasing};
ghost use Rattle.vx_rows.specs.declared.error.ColumnError.TheVariants.{OutOfMemory};
ghost use Rattle.vx_base.specs.Column.{flat};
ghost use Rattle.vx_bulk.specs.Selections.{picked_at};
ghost use Rattle.vx_bulk.specs.Types.{nullable};
ghost use Rattle.vx_masks.specs.Bits.{count_true};
ghost use Rattle.vx_masks.specs.Masks.{bits_of};
ghost use Rattle.vx_patches.specs.Making.{made};
ghost use Rattle.vx_patches.specs.Places.{indices_of};
ghost use Rattle.vx_patches.specs.Pairs.{overlay};
ghost use Rattle.vx_patch_select.specs.Patched.{IsUnmasked, MaskCause};

use crate::kept;
use crate::rows::PatchRows;
use crate::widen::widened_values;
use std::alloc::Global;
use vx_base::{ColumnError, Ledger, Res, Steps};
use vx_bulk::Bulk;
use vx_masks::Mask;
use vx_patches::Patches;

/// The exceptions of the rows whose bit is false. Bits that are all the same are told by their count.
pub(crate) fn unmasked<L: Ledger>(
    patches: &Patches,
    alloc: Global,
    mask: &Mask,
    steps: &mut Steps<L>,
) -> Res<Option<Patches>>
    ensures ok { IfOk result (IsUnmasked (bits_of mask.now) patches.now) }
    ensures long { OnOk result (length (bits_of mask.now) ≡ patches.now.index.len) }
    ensures err { IfErr result (MaskCause patches.now.index.len (length (bits_of mask.now))) }
    ensures rise { steps.new ≤ steps.old + 4 * length (indices_of patches.now.index) }
    ensures monotone { steps.old ≤ steps.new }
{
    let expected = patches.array_len();
    let found = mask.len();
    if found != expected {
        return Err(ColumnError::LengthMismatch { expected, found });
    }
    let true_count = mask.true_count();
    if true_count == 0 {
        let whole = widened(patches, alloc, steps)?;
        return Ok(Some(whole));
    }
    if true_count == found {
        return Ok(None);
    }
    some_unmasked(patches, alloc, mask, steps)
}

/// The same exceptions, of whose values a null may be one.
fn widened<L: Ledger>(patches: &Patches, alloc: Global, steps: &mut Steps<L>) -> Res<Patches>
    ensures ok { IfOk result (λ p. p ≡ overlay patches.now.index (flat (nullable patches.now.values.dtype) patches.now.values.rows)) }
    ensures err { IsOkUnless result OutOfMemory }
    ensures rise { steps.new ≤ steps.old + length patches.now.values.rows }
    ensures monotone { steps.old ≤ steps.new }
{
    let _row_count = patches.array_len();
    let values = widened_values(patches.values(), alloc, steps)?;
    patches.share()?.map_values(
        |_values|
            ensures { result ≡ Ok values }
        { Ok(values) },
    )
}

/// The exceptions of the rows whose bit is false, where some bit is true.
fn some_unmasked<L: Ledger>(
    patches: &Patches,
    alloc: Global,
    mask: &Mask,
    steps: &mut Steps<L>,
) -> Res<Option<Patches>>
    requires long { length (bits_of mask.now) ≡ patches.now.index.len }
    requires some { count_true (bits_of mask.now) ≢ 0 }
    ensures ok { IfOk result (IsUnmasked (bits_of mask.now) patches.now) }
    ensures err { IsOkUnless result OutOfMemory }
    ensures rise { steps.new ≤ steps.old + 4 * length (indices_of patches.now.index) }
    ensures monotone { steps.old ≤ steps.new }
{
    let rows = PatchRows::new(patches.indices(), patches.offset(), patches.array_len());
    let plan = kept::plan_mask(&rows, alloc, mask, steps)?;
    let places = plan.as_slice();
    if places.is_empty() {
        return Ok(None);
    }
    let left = pick_left(patches, alloc, places, steps)?;
    Ok(Some(left))
}

/// The exceptions at rising places, without chunk offsets. A null may be one of their values.
fn pick_left<L: Ledger>(
    patches: &Patches,
    alloc: Global,
    places: &[usize],
    steps: &mut Steps<L>,
) -> Res<Patches>
    requires some { 0 < length places.now }
    requires rising { IsStrictlyIncreasing places.now }
    requires within { All (λ place. place < length patches.now.values.rows) places.now }
    ensures ok { IfOk result (λ p. p ≡ overlay (made patches.now.index.len patches.now.index.offset (flat patches.now.index.indices.dtype (picked_at patches.now.index.indices.rows places.now)) None) (flat (nullable patches.now.values.dtype) (picked_at patches.now.values.rows places.now))) }
    ensures err { IsOkUnless result OutOfMemory }
    ensures rise { steps.new ≤ steps.old + 3 * length places.now }
    ensures monotone { steps.old ≤ steps.new }
{
    let row_count = patches.array_len();
    let offset = patches.offset();
    let indices = patches.indices().pick(alloc, places, steps)?;
    let picked = patches.values().pick(alloc, places, steps)?;
    let values = widened_values(&picked, alloc, steps)?;
    Patches::new(alloc, row_count, offset, indices, values, None)
}
