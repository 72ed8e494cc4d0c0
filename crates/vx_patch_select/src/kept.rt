//! What filters and masks leave of exceptions.
ghost use Rattle.std.specs.Prelude.{◌≡◌, ◌+◌, ◌*◌, ◌<◌, ◌≤◌, length, map, None, IfOk, OnOk, IsOkUnless, slice_index, true};
ghost use Rattle.vx_rows.specs.declared.error.ColumnError.TheVariants.{OutOfMemory};
ghost use Rattle.vx_base.specs.Checks.{count_below};
ghost use Rattle.vx_masks.specs.Bits.{count_true, places_of};
ghost use Rattle.vx_masks.specs.Masks.{bits_of, cached_places};
ghost use Rattle.vx_search.specs.Places.{search_bound};
ghost use Rattle.vx_patches.specs.Places.{indices_of, rows_of};
ghost use Rattle.vx_patch_select.specs.Selected.{bit_at, rank, kept_pairs, unmasked_pairs};
ghost use Rattle.vx_patch_select.specs.Plans.{placed, kept_of, IsKeptTo};

use crate::plan::Kept;
use crate::rows::{PatchRows, first_place};
use std::alloc::Global;
use vx_base::{Ledger, Res, Seq, Steps};
use vx_masks::Mask;

/// What a filter leaves of exceptions. The longer side is searched for each entry of the shorter one.
pub(crate) fn plan_filter<L: Ledger>(
    rows: &PatchRows<'_>,
    alloc: Global,
    mask: &Mask,
    steps: &mut Steps<L>,
) -> Res<Kept>
    requires { length (bits_of mask.now) ≡ rows.now.len }
    ensures ok { IfOk result (λ kept. kept ≡ kept_of (kept_pairs (bits_of mask.now) (placed (rows_of rows.now)))) }
    ensures err { IsOkUnless result OutOfMemory }
    ensures rise { cached_places mask.now ≡ None → steps.new ≤ steps.old + count_true (bits_of mask.now) * (search_bound (length (indices_of rows.now)) + 3) }
    ensures monotone { steps.old ≤ steps.new }
{
    let true_count = mask.true_count();
    // The bits may be very many where none of them is stored, so that they aren't gone through.
    if true_count == 0 {
        return Ok(Kept::none(alloc));
    }
    if rows.len() > true_count {
        return gallop_patches(rows, alloc, mask, steps);
    }
    match mask.cached_indices() {
        Some(places) => gallop_mask(rows, alloc, mask, places, steps),
        None => rank_patches(rows, alloc, mask, steps),
    }
}

/// What a filter leaves of exceptions, which are galloped through from one true bit to the next.
fn gallop_patches<L: Ledger>(
    rows: &PatchRows<'_>,
    alloc: Global,
    mask: &Mask,
    steps: &mut Steps<L>,
) -> Res<Kept>
    requires { length (bits_of mask.now) ≡ rows.now.len }
    ensures ok { IfOk result (λ kept. kept ≡ kept_of (kept_pairs (bits_of mask.now) (placed (rows_of rows.now)))) }
    ensures err { IsOkUnless result OutOfMemory }
    ensures rise { steps.new ≤ steps.old + count_true (bits_of mask.now) * (search_bound (length (indices_of rows.now)) + 3) }
    ensures monotone { steps.old ≤ steps.new }
{
    let mut kept = Kept::none(alloc);
    let mut start = 0;
    let mut rank = 0;
    let _count = rows.len();
    for row in 0..mask.len() {
        if mask.value(row) {
            start = keep_row(rows, mask, row, rank, start, &mut kept, steps)?;
            rank += 1;
        }
    }
    Ok(kept)
}

/// Keeps the exception of a row whose bit is true, where it has one, and tells how many stand before the row.
fn keep_row<L: Ledger>(
    rows: &PatchRows<'_>,
    mask: &Mask,
    row: usize,
    index: usize,
    start: usize,
    kept: &mut Kept,
    steps: &mut Steps<L>,
) -> Res<usize>
    requires inside { row < rows.now.len }
    requires bit { bit_at (bits_of mask.now) row ≡ true }
    requires index { index ≡ rank (bits_of mask.now) row }
    requires start { start ≤ count_below row (rows_of rows.now) }
    requires kept { IsKeptTo (bits_of mask.now) (rows_of rows.now) (count_below row (rows_of rows.now)) kept.old }
    ensures ok { IfOk result (λ first. first ≡ count_below row (rows_of rows.now)) }
    ensures kept { OnOk result (IsKeptTo (bits_of mask.now) (rows_of rows.now) (count_below (row + 1) (rows_of rows.now)) kept.new) }
    ensures err { IsOkUnless result OutOfMemory }
    ensures rise { steps.new ≤ steps.old + (search_bound (length (indices_of rows.now)) + 3) }
    ensures monotone { steps.old ≤ steps.new }
{
    let first = rows.first_from(start, row, steps);
    if first < rows.len() && rows.at(first, steps) == row {
        kept.push(first, index)?;
    }
    Ok(first)
}

/// What a filter leaves of exceptions, for which the places of the true bits are galloped through.
fn gallop_mask<L: Ledger>(
    rows: &PatchRows<'_>,
    alloc: Global,
    mask: &Mask,
    places: &[usize],
    steps: &mut Steps<L>,
) -> Res<Kept>
    requires long { length (bits_of mask.now) ≡ rows.now.len }
    requires places { places.now ≡ places_of (bits_of mask.now) }
    ensures ok { IfOk result (λ kept. kept ≡ kept_of (kept_pairs (bits_of mask.now) (placed (rows_of rows.now)))) }
    ensures err { IsOkUnless result OutOfMemory }
    ensures monotone { steps.old ≤ steps.new }
{
    let mut kept = Kept::none(alloc);
    let mut start = 0;
    for place in 0..rows.len() {
        let row = rows.at(place, steps);
        start = first_place(places, start, row, steps);
        if mask.value(row) {
            kept.push(place, start)?;
        }
    }
    Ok(kept)
}

/// What a filter leaves of exceptions, each of which is ranked in the mask.
fn rank_patches<L: Ledger>(
    rows: &PatchRows<'_>,
    alloc: Global,
    mask: &Mask,
    steps: &mut Steps<L>,
) -> Res<Kept>
    requires { length (bits_of mask.now) ≡ rows.now.len }
    ensures ok { IfOk result (λ kept. kept ≡ kept_of (kept_pairs (bits_of mask.now) (placed (rows_of rows.now)))) }
    ensures err { IsOkUnless result OutOfMemory }
    ensures rise { steps.new ≤ steps.old + length (indices_of rows.now) }
    ensures monotone { steps.old ≤ steps.new }
{
    let mut kept = Kept::none(alloc);
    for place in 0..rows.len() {
        rank_patch(rows, mask, place, &mut kept, steps)?;
    }
    Ok(kept)
}

/// Keeps the exception at a place where its row has a true bit.
fn rank_patch<L: Ledger>(
    rows: &PatchRows<'_>,
    mask: &Mask,
    place: usize,
    kept: &mut Kept,
    steps: &mut Steps<L>,
) -> Res<()>
    requires long { length (bits_of mask.now) ≡ rows.now.len }
    requires inside { place < length (indices_of rows.now) }
    requires kept { IsKeptTo (bits_of mask.now) (rows_of rows.now) place kept.old }
    ensures kept { OnOk result (IsKeptTo (bits_of mask.now) (rows_of rows.now) (place + 1) kept.new) }
    ensures err { IsOkUnless result OutOfMemory }
    ensures cost { steps.new ≡ steps.old + 1 }
{
    let row = rows.at(place, steps);
    if mask.value(row) {
        kept.push(place, mask.rank(row))?;
    }
    Ok(())
}

/// The places of the exceptions whose row has no true bit.
pub(crate) fn plan_mask<L: Ledger>(
    rows: &PatchRows<'_>,
    alloc: Global,
    mask: &Mask,
    steps: &mut Steps<L>,
) -> Res<Seq<usize>>
    requires { length (bits_of mask.now) ≡ rows.now.len }
    ensures ok { IfOk result (λ places. places ≡ map (λ p. p.1) (unmasked_pairs (bits_of mask.now) (placed (rows_of rows.now)))) }
    ensures err { IsOkUnless result OutOfMemory }
    ensures rise { steps.new ≤ steps.old + length (indices_of rows.now) }
    ensures monotone { steps.old ≤ steps.new }
{
    let mut places = Vec::new(alloc);
    for place in 0..rows.len() {
        if !mask.value(rows.at(place, steps)) {
            places.push(place)?;
        }
    }
    Ok(Seq::from_vec(places))
}
