//! The places of the rows that a selection names.
ghost use Rattle.std.specs.Prelude.{◌≡◌, ◌+◌, ◌-◌, ◌^◌, ◌<◌, ◌≤◌, ◌↔◌, ◌⊎◌, ◌∷◌, ◌++◌, [], min, ℕ, All, IfOk, IfErr, OnOk, IsOkUnless, IsTrue, length};
ghost use Rattle.std.specs.List.{range_with_len};
ghost use Rattle.vx_rows.specs.Fits.{rows_fit};
ghost use Rattle.vx_rows.specs.declared.error.ColumnError.TheVariants.{OutOfMemory};
ghost use Rattle.vx_masks.specs.Bits.{places_of};
ghost use Rattle.vx_masks.specs.Masks.{bits_of};
ghost use Rattle.vx_job.specs.Kinds.{is_nullable};
ghost use Rattle.vx_job.specs.Rows.{Rows, picked as rows_at};
ghost use Rattle.vx_bulk.specs.Selections.{picked, IsWithin, IsInside};
ghost use Rattle.vx_job.specs.Selections.{IsBeyond, IsRunBeyond, run_total};
ghost use Rattle.vx_chunk_plans.specs.Filters.{slice_places};
ghost use Rattle.vx_select.specs.Causes.{TakeCause, RunsCause, run_places, present};

use std::alloc::Global;
use vx_base::{ColumnError, DType, Res, RowBuffer};
use vx_masks::Mask;

/// The places of the true bits.
#[tactic(auto, using(vx_masks::proofs::Places::places_yes, vx_masks::proofs::Places::places_no))]
pub(crate) fn places_kept(alloc: Global, mask: &Mask) -> Res<Vec<usize>>
    ensures ok { IfOk result (λ places. places.items ≡ places_of (bits_of mask.now)) }
    ensures err { IsOkUnless result ColumnError.OutOfMemory }
{
    let mut places = Vec::new(alloc);
    for k in 0..mask.len() {
        if mask.value(k) {
            places.push(k)?;
        }
    }
    Ok(places)
}

/// Whether the places are those of all rows in order.
pub(crate) fn are_all(places: &[usize], len: usize) -> bool
    ensures { IsTrue result ↔ places.now ≡ range_with_len 0 len }
{
    if places.len() != len {
        return false;
    }
    for (k, place) in places.iter().enumerate() {
        if *place != k {
            return false;
        }
    }
    true
}

/// The indices that are there. Each of them is below the length.
pub(crate) fn present_places(
    alloc: Global,
    indices: &[Option<usize>],
    len: usize,
) -> Res<Vec<usize>>
    ensures ok { IfOk result (λ places. places.items ≡ present indices.now) }
    ensures inside { OnOk result (All (IsWithin len) indices.now) }
    ensures err { IfErr result (TakeCause len indices.now) }
{
    let mut places = Vec::new(alloc);
    for index in indices {
        push_present(&mut places, *index, len)?;
    }
    Ok(places)
}

/// Adds the index, if it is there.
fn push_present(places: &mut Vec<usize>, index: Option<usize>, len: usize) -> Res<()>
    ensures ok { OnOk result (places.new.items ≡ places.old.items ++ present (index ∷ [])) }
    ensures inside { OnOk result (IsWithin len index) }
    ensures err { IfErr result (λ e. (e ≡ OutOfMemory) ⊎ IsBeyond len index e) }
{
    if let Some(index) = index {
        if index >= len {
            return Err(ColumnError::OutOfBounds { index, len });
        }
        places.push(index)?;
    }
    Ok(())
}

/// The rows in the places of the indices that are there, and nulls in the others.
pub(crate) fn spread(
    alloc: Global,
    dtype: &DType,
    indices: &[Option<usize>],
    rows: &RowBuffer,
) -> Res<RowBuffer>
    requires many { length rows.now ≡ length (present indices.now) }
    requires fit { IsTrue (rows_fit dtype.now rows.now) }
    requires nulls { IsTrue (is_nullable dtype.now) }
    ensures ok { IfOk result (λ out. (all : Rows) → rows.now ≡ rows_at all (present indices.now) → out ≡ picked all indices.now) }
    ensures fits { IfOk result (λ out. IsTrue (rows_fit dtype.now out)) }
    ensures err { IsOkUnless result ColumnError.OutOfMemory }
{
    let mut out = RowBuffer::new(alloc, dtype);
    let mut next = 0;
    for index in indices {
        if index.is_some() {
            out.push_ref(alloc, rows.get(next))?;
            next += 1;
        } else {
            out.push_null(alloc)?;
        }
    }
    Ok(out)
}

/// Refuses runs that are not `declared` rows together, or of which one has a row past the end. The sum is compared first,
/// so that no list is ever longer than was declared.
pub(crate) fn check_runs(runs: &[(usize, usize)], declared: usize, len: usize) -> Res<()>
    ensures sum { OnOk result (run_total runs.now ≡ declared) }
    ensures inside { OnOk result (All (IsInside len) runs.now) }
    ensures err { IfErr result (RunsCause len declared runs.now) }
{
    let total = rows_of_runs(runs);
    if total != declared as u128 {
        return Err(ColumnError::LengthMismatch {
            expected: declared,
            found: held(total),
        });
    }
    for run in runs {
        check_run(run.0, run.1, len)?;
    }
    Ok(())
}

/// The rows of all runs together; saturates at `u128::MAX`.
#[tactic(auto, using(std::proofs::lemmas::List::Sums::sum_by_more))]
fn rows_of_runs(runs: &[(usize, usize)]) -> u128
    ensures { result ≡ min (run_total runs.now) (2 ^ 128 - 1) }
{
    let mut total = 0u128;
    for run in runs {
        total = total.saturating_add(run.1 as u128);
    }
    total
}

/// The number, or the greatest `usize` where it is above that.
fn held(total: u128) -> usize
    ensures { result ≡ min total (2 ^ 64 - 1) }
{
    usize::try_from(total).unwrap_or(usize::MAX)
}

/// Refuses a run whose last row is past the end.
fn check_run(start: usize, count: usize, len: usize) -> Res<()>
    ensures inside { OnOk result (IsInside len (start, count)) }
    ensures err { IfErr result (IsRunBeyond len (start, count)) }
{
    if count > 0 && (count > len || start > len - count) {
        return Err(ColumnError::OutOfBounds {
            index: start.saturating_add(count - 1),
            len,
        });
    }
    Ok(())
}

/// The places of the runs, which are in `len` rows.
pub(crate) fn places_of_runs(alloc: Global, runs: &[(usize, usize)], len: usize) -> Res<Vec<usize>>
    requires { All (IsInside len) runs.now }
    ensures ok { IfOk result (λ places. places.items ≡ run_places runs.now) }
    ensures err { IsOkUnless result ColumnError.OutOfMemory }
{
    let mut places = Vec::new(alloc);
    for run in runs {
        push_range(&mut places, run.0, run.1)?;
    }
    Ok(places)
}

/// The places of slices, each of a start and an end.
pub(crate) fn places_of_slices(alloc: Global, slices: &[(usize, usize)]) -> Res<Vec<usize>>
    requires { All (λ (slice : ℕ × ℕ). slice.0 ≤ slice.1) slices.now }
    ensures ok { IfOk result (λ places. places.items ≡ slice_places slices.now) }
    ensures err { IsOkUnless result ColumnError.OutOfMemory }
{
    let mut places = Vec::new(alloc);
    for slice in slices {
        push_range(&mut places, slice.0, slice.1 - slice.0)?;
    }
    Ok(places)
}

/// Adds so many places from a start.
fn push_range(places: &mut Vec<usize>, start: usize, count: usize) -> Res<()>
    requires { 0 < count → start + count < 2 ^ 64 }
    ensures ok { OnOk result (places.new.items ≡ places.old.items ++ range_with_len start count) }
    ensures err { IsOkUnless result ColumnError.OutOfMemory }
{
    for k in 0..count {
        places.push(start + k)?;
    }
    Ok(())
}
