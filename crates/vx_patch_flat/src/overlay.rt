//! Rows and exceptions, laid into a buffer in the order of the rows.
ghost use Rattle.std.specs.Prelude.{◌≡◌, ◌+◌, ◌-◌, ◌*◌, ◌^◌, ◌<◌, ◌≤◌, ◌∷◌, ◌++◌, ◌↔◌, [], length, slice_index, get_or, None, IfOk, OnOk, IfErr, IsOkUnless, IsTrue};
ghost use Rattle.std.specs.List.{slice_range};
ghost use Rattle.vx_rows.specs.declared.error.ColumnError.TheVariants.{OutOfMemory};
ghost use Rattle.vx_base.specs.Column.{flat};
ghost use Rattle.vx_bulk.specs.Selections.{overlaid};
ghost use Rattle.vx_patches.specs.Pairs.{pairs_of, firsts, IsOverlay};
ghost use Rattle.vx_patch_flat.specs.Patching.{IsPatchable, PatchCause, TakesValues};

use std::alloc::Global;
use vx_base::{ColumnError, DType, FlatColumn, Ledger, Res, RowBuffer, Steps};
use vx_patches::Patches;

/// The column in which each exception replaces its row.
pub(crate) fn patched<L: Ledger>(
    alloc: Global,
    base: &FlatColumn,
    patches: &Patches,
    steps: &mut Steps<L>,
) -> Res<FlatColumn>
    ensures ok { IfOk result (λ column. column ≡ flat base.now.dtype (overlaid base.now.rows (pairs_of patches.now))) }
    ensures fits { OnOk result (IsPatchable base.now patches.now) }
    ensures err { IfErr result (PatchCause base.now patches.now) }
    ensures rise { steps.new ≤ steps.old + (length base.now.rows + 2 * length (pairs_of patches.now)) }
    ensures monotone { steps.old ≤ steps.new }
{
    let expected = patches.array_len();
    let found = base.len();
    if found != expected {
        return Err(ColumnError::LengthMismatch { expected, found });
    }
    if !takes_values(base.dtype(), patches.values().dtype()) {
        return Err(ColumnError::MismatchedTypes);
    }
    replaced(alloc, base, patches, steps)
}

/// Whether values of a type may stand among rows of the base's: their types are alike, and nulls come to nullable rows alone.
fn takes_values(base: &DType, values: &DType) -> bool
    ensures { IsTrue result ↔ TakesValues base.now values.now }
{
    if !values.eq_ignore_nullability(base) {
        return false;
    }
    base.nullability().is_nullable() || !values.nullability().is_nullable()
}

/// The same, where the exceptions may replace rows.
fn replaced<L: Ledger>(
    alloc: Global,
    base: &FlatColumn,
    patches: &Patches,
    steps: &mut Steps<L>,
) -> Res<FlatColumn>
    requires sound { IsOverlay patches.now }
    requires patchable { IsPatchable base.now patches.now }
    ensures ok { IfOk result (λ column. column ≡ flat base.now.dtype (overlaid base.now.rows (pairs_of patches.now))) }
    ensures err { IsOkUnless result OutOfMemory }
    ensures rise { steps.new ≤ steps.old + (length base.now.rows + 2 * length (pairs_of patches.now)) }
    ensures monotone { steps.old ≤ steps.new }
{
    // Each row fits the type.
    let _ = patches.values().dtype();
    let dtype = base.dtype().copy()?;
    let rows = laid_over(alloc, base, patches, steps)?;
    FlatColumn::from_buffer(alloc, dtype, rows)
}

/// The rows, each of which an exception replaces where there is one. The rows between two exceptions are copied at once.
fn laid_over<L: Ledger>(
    alloc: Global,
    base: &FlatColumn,
    patches: &Patches,
    steps: &mut Steps<L>,
) -> Res<RowBuffer>
    requires sound { IsOverlay patches.now }
    requires long { length base.now.rows ≡ patches.now.index.len }
    ensures ok { IfOk result (λ rows. rows ≡ overlaid base.now.rows (pairs_of patches.now)) }
    ensures err { IsOkUnless result OutOfMemory }
    ensures rise { steps.new ≤ steps.old + (length base.now.rows + 2 * length (pairs_of patches.now)) }
    ensures monotone { steps.old ≤ steps.new }
{
    let mut rows = RowBuffer::new(alloc, base.dtype());
    let mut from = 0;
    for place in 0..patches.num_patches() {
        from = lay_next(alloc, base, patches, place, from, &mut rows, steps)?;
    }
    base.append_into(alloc, from..base.len(), &mut rows, steps)?;
    Ok(rows)
}

/// Appends the rows from `from` to the exception at a place, and it. Answers the row behind it.
fn lay_next<L: Ledger>(
    alloc: Global,
    base: &FlatColumn,
    patches: &Patches,
    place: usize,
    from: usize,
    rows: &mut RowBuffer,
    steps: &mut Steps<L>,
) -> Res<usize>
    requires inside { place < length (pairs_of patches.now) }
    requires ordered { from ≤ slice_index (firsts (pairs_of patches.now)) place }
    requires sound { IsOverlay patches.now }
    requires long { length base.now.rows ≡ patches.now.index.len }
    ensures next { IfOk result (λ next. next ≡ slice_index (firsts (pairs_of patches.now)) place + 1) }
    ensures ok { OnOk result (rows.new ≡ rows.old ++ (slice_range base.now.rows from (slice_index (firsts (pairs_of patches.now)) place) ++ get_or patches.now.values.rows place None ∷ [])) }
    ensures err { IsOkUnless result OutOfMemory }
    ensures rise { steps.new ≤ steps.old + (slice_index (firsts (pairs_of patches.now)) place - from + 2) }
    ensures monotone { steps.old ≤ steps.new }
{
    let row = patches.row_at(place, steps);
    base.append_into(alloc, from..row, rows, steps)?;
    lay_value(alloc, patches, place, rows, steps)?;
    Ok(row + 1)
}

/// Appends the value at a place.
fn lay_value<L: Ledger>(
    alloc: Global,
    patches: &Patches,
    place: usize,
    rows: &mut RowBuffer,
    steps: &mut Steps<L>,
) -> Res<()>
    requires inside { place < length patches.now.values.rows }
    requires fits { place + 1 < 2 ^ 64 }
    ensures ok { OnOk result (rows.new ≡ rows.old ++ slice_range patches.now.values.rows place (place + 1)) }
    ensures err { IsOkUnless result OutOfMemory }
    ensures cost { steps.new ≡ steps.old + 1 }
{
    let values = patches.values();
    values.append_into(alloc, place..place + 1, rows, steps)
}
