//! What takes leave of exceptions.
ghost use Rattle.std.specs.Prelude.{◌≡◌, ◌+◌, ◌*◌, ◌<◌, ◌≤◌, All, length, cond, get_or, None, IfOk, OnOk, IfErr, IsOkUnless, IsTrue};
ghost use Rattle.std.specs.List.{zip};
ghost use Rattle.std.specs.List.Sorted.{IsStrictlyIncreasing};
ghost use Rattle.vx_rows.specs.declared.error.ColumnError.TheVariants.{OutOfMemory};
ghost use Rattle.vx_base.specs.Column.{flat};
ghost use Rattle.vx_bulk.specs.Selections.{picked, IsWithin};
ghost use Rattle.vx_bulk.specs.Types.{nullable, taken_type};
ghost use Rattle.vx_patches.specs.Places.{indices_of, rows_of};
ghost use Rattle.vx_patches.specs.Search.{search_cost};
ghost use Rattle.vx_patch_select.specs.Selected.{taken_pairs};
ghost use Rattle.vx_patch_select.specs.Plans.{placed_some, taken_of};
ghost use Rattle.vx_patch_select.specs.Patched.{of_pairs};
ghost use Rattle.vx_patch_select.specs.Takes.{names_rows, asked_index, asked, taken, TakeCause};

use crate::fresh::fresh;
use crate::lookup::{Lookup, plan_take};
use crate::place_map::PlaceMap;
use crate::plan::Taken;
use crate::widen::widened_values;
use std::alloc::Global;
use vx_base::{ColumnError, DType, FlatColumn, Ledger, PType, Res, Seq, Steps};
use vx_bulk::Bulk;
use vx_patches::Patches;

/// What a take column leaves: by a map where there are fewer than 5 times as many exceptions as indices, else by search.
pub(crate) fn by_count<L: Ledger>(
    patches: &Patches,
    alloc: Global,
    indices: &FlatColumn,
    include_nulls: bool,
    steps: &mut Steps<L>,
) -> Res<Option<Patches>>
    ensures ok { IfOk result (λ left. left ≡ taken include_nulls patches.now indices.now) }
    ensures unsigned { OnOk result (IsTrue (names_rows indices.now.dtype)) }
    ensures err { IfErr result (TakeCause indices.now.dtype) }
    ensures rise { steps.new ≤ steps.old + length indices.now.rows * (search_cost patches.now.index + 8) }
    ensures monotone { steps.old ≤ steps.new }
{
    let _row_count = patches.array_len();
    if patches.num_patches() / 5 < indices.len() {
        by_map(patches, alloc, indices, include_nulls, steps)
    } else {
        by_search(patches, alloc, indices, include_nulls, steps)
    }
}

/// What a take column leaves, each index being searched for.
pub(crate) fn by_search<L: Ledger>(
    patches: &Patches,
    alloc: Global,
    indices: &FlatColumn,
    include_nulls: bool,
    steps: &mut Steps<L>,
) -> Res<Option<Patches>>
    ensures ok { IfOk result (λ left. left ≡ taken include_nulls patches.now indices.now) }
    ensures unsigned { OnOk result (IsTrue (names_rows indices.now.dtype)) }
    ensures err { IfErr result (TakeCause indices.now.dtype) }
    ensures rise { steps.new ≤ steps.old + length indices.now.rows * (search_cost patches.now.index + 3) }
    ensures monotone { steps.old ≤ steps.new }
{
    if !names_rows(indices.dtype()) {
        return Err(ColumnError::MismatchedTypes);
    }
    taken_by(patches, patches, alloc, indices, include_nulls, steps)
}

/// What a take column leaves, each index being looked up in a map.
pub(crate) fn by_map<L: Ledger>(
    patches: &Patches,
    alloc: Global,
    indices: &FlatColumn,
    include_nulls: bool,
    steps: &mut Steps<L>,
) -> Res<Option<Patches>>
    ensures ok { IfOk result (λ left. left ≡ taken include_nulls patches.now indices.now) }
    ensures unsigned { OnOk result (IsTrue (names_rows indices.now.dtype)) }
    ensures err { IfErr result (TakeCause indices.now.dtype) }
    ensures rise { steps.new ≤ steps.old + length (indices_of patches.now.index) + length indices.now.rows * 3 }
    ensures monotone { steps.old ≤ steps.new }
{
    if !names_rows(indices.dtype()) {
        return Err(ColumnError::MismatchedTypes);
    }
    let map = PlaceMap::new(patches, alloc, steps)?;
    taken_by(patches, &map, alloc, indices, include_nulls, steps)
}

/// Whether rows of a type are indices: unsigned integers, of which a null may be one.
fn names_rows(dtype: &DType) -> bool
    ensures { result ≡ names_rows dtype.now }
{
    matches!(
        dtype,
        DType::Primitive(PType::U8 | PType::U16 | PType::U32 | PType::U64, _)
    )
}

/// What a take column leaves of exceptions that are looked up by their row.
fn taken_by<P: Lookup, L: Ledger>(
    patches: &Patches,
    lookup: &P,
    alloc: Global,
    indices: &FlatColumn,
    include_nulls: bool,
    steps: &mut Steps<L>,
) -> Res<Option<Patches>>
    requires rows { P.rows lookup.now ≡ rows_of patches.now.index }
    requires unsigned { IsTrue (names_rows indices.now.dtype) }
    ensures ok { IfOk result (λ left. left ≡ taken include_nulls patches.now indices.now) }
    ensures err { IsOkUnless result OutOfMemory }
    ensures rise { steps.new ≤ steps.old + length indices.now.rows * (P.lookup_cost lookup.now + 3) }
    ensures monotone { steps.old ≤ steps.new }
{
    let _row_count = patches.array_len();
    let plan = plan_asked(lookup, alloc, indices, include_nulls, steps)?;
    let may_be_null = indices.dtype().nullability().is_nullable();
    left_of(patches, alloc, indices.len(), may_be_null, &plan, steps)
}

/// The plan of a take column.
fn plan_asked<P: Lookup, L: Ledger>(
    lookup: &P,
    alloc: Global,
    indices: &FlatColumn,
    include_nulls: bool,
    steps: &mut Steps<L>,
) -> Res<Taken>
    requires unsigned { IsTrue (names_rows indices.now.dtype) }
    ensures ok { IfOk result (λ plan. plan ≡ taken_of (taken_pairs include_nulls (placed_some (P.rows lookup.now)) (asked indices.now.rows))) }
    ensures err { IsOkUnless result OutOfMemory }
    ensures rise { steps.new ≤ steps.old + length indices.now.rows * (P.lookup_cost lookup.now + 1) }
    ensures monotone { steps.old ≤ steps.new }
{
    let asked = asked_indices(indices, alloc, steps)?;
    plan_take(lookup, alloc, asked.as_slice(), include_nulls, steps)
}

/// The indices that a take column asks for.
fn asked_indices<L: Ledger>(
    indices: &FlatColumn,
    alloc: Global,
    steps: &mut Steps<L>,
) -> Res<Seq<Option<usize>>>
    requires unsigned { IsTrue (names_rows indices.now.dtype) }
    ensures ok { IfOk result (λ list. list ≡ asked indices.now.rows) }
    ensures err { IsOkUnless result OutOfMemory }
    ensures rise { steps.new ≤ steps.old + length indices.now.rows }
    ensures monotone { steps.old ≤ steps.new }
{
    let mut asked = Vec::new(alloc);
    for row in 0..indices.len() {
        asked.push(index_at(indices, row, steps))?;
    }
    Ok(Seq::from_vec(asked))
}

/// The index at a row, absent where the row is null.
fn index_at<L: Ledger>(indices: &FlatColumn, row: usize, steps: &mut Steps<L>) -> Option<usize>
    requires unsigned { IsTrue (names_rows indices.now.dtype) }
    requires inside { row < length indices.now.rows }
    ensures index { result ≡ asked_index (get_or indices.now.rows row None) }
    ensures cost { steps.new ≡ steps.old + 1 }
{
    // Each row fits the type.
    let _ = indices.dtype();
    match indices.int_at(row, steps) {
        Some(number) => Some(number as usize),
        None => None,
    }
}

/// The exceptions of so many rows that a plan takes.
fn left_of<L: Ledger>(
    patches: &Patches,
    alloc: Global,
    row_count: usize,
    may_be_null: bool,
    plan: &Taken,
    steps: &mut Steps<L>,
) -> Res<Option<Patches>>
    requires number { length plan.now.places ≡ length plan.now.indices }
    requires rising { IsStrictlyIncreasing plan.now.indices }
    requires below { All (λ index. index < row_count) plan.now.indices }
    requires within { All (IsWithin (length patches.now.values.rows)) plan.now.places }
    ensures ok { IfOk result (λ left. left ≡ of_pairs row_count (cond may_be_null (nullable patches.now.values.dtype) (taken_type patches.now.values.dtype plan.now.places)) (zip plan.now.indices (picked patches.now.values.rows plan.now.places))) }
    ensures err { IsOkUnless result OutOfMemory }
    ensures rise { steps.new ≤ steps.old + 2 * length plan.now.places }
    ensures monotone { steps.old ≤ steps.new }
{
    let places = plan.places.as_slice();
    if places.is_empty() {
        return Ok(None);
    }
    let values = taken_values(patches.values(), alloc, places, may_be_null, steps)?;
    let left = fresh(alloc, row_count, plan.indices.as_slice(), values)?;
    Ok(Some(left))
}

/// The values at places, of which a null may be one where that is said or a place is absent.
fn taken_values<L: Ledger>(
    values: &FlatColumn,
    alloc: Global,
    places: &[Option<usize>],
    may_be_null: bool,
    steps: &mut Steps<L>,
) -> Res<FlatColumn>
    requires { All (IsWithin (length values.now.rows)) places.now }
    ensures ok { IfOk result (λ c. c ≡ flat (cond may_be_null (nullable values.now.dtype) (taken_type values.now.dtype places.now)) (picked values.now.rows places.now)) }
    ensures err { IsOkUnless result OutOfMemory }
    ensures rise { steps.new ≤ steps.old + 2 * length places.now }
    ensures monotone { steps.old ≤ steps.new }
{
    let taken = values.take(alloc, places, steps)?;
    if may_be_null {
        return widened_values(&taken, alloc, steps);
    }
    Ok(taken)
}
