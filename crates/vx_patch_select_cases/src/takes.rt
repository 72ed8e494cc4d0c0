//! Takes of exceptions, of which a call names the column of indices.
use serde_json::Value;
use std::alloc::Global;
use vx_base::{ColumnError, FlatColumn, Ledger, Res, Steps};
use vx_bulk::PrimitiveArray;
use vx_cases::Call;
use vx_cases::columns::column_of;
use vx_patch_select::SelectPatches;
use vx_patches::Patches;

/// The indices of a call. What is no column has the answer of a column without chunks, which no take gives.
fn indices_of(alloc: Global, value: &Value) -> Res<FlatColumn> {
    match column_of(alloc, value) {
        Ok(column) => Ok(column),
        Err(_) => Err(ColumnError::NoChunks),
    }
}

/// What a take leaves.
pub(crate) fn taken<L: Ledger>(
    patches: &Patches,
    alloc: Global,
    call: &Call<'_>,
    steps: &mut Steps<L>,
) -> Res<Option<Patches>> {
    let indices = indices_of(alloc, call.argument(1))?;
    match call.name {
        "take" => patches.take(alloc, &indices, steps),
        "take_with_nulls" => patches.take_with_nulls(alloc, &indices, steps),
        _ => taken_one_way(patches, alloc, call, indices, steps),
    }
}

/// What a take leaves that says how it looks up.
fn taken_one_way<L: Ledger>(
    patches: &Patches,
    alloc: Global,
    call: &Call<'_>,
    indices: FlatColumn,
    steps: &mut Steps<L>,
) -> Res<Option<Patches>> {
    let include_nulls = call.argument(2).as_bool().unwrap_or(false);
    let Some(indices) = PrimitiveArray::try_new(indices) else {
        return Err(ColumnError::NoChunks);
    };
    if call.name == "take_search" {
        patches.take_search(alloc, indices, include_nulls, steps)
    } else {
        patches.take_map(alloc, indices, include_nulls, steps)
    }
}
