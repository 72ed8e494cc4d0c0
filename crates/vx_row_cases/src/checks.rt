//! Checks of columns: calls that answer yes or no, and `not allowed` of columns that aren't of unsigned integers.
use crate::columns::column_of;
use crate::reading::sizes_of;
use std::alloc::Global;
use vx_base::checks::{
    all_valid, all_within, counts_below, non_decreasing, selectors_within, strictly_increasing,
};
use vx_base::{FlatColumn, Res};
use vx_cases::Call;

/// What a check of one column says; None where it isn't allowed.
fn checked(column: &FlatColumn, call: &Call<'_>) -> Option<bool> {
    if call.name == "all_valid" {
        return Some(all_valid(column));
    }
    if !column.is_unsigned() {
        return None;
    }
    match call.name {
        "strictly_increasing" => Some(strictly_increasing(column)),
        "non_decreasing" => Some(non_decreasing(column)),
        "all_within" => Some(all_within(column, call.number(1), bound(call))),
        _ => None,
    }
}

/// The upper bound, where there is one.
fn bound(call: &Call<'_>) -> Option<usize> {
    if call.argument(2).is_null() {
        return None;
    }
    Some(call.number(2))
}

/// The same of two columns.
fn counted(offsets: &FlatColumn, indices: &FlatColumn, start: usize) -> Option<bool> {
    if !offsets.is_unsigned() || !indices.is_unsigned() {
        return None;
    }
    Some(counts_below(offsets, indices, start))
}

fn selected(arrays: &FlatColumn, rows: &FlatColumn, lens: &[usize]) -> Option<bool> {
    if !arrays.is_unsigned() || !rows.is_unsigned() || arrays.len() != rows.len() {
        return None;
    }
    if !all_within(arrays, 0, Some(lens.len())) {
        return None;
    }
    Some(selectors_within(arrays, rows, lens))
}

fn two_checked(alloc: Global, column: &FlatColumn, call: &Call<'_>) -> Res<Option<bool>> {
    let other = column_of(alloc, call.argument(1))?;
    if call.name == "counts_below" {
        return Ok(counted(column, &other, call.number(2)));
    }
    let lens = sizes_of(alloc, call.argument(2))?;
    Ok(selected(column, &other, lens.as_slice()))
}

/// The answer to the check that is called.
pub(crate) fn check(alloc: Global, column: &FlatColumn, call: &Call<'_>) -> Res<String> {
    let answer = match call.name {
        "counts_below" | "selectors_within" => two_checked(alloc, column, call)?,
        _ => checked(column, call),
    };
    match answer {
        Some(answer) => Ok(format!(in alloc; "{answer}")?),
        None => Ok(String::from_str(alloc, "not allowed")?),
    }
}
