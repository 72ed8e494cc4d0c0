//! Scalars, and how one stands to another.
use crate::reading::{operator_of, scalar_of, type_text};
use serde_json::Value;
use std::alloc::Global;
use vx_base::Res;
use vx_base::order::row_cmp;
use vx_cases::columns::row_text;

/// The type and the row of a copy of the scalar, or whether the operator holds between its row and that of another.
pub(crate) fn told(alloc: Global, scalar: &Value, case: &Value) -> Res<String> {
    match case.get("op") {
        Some(op) => compared(alloc, scalar, op, case.get("than").unwrap_or(case)),
        None => copied(alloc, scalar),
    }
}

fn copied(alloc: Global, scalar: &Value) -> Res<String> {
    let scalar = scalar_of(alloc, scalar)?.copy(alloc)?;
    let dtype = type_text(alloc, scalar.dtype())?;
    let row = row_text(alloc, scalar.row())?;
    Ok(format!(in alloc; "{dtype} {row}")?)
}

fn compared(alloc: Global, scalar: &Value, op: &Value, other: &Value) -> Res<String> {
    let op = operator_of(alloc, op)?;
    let scalar = scalar_of(alloc, scalar)?;
    let other = scalar_of(alloc, other)?;
    let holds = op.holds(row_cmp(scalar.row(), other.row()));
    Ok(format!(in alloc; "{op:?} {holds}")?)
}
