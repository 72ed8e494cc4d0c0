//! Rows gathered of two columns through selectors.
ghost use Rattle.std.specs.Prelude.{◌≡◌, ◌∷◌, [], IfOk, IfSome, IsTrue};
ghost use Rattle.vx_rows.specs.Types.{AlikeTypes};

use serde_json::Value;
use std::alloc::{AllocError, Global};
use std::io;
use vx_base::{FlatColumn, Ledger, NoLedger, Res, Row, Steps};
use vx_bulk::{BoolArray, PrimitiveArray};
use vx_cases::columns::{column_of, member, rows_text};
use vx_interleave_gather::{gather_bits, gather_ints, gather_validity};

/// What the gather of a kind answers.
pub(crate) fn told<L: Ledger>(
    rt: &HostRuntime,
    kind: &str,
    case: &Value,
    steps: &mut Steps<L>,
) -> io::Result<Res<String>> {
    let first = column_of(rt.alloc(), member(case, "first")?)?;
    let second = column_of(rt.alloc(), member(case, "second")?)?;
    let arrays = column_of(rt.alloc(), member(case, "array_indices")?)?;
    let rows = column_of(rt.alloc(), member(case, "row_indices")?)?;
    if !are_alike(&first, &second) {
        return Ok(not_allowed(rt.alloc()));
    }
    Ok(match kind {
        "bits" => bits(rt, first, second, &arrays, &rows, steps),
        "ints" => ints(rt, first, second, &arrays, &rows, steps),
        _ => validity(rt.alloc(), first, second, &arrays, &rows, steps),
    })
}

fn not_allowed(alloc: Global) -> Res<String> {
    Ok(String::from_str(alloc, "not allowed")?)
}

/// Whether the types are the same up to nullability.
fn are_alike(first: &FlatColumn, second: &FlatColumn) -> bool
    ensures { IsTrue result → AlikeTypes second.now.dtype first.now.dtype }
{
    second.dtype().eq_ignore_nullability(first.dtype())
}

fn bool_array(column: FlatColumn) -> Option<BoolArray>
    ensures { IfSome result (λ array. array ≡ column) }
{
    BoolArray::try_new(column)
}

fn int_array(column: FlatColumn) -> Option<PrimitiveArray>
    ensures { IfSome result (λ array. array ≡ column) }
{
    PrimitiveArray::try_new(column)
}

/// A list of the two.
fn two<T: Drop>(alloc: Global, first: T, second: T) -> Result<Vec<T>, AllocError>
    ensures { IfOk result (λ both. both.items ≡ first ∷ second ∷ []) }
{
    let mut both = Vec::new(alloc);
    both.push(first)?;
    both.push(second)?;
    Ok(both)
}

fn bits<L: Ledger>(
    rt: &HostRuntime,
    first: FlatColumn,
    second: FlatColumn,
    arrays: &FlatColumn,
    rows: &FlatColumn,
    steps: &mut Steps<L>,
) -> Res<String>
    requires { AlikeTypes second.dtype first.dtype }
{
    let Some(first) = bool_array(first) else {
        return not_allowed(rt.alloc());
    };
    let Some(second) = bool_array(second) else {
        return not_allowed(rt.alloc());
    };
    let values = two(rt.alloc(), first, second)?;
    let gathered = gather_bits(rt.alloc(), values.as_slice(), arrays, rows, steps)?;
    column_text(rt, gathered.column())
}

fn ints<L: Ledger>(
    rt: &HostRuntime,
    first: FlatColumn,
    second: FlatColumn,
    arrays: &FlatColumn,
    rows: &FlatColumn,
    steps: &mut Steps<L>,
) -> Res<String>
    requires { AlikeTypes second.dtype first.dtype }
{
    let Some(first) = int_array(first) else {
        return not_allowed(rt.alloc());
    };
    let Some(second) = int_array(second) else {
        return not_allowed(rt.alloc());
    };
    let values = two(rt.alloc(), first, second)?;
    let gathered = gather_ints(rt.alloc(), values.as_slice(), arrays, rows, steps)?;
    column_text(rt, gathered.column())
}

fn validity<L: Ledger>(
    alloc: Global,
    first: FlatColumn,
    second: FlatColumn,
    arrays: &FlatColumn,
    rows: &FlatColumn,
    steps: &mut Steps<L>,
) -> Res<String>
    requires { AlikeTypes second.dtype first.dtype }
{
    let values = two(alloc, first, second)?;
    let validity = gather_validity(alloc, values.as_slice(), arrays, rows, steps)?;
    let bits = validity.to_bits(alloc, arrays.len())?;
    Ok(format!(in alloc; "{:?}", bits.as_slice())?)
}

/// The rows of a column and whether a null is one of its type, read without a count.
fn column_text(rt: &HostRuntime, column: &FlatColumn) -> Res<String> {
    let mut uncounted = Steps::new(rt, NoLedger::new());
    let mut rows: Vec<Row> = Vec::new(rt.alloc());
    for i in 0..column.len() {
        rows.push(column.row_at(rt.alloc(), i, &mut uncounted)?)?;
    }
    let nullable = column.dtype().nullability().is_nullable();
    let rows = rows_text(rt.alloc(), rows.as_slice())?;
    Ok(format!(in rt.alloc(); "{rows}, nullable {nullable}")?)
}
