//! The columns that calls make of a column.
ghost use Rattle.std.specs.Prelude.{IfOk};
ghost use Rattle.vx_column.specs.Columns.{IsSound};

use crate::reading::{bits_of, named_type, operator_of, scalar_of, scalars_of, unsupported};
use crate::sums::Sums;
use serde_json::Value;
use std::alloc::Global;
use vx_base::{Ledger, Res, Steps};
use vx_cases::Call;
use vx_column::Column;
use vx_json::parts;
use vx_json_rows::Trail;
use vx_ops::{cast, compare, fill, mask, push_constant, push_unary, zip};
use vx_plan::open::open_part;

/// The column of the part that a value says.
pub(crate) fn column_of<L: Ledger>(
    alloc: Global,
    value: &Value,
    steps: &mut Steps<L>,
) -> Res<Column>
    ensures { IfOk result IsSound }
{
    let Ok(part) = parts::part_of(alloc, value, &Trail::Whole(alloc)) else {
        return Err(unsupported(alloc));
    };
    let column = open_part(alloc, &part, steps)?;
    Ok(column)
}

fn masked<L: Ledger>(
    alloc: Global,
    column: &Column,
    call: &Call<'_>,
    steps: &mut Steps<L>,
) -> Res<Column>
    requires { IsSound column.now }
    ensures { IfOk result IsSound }
{
    let keep = bits_of(alloc, call.argument(1), column.len())?;
    let rows = mask(alloc, column, keep.as_slice(), steps)?;
    Ok(rows)
}

/// The column of a part, or the column itself where a call says `null`.
fn source<L: Ledger>(
    alloc: Global,
    column: &Column,
    value: &Value,
    steps: &mut Steps<L>,
) -> Res<Column>
    requires { IsSound column.now }
    ensures { IfOk result IsSound }
{
    if value.is_null() {
        let column = column.share(alloc)?;
        return Ok(column);
    }
    let column = column_of(alloc, value, steps)?;
    Ok(column)
}

fn zipped<L: Ledger>(
    alloc: Global,
    column: &Column,
    call: &Call<'_>,
    steps: &mut Steps<L>,
) -> Res<Column>
    requires { IsSound column.now }
    ensures { IfOk result IsSound }
{
    let other = source(alloc, column, call.argument(1), steps)?;
    let choice = bits_of(alloc, call.argument(2), column.len())?;
    let rows = zip(alloc, column, &other, choice.as_slice(), steps)?;
    Ok(rows)
}

fn filled<L: Ledger>(
    alloc: Global,
    column: &Column,
    call: &Call<'_>,
    steps: &mut Steps<L>,
) -> Res<Column>
    requires { IsSound column.now }
    ensures { IfOk result IsSound }
{
    let value = scalar_of(alloc, call.argument(1))?;
    if column.dtype().is_nested() {
        return Err(unsupported(alloc));
    }
    let rows = fill(alloc, column, &value, steps)?;
    Ok(rows)
}

fn converted<L: Ledger>(
    alloc: Global,
    column: &Column,
    call: &Call<'_>,
    steps: &mut Steps<L>,
) -> Res<Column>
    requires { IsSound column.now }
    ensures { IfOk result IsSound }
{
    let dtype = named_type(alloc, call.argument(1))?;
    let rows = cast(alloc, column, &dtype, steps)?;
    Ok(rows)
}

fn compared<L: Ledger>(
    alloc: Global,
    column: &Column,
    call: &Call<'_>,
    steps: &mut Steps<L>,
) -> Res<Column>
    requires { IsSound column.now }
    ensures { IfOk result IsSound }
{
    let op = operator_of(alloc, call.argument(1))?;
    let value = scalar_of(alloc, call.argument(2))?;
    if column.dtype().is_nested() {
        return Err(unsupported(alloc));
    }
    let rows = compare(alloc, column, op, &value, steps)?;
    Ok(rows)
}

/// The sums of the rows of chunks and 1.
fn summed<L: Ledger>(alloc: Global, column: &Column, steps: &mut Steps<L>) -> Res<Column>
    requires { IsSound column.now }
    ensures { IfOk result IsSound }
{
    match column {
        Column::Chunked(array) => {
            let sums = push_unary(alloc, array, &Sums {}, steps)?;
            Ok(Column::Chunked(sums))
        }
        _ => Err(unsupported(alloc)),
    }
}

/// The sums of the rows of chunks and the first sibling.
fn summed_with<L: Ledger>(
    alloc: Global,
    column: &Column,
    call: &Call<'_>,
    steps: &mut Steps<L>,
) -> Res<Column>
    requires { IsSound column.now }
    ensures { IfOk result IsSound }
{
    let siblings = scalars_of(alloc, call.argument(1))?;
    match column {
        Column::Chunked(array) => {
            let sums = push_constant(alloc, array, &Sums {}, siblings.as_slice(), steps)?;
            Ok(Column::Chunked(sums))
        }
        _ => Err(unsupported(alloc)),
    }
}

fn cut<L: Ledger>(
    alloc: Global,
    column: &Column,
    call: &Call<'_>,
    steps: &mut Steps<L>,
) -> Res<Column>
    requires { IsSound column.now }
    ensures { IfOk result IsSound }
{
    let part = column.slice(alloc, call.number(1)..call.number(2), steps)?;
    Ok(part)
}

/// The column that a call makes.
pub(crate) fn made<L: Ledger>(
    alloc: Global,
    column: &Column,
    call: &Call<'_>,
    steps: &mut Steps<L>,
) -> Res<Column>
    requires { IsSound column.now }
    ensures { IfOk result IsSound }
{
    match call.name {
        "mask" => masked(alloc, column, call, steps),
        "zip" => zipped(alloc, column, call, steps),
        "fill" => filled(alloc, column, call, steps),
        "cast" => converted(alloc, column, call, steps),
        "compare" => compared(alloc, column, call, steps),
        "push_unary" => summed(alloc, column, steps),
        "slice" => cut(alloc, column, call, steps),
        _ => summed_with(alloc, column, call, steps),
    }
}
