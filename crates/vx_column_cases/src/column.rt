//! Calls on columns of any encoding.
ghost use Rattle.vx_column.specs.Columns.{IsSound};

use crate::{chunked, encodings};
use std::alloc::Global;
use vx_base::{Ledger, Res, Seq, Steps};
use vx_cases::Call;
use vx_cases::columns::{row_text, rows_text};
use vx_column::Column;
use vx_probe::ArrayProbe;

/// All rows.
pub(crate) fn rows<L: Ledger>(alloc: Global, column: &Column, steps: &mut Steps<L>) -> Res<String>
    requires { IsSound column.now }
{
    let mut rows = Seq::new(alloc);
    column.append_into(alloc, &mut rows, steps)?;
    Ok(rows_text(alloc, rows.as_slice())?)
}

/// A row, or whether it is a value or null, by a probe.
fn probed<L: Ledger>(
    alloc: Global,
    column: &Column,
    call: &Call<'_>,
    steps: &mut Steps<L>,
) -> Res<String>
    requires { IsSound column.now }
{
    let at = call.number(1);
    let mut probe = ArrayProbe::once(column);
    if call.name == "row" {
        let row = probe.execute_scalar(alloc, at, steps)?;
        return Ok(row_text(alloc, &row)?);
    }
    let answer = if call.name == "valid" {
        probe.execute_is_valid(alloc, at, steps)?
    } else {
        probe.execute_is_invalid(alloc, at, steps)?
    };
    Ok(format!(in alloc; "{answer}")?)
}

/// What a call of the column's encoding answers.
fn encoded<L: Ledger>(
    alloc: Global,
    column: &Column,
    call: &Call<'_>,
    steps: &mut Steps<L>,
) -> Res<String>
    requires { IsSound column.now }
{
    match column {
        Column::Flat(_) => Ok(String::from_str(alloc, "no call of flat columns")?),
        Column::Chunked(array) => chunked::answer(alloc, array, call),
        Column::Patched(array) => encodings::patched(alloc, array, call, steps),
        Column::Excepted(array) => encodings::excepted(alloc, array, call, steps),
        Column::Interleave(array) => encodings::interleaved(alloc, array, call),
    }
}

/// What a call answers.
pub(crate) fn answer<L: Ledger>(
    alloc: Global,
    column: &Column,
    call: &Call<'_>,
    steps: &mut Steps<L>,
) -> Res<String>
    requires { IsSound column.now }
{
    Ok(match call.name {
        "id" => String::from_str(alloc, column.id())?,
        "len" => format!(in alloc; "{}", column.len())?,
        "nested" => format!(in alloc; "{}", column.dtype().is_nested())?,
        "costs" => format!(in alloc; "row {}, cut {}", column.point_cost(), column.cut_cost())?,
        "probe" => format!(in alloc; "rows {}", ArrayProbe::once(column).array().len())?,
        "row" | "valid" | "invalid" => probed(alloc, column, call, steps)?,
        "rows" => rows(alloc, column, steps)?,
        "find_chunk" => chunked::place(alloc, column, call.number(1), steps)?,
        _ => encoded(alloc, column, call, steps)?,
    })
}
