//! Selections of a column, as calls of a case say them.
ghost use Rattle.std.specs.Prelude.{IfOk};
ghost use Rattle.vx_column.specs.Columns.{IsSound};

use crate::reading::{bits_of, indices_of, runs_of};
use std::alloc::Global;
use vx_base::{Ledger, Res, Steps};
use vx_cases::Call;
use vx_column::Column;
use vx_masks::Mask;
use vx_select::Select;

fn filtered<L: Ledger>(
    alloc: Global,
    column: &Column,
    call: &Call<'_>,
    steps: &mut Steps<L>,
) -> Res<Column>
    requires { IsSound column.now }
    ensures { IfOk result IsSound }
{
    let bits = bits_of(alloc, call.argument(1))?;
    let mask = Mask::from_bits(alloc, bits.as_slice())?;
    let part = column.filter(alloc, &mask, steps)?;
    Ok(part)
}

/// The mask that keeps so many rows, drops as many, and so on.
fn blocks(alloc: Global, len: usize, size: usize) -> Res<Mask> {
    let mut bits = Vec::new(alloc);
    for at in 0..len {
        bits.push(size > 0 && at / size % 2 == 0)?;
    }
    Mask::from_bits(alloc, bits.as_slice())
}

fn filtered_by_blocks<L: Ledger>(
    alloc: Global,
    column: &Column,
    call: &Call<'_>,
    steps: &mut Steps<L>,
) -> Res<Column>
    requires { IsSound column.now }
    ensures { IfOk result IsSound }
{
    let mask = blocks(alloc, column.len(), call.number(1))?;
    let part = column.filter(alloc, &mask, steps)?;
    Ok(part)
}

fn emptied<L: Ledger>(alloc: Global, column: &Column, steps: &mut Steps<L>) -> Res<Column>
    requires { IsSound column.now }
    ensures { IfOk result IsSound }
{
    let mask = Mask::AllFalse(column.len());
    let part = column.filter(alloc, &mask, steps)?;
    Ok(part)
}

fn taken<L: Ledger>(
    alloc: Global,
    column: &Column,
    call: &Call<'_>,
    steps: &mut Steps<L>,
) -> Res<Column>
    requires { IsSound column.now }
    ensures { IfOk result IsSound }
{
    let indices = indices_of(alloc, call.argument(1))?;
    let part = column.take(alloc, indices.as_slice(), steps)?;
    Ok(part)
}

fn joined<L: Ledger>(
    alloc: Global,
    column: &Column,
    call: &Call<'_>,
    steps: &mut Steps<L>,
) -> Res<Column>
    requires { IsSound column.now }
    ensures { IfOk result IsSound }
{
    let runs = runs_of(alloc, call.argument(1))?;
    let part = column.runs(alloc, runs.as_slice(), call.number(2), steps)?;
    Ok(part)
}

/// The column that a call makes.
pub(crate) fn chosen<L: Ledger>(
    alloc: Global,
    column: &Column,
    call: &Call<'_>,
    steps: &mut Steps<L>,
) -> Res<Column>
    requires { IsSound column.now }
    ensures { IfOk result IsSound }
{
    match call.name {
        "filter" => filtered(alloc, column, call, steps),
        "blocks" => filtered_by_blocks(alloc, column, call, steps),
        "none" => emptied(alloc, column, steps),
        "take" => taken(alloc, column, call, steps),
        _ => joined(alloc, column, call, steps),
    }
}
