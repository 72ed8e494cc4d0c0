//! Calls on a column.
//!
//! Each of these makes the column that the calls behind it ask, and is answered with its encoding, its type and how many rows
//! it has:
//!
//! - `["mask",B]` and `["zip",P,B]`, where `null` in place of a part is the column itself, and B is a text of bits, as `"101"`, or
//!   a number of bits that are true, as many false, and so on;
//! - `["fill",S]`, `["cast",T]` and `["compare",O,S]`;
//! - `["push_unary"]` and `["push_constant",[S]]`: the sums of each row and 1, or the first scalar;
//! - `["slice",start,end]`.
//!
//! The others are `["rows"]`, all rows; `["chunks"]`, the rows of each chunk; `["pairs",P]`, the pairs of chunks of the column and
//! another; `["constant"]`, whether one row is stored for all; `["numbered"]`, how many rows are null, and how many are the numbers of
//! their places; and `["trues"]`, the places of the rows that are true.
ghost use Rattle.std.specs.Prelude.{◌≡◌, IfOk};
ghost use Rattle.vx_column.specs.Columns.{IsSound};

use crate::made::{column_of, made};
use crate::pairs;
use crate::reading::type_text;
use serde_json::Value;
use std::alloc::{AllocError, Global};
use std::marker::Model;
use vx_base::{Ledger, NoLedger, Res, RowBuffer, RowRef, Steps};
use vx_cases::{Asked, Call};
use vx_column::Column;

/// A column whose parts fit together, as those of parts do.
pub(crate) struct Opened {
    column: Column,
}

impl Drop for Opened {
    fn drop(self) {
        let Opened { column: _ } = self;
    }
}

impl Model for Opened {
    ghost use Rattle.vx_column.specs.Columns.{IsSound};
    ghost use Rattle.vx_column.specs.declared.column.Column.{Column};
    ghost use Rattle.vx_column.specs.contracts.column.Column as column_row;

    ghost Value = { Column };

    ghost coded = { column_row.the_row.coded };

    ghost view = { λ o. o.column };

    ghost invariant = { λ o. IsSound o.column };
}

impl Opened {
    pub(crate) fn new(column: Column) -> Self
        requires { IsSound column }
        ensures { result ≡ column }
    {
        Opened { column }
    }
}

/// The column of the part that a value says.
pub(crate) fn opened_of(rt: &HostRuntime, value: &Value) -> Res<Opened> {
    let mut steps = Steps::new(rt, NoLedger::new());
    let column = column_of(rt.alloc(), value, &mut steps)?;
    Ok(Opened::new(column))
}

fn made_of<L: Ledger>(
    alloc: Global,
    column: &Column,
    call: &Call<'_>,
    steps: &mut Steps<L>,
) -> Res<Opened>
    requires { IsSound column.now }
{
    let column = made(alloc, column, call, steps)?;
    Ok(Opened::new(column))
}

/// The rows of each chunk; none where there are no chunks.
fn chunks<L: Ledger>(alloc: Global, column: &Column, steps: &mut Steps<L>) -> Res<String>
    requires { IsSound column.now }
{
    let Column::Chunked(array) = column else {
        return Ok(String::from_str(alloc, "none")?);
    };
    let mut text = String::new(alloc);
    for chunk in array.children() {
        let rows = pairs::rows(alloc, chunk, steps)?;
        write!(text, "[{rows}]")?;
    }
    Ok(text)
}

/// The pairs of chunks of the column and another.
fn pairs_of<L: Ledger>(
    alloc: Global,
    column: &Column,
    call: &Call<'_>,
    steps: &mut Steps<L>,
) -> Res<String>
    requires { IsSound column.now }
{
    let other = column_of(alloc, call.argument(1), steps)?;
    pairs::told(alloc, column, &other, steps)
}

/// Whether one row is stored for all.
fn is_constant(column: &Column) -> bool {
    match column {
        Column::Flat(rows) => rows.as_constant().is_some(),
        _ => false,
    }
}

/// How many rows are null, and how many the numbers of their places.
fn numbered(alloc: Global, rows: &RowBuffer) -> Result<String, AllocError> {
    let mut nulls = 0u64;
    let mut numbers = 0u64;
    for i in 0..rows.len() {
        if !rows.is_valid(i) {
            nulls = nulls.saturating_add(1);
        } else if rows.int(i) == Some(i as i128) {
            numbers = numbers.saturating_add(1);
        }
    }
    format!(in alloc; "{nulls} null, {numbers} numbered of {}", rows.len())
}

/// The places of the rows that are true.
fn trues(alloc: Global, rows: &RowBuffer) -> Result<String, AllocError> {
    let mut text = String::new(alloc);
    for i in 0..rows.len() {
        if matches!(rows.get(i), RowRef::Bool(true)) {
            write!(text, "{i} ")?;
        }
    }
    write!(text, "of {}", rows.len())?;
    Ok(text)
}

impl Asked for Opened {
    fn shape(&self, alloc: Global) -> Result<String, AllocError> {
        let dtype = type_text(alloc, self.column.dtype())?;
        format!(in alloc; "{}, {dtype}, rows {}", self.column.id(), self.column.len())
    }

    fn makes(&self, call: &Call<'_>) -> bool {
        matches!(
            call.name,
            "mask" | "zip" | "fill" | "cast" | "compare" | "push_unary" | "push_constant" | "slice"
        )
    }

    fn made<L: Ledger>(
        &self,
        alloc: Global,
        call: &Call<'_>,
        steps: &mut Steps<L>,
    ) -> Res<Option<Self>> {
        Ok(Some(made_of(alloc, &self.column, call, steps)?))
    }

    fn answer<L: Ledger>(
        &self,
        alloc: Global,
        call: &Call<'_>,
        steps: &mut Steps<L>,
    ) -> Res<String> {
        let column = &self.column;
        Ok(match call.name {
            "rows" => pairs::rows(alloc, column, steps)?,
            "chunks" => chunks(alloc, column, steps)?,
            "pairs" => pairs_of(alloc, column, call, steps)?,
            "constant" => format!(in alloc; "{}", is_constant(column))?,
            "numbered" => numbered(alloc, &column.to_buffer(alloc, steps)?)?,
            "trues" => trues(alloc, &column.to_buffer(alloc, steps)?)?,
            _ => String::from_str(alloc, "no call of columns")?,
        })
    }
}
