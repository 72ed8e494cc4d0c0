//! Calls on a flat column.
ghost use Rattle.std.specs.Prelude.{◌≡◌};
ghost use Rattle.vx_base.specs.Numbers.{is_integer};

use crate::reading::{bits_of, flat_of, named_type, operator_of, scalar_of, type_text};
use std::alloc::{AllocError, Global};
use vx_base::{DType, FlatColumn, Ledger, Res, Seq, Steps};
use vx_cases::columns::rows_text;
use vx_cases::{Asked, Call};
use vx_elementwise::Elementwise;

/// The flat column that calls ask.
#[derive(Drop)]
pub(crate) struct Flats {
    pub(crate) column: FlatColumn,
}

fn zipped<L: Ledger>(
    alloc: Global,
    column: &FlatColumn,
    call: &Call<'_>,
    steps: &mut Steps<L>,
) -> Res<Option<FlatColumn>> {
    let other = flat_of(alloc, call.argument(1))?;
    let choice = bits_of(alloc, call.argument(2), column.len())?;
    if choice.len() != column.len() || other.len() != column.len() {
        return Ok(None);
    }
    if !column.dtype().eq_ignore_nullability(other.dtype()) {
        return Ok(None);
    }
    Ok(Some(column.zip(alloc, &other, choice.as_slice(), steps)?))
}

fn filled<L: Ledger>(
    alloc: Global,
    column: &FlatColumn,
    call: &Call<'_>,
    steps: &mut Steps<L>,
) -> Res<Option<FlatColumn>> {
    let value = scalar_of(alloc, call.argument(1))?;
    if column.dtype().is_nested() || value.row().is_none() {
        return Ok(None);
    }
    if !column.dtype().eq_ignore_nullability(value.dtype()) {
        return Ok(None);
    }
    Ok(Some(column.fill(alloc, &value, steps)?))
}

/// Whether the type is of integers.
fn is_integer(dtype: &DType) -> bool
    ensures { result ≡ is_integer dtype.now }
{
    matches!(dtype, DType::Primitive(_, _))
}

fn cast<L: Ledger>(
    alloc: Global,
    column: &FlatColumn,
    call: &Call<'_>,
    steps: &mut Steps<L>,
) -> Res<Option<FlatColumn>> {
    let dtype = named_type(alloc, call.argument(1))?;
    if !is_integer(column.dtype()) || !is_integer(&dtype) {
        return Ok(None);
    }
    Ok(Some(column.cast(alloc, &dtype, steps)?))
}

fn compared<L: Ledger>(
    alloc: Global,
    column: &FlatColumn,
    call: &Call<'_>,
    steps: &mut Steps<L>,
) -> Res<Option<FlatColumn>> {
    let op = operator_of(alloc, call.argument(1))?;
    let value = scalar_of(alloc, call.argument(2))?;
    if column.dtype().is_nested() {
        return Ok(None);
    }
    if !column.dtype().eq_ignore_nullability(value.dtype()) {
        return Ok(None);
    }
    Ok(Some(column.compare(alloc, op, &value, steps)?))
}

/// What the call makes; None where its condition doesn't hold.
fn made<L: Ledger>(
    alloc: Global,
    column: &FlatColumn,
    call: &Call<'_>,
    steps: &mut Steps<L>,
) -> Res<Option<FlatColumn>> {
    match call.name {
        "zip" => zipped(alloc, column, call, steps),
        "fill" => filled(alloc, column, call, steps),
        "cast" => cast(alloc, column, call, steps),
        _ => compared(alloc, column, call, steps),
    }
}

fn rows<L: Ledger>(alloc: Global, column: &FlatColumn, steps: &mut Steps<L>) -> Res<String> {
    let mut rows = Seq::new(alloc);
    column.copy_into(alloc, 0..column.len(), &mut rows, steps)?;
    Ok(rows_text(alloc, rows.as_slice())?)
}

impl Asked for Flats {
    fn shape(&self, alloc: Global) -> Result<String, AllocError> {
        let column = &self.column;
        let dtype = type_text(alloc, column.dtype())?;
        let stored = if column.as_constant().is_some() {
            "one stored"
        } else {
            "all stored"
        };
        format!(in alloc; "{dtype}, rows {}, {stored}", column.len())
    }

    fn makes(&self, call: &Call<'_>) -> bool {
        matches!(call.name, "zip" | "fill" | "cast" | "compare")
    }

    fn made<L: Ledger>(
        &self,
        alloc: Global,
        call: &Call<'_>,
        steps: &mut Steps<L>,
    ) -> Res<Option<Self>> {
        match made(alloc, &self.column, call, steps)? {
            Some(column) => Ok(Some(Flats { column })),
            None => Ok(None),
        }
    }

    fn answer<L: Ledger>(
        &self,
        alloc: Global,
        call: &Call<'_>,
        steps: &mut Steps<L>,
    ) -> Res<String> {
        match call.name {
            "rows" => rows(alloc, &self.column, steps),
            _ => Ok(String::from_str(alloc, "no call of flat columns")?),
        }
    }
}
