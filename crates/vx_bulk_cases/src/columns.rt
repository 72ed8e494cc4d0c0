//! Calls on a flat column.
//!
//! Each of these makes the column that the calls behind it ask, and is answered with its shape:
//!
//! - `["filter","101"]`, `["filter_all"]`, `["filter_none"]`: the rows of the true bits, where some are, all or none;
//! - `["pick",[place,..]]`, and `["take",[place,..]]`, where a place may be `null`;
//! - `["runs",[[start,length],..]]`;
//! - `["mask","101"]`;
//! - `["concat",[F,..]]`: the rows of this column, and of those.
//!
//! The others are `["shape"]`: the number of rows, whether a null may be one, and whether one row is stored for all;
//! `["rows"]`, `["row",i]`; and `["bools"]`, `["integers"]`: whether the column is an array of these.
ghost use Rattle.std.specs.Prelude.{◌≡◌, ◌<◌, All, IsTrue, ◌↔◌};
ghost use Rattle.vx_bulk.specs.Selections.{IsWithin, IsInside};

use crate::reading::{bits_of, columns_of, numbers_of, pairs_of, places_of};
use serde_json::Value;
use std::alloc::{AllocError, Global};
use vx_base::dtype::same_type;
use vx_base::{DType, FlatColumn, Ledger, Res, Seq, Steps};
use vx_bulk::{BoolArray, Bulk, PrimitiveArray, concat};
use vx_cases::columns::{row_text, rows_text};
use vx_cases::{Asked, Call};
use vx_masks::Mask;

/// The column that calls ask.
#[derive(Drop)]
pub(crate) struct Columns {
    pub(crate) column: FlatColumn,
}

/// Whether the places are below a length.
fn are_below(places: &[usize], len: usize) -> bool
    ensures { IsTrue result ↔ All (λ place. place < len) places.now }
{
    places.iter().all(|place| *place < len)
}

fn is_within(place: Option<usize>, len: usize) -> bool
    ensures { IsTrue result ↔ IsWithin len place }
{
    match place {
        Some(place) => place < len,
        None => true,
    }
}

/// Whether the places that aren't absent are below a length.
fn are_within(places: &[Option<usize>], len: usize) -> bool
    ensures { IsTrue result ↔ All (IsWithin len) places.now }
{
    places.iter().all(|place| is_within(*place, len))
}

fn is_inside(start: usize, count: usize, len: usize) -> bool
    ensures { IsTrue result ↔ IsInside len (start, count) }
{
    count == 0 || (start <= len && count <= len - start)
}

/// Whether the runs that aren't empty end at a length or before.
fn are_inside(runs: &[(usize, usize)], len: usize) -> bool
    ensures { IsTrue result ↔ All (IsInside len) runs.now }
{
    runs.iter().all(|run| is_inside(run.0, run.1, len))
}

/// Whether the columns are of a type.
fn are_of(columns: &[FlatColumn], dtype: &DType) -> bool
    ensures { IsTrue result ↔ All (λ column. column.dtype ≡ dtype.now) columns.now }
{
    columns
        .iter()
        .all(|column| same_type(column.dtype(), dtype))
}

fn filtered<L: Ledger>(
    column: &FlatColumn,
    alloc: Global,
    bits: &Value,
    steps: &mut Steps<L>,
) -> Res<Option<FlatColumn>> {
    let bits = bits_of(alloc, bits)?;
    let mask = Mask::from_bits(alloc, bits.as_slice())?;
    filtered_by(column, alloc, &mask, steps)
}

fn filtered_by<L: Ledger>(
    column: &FlatColumn,
    alloc: Global,
    mask: &Mask,
    steps: &mut Steps<L>,
) -> Res<Option<FlatColumn>> {
    if mask.len() != column.len() {
        return Ok(None);
    }
    Ok(Some(column.filter(alloc, mask, steps)?))
}

fn picked<L: Ledger>(
    column: &FlatColumn,
    alloc: Global,
    places: &Value,
    steps: &mut Steps<L>,
) -> Res<Option<FlatColumn>> {
    let places = numbers_of(alloc, places)?;
    if !are_below(places.as_slice(), column.len()) {
        return Ok(None);
    }
    Ok(Some(column.pick(alloc, places.as_slice(), steps)?))
}

fn taken<L: Ledger>(
    column: &FlatColumn,
    alloc: Global,
    places: &Value,
    steps: &mut Steps<L>,
) -> Res<Option<FlatColumn>> {
    let places = places_of(alloc, places)?;
    if !are_within(places.as_slice(), column.len()) {
        return Ok(None);
    }
    Ok(Some(column.take(alloc, places.as_slice(), steps)?))
}

fn run_over<L: Ledger>(
    column: &FlatColumn,
    alloc: Global,
    runs: &Value,
    steps: &mut Steps<L>,
) -> Res<Option<FlatColumn>> {
    let runs = pairs_of(alloc, runs)?;
    if !are_inside(runs.as_slice(), column.len()) {
        return Ok(None);
    }
    Ok(Some(column.runs(alloc, runs.as_slice(), steps)?))
}

fn masked<L: Ledger>(
    column: &FlatColumn,
    alloc: Global,
    keep: &Value,
    steps: &mut Steps<L>,
) -> Res<Option<FlatColumn>> {
    let keep = bits_of(alloc, keep)?;
    if keep.len() != column.len() {
        return Ok(None);
    }
    Ok(Some(column.mask(alloc, keep.as_slice(), steps)?))
}

/// The column and the others, one behind the other.
fn joined<L: Ledger>(
    column: &FlatColumn,
    alloc: Global,
    others: &Value,
    steps: &mut Steps<L>,
) -> Res<Option<FlatColumn>> {
    let mut columns = Vec::new(alloc);
    columns.push(column.share()?)?;
    for other in columns_of(alloc, others)? {
        columns.push(other)?;
    }
    if !are_of(columns.as_slice(), column.dtype()) {
        return Ok(None);
    }
    Ok(Some(concat(alloc, column.dtype(), columns.as_slice(), steps)?))
}

fn rows<L: Ledger>(column: &FlatColumn, alloc: Global, steps: &mut Steps<L>) -> Res<String> {
    if column.is_empty() {
        return Ok(String::from_str(alloc, "no rows")?);
    }
    let mut rows = Seq::new(alloc);
    column.copy_into(alloc, 0..column.len(), &mut rows, steps)?;
    Ok(rows_text(alloc, rows.as_slice())?)
}

fn row<L: Ledger>(
    column: &FlatColumn,
    alloc: Global,
    i: usize,
    steps: &mut Steps<L>,
) -> Res<String> {
    if i >= column.len() {
        return Ok(String::from_str(alloc, "not allowed")?);
    }
    let row = column.row_at(alloc, i, steps)?;
    Ok(row_text(alloc, &row)?)
}

/// How many rows of an array of booleans there are, where the column is one.
fn bools(column: &FlatColumn, alloc: Global) -> Res<String> {
    match BoolArray::try_new(column.share()?) {
        Some(array) => {
            let len = array.column().len();
            let column = array.into_column();
            Ok(format!(in alloc; "{len} of {}", column.len())?)
        }
        None => Ok(String::from_str(alloc, "none")?),
    }
}

/// How many rows of an array of integers there are, where the column is one.
fn integers(column: &FlatColumn, alloc: Global) -> Res<String> {
    match PrimitiveArray::try_new(column.share()?) {
        Some(array) => {
            let len = array.column().len();
            let column = array.into_column();
            Ok(format!(in alloc; "{len} of {}", column.len())?)
        }
        None => Ok(String::from_str(alloc, "none")?),
    }
}

impl Asked for Columns {
    fn shape(&self, alloc: Global) -> Result<String, AllocError> {
        let column = &self.column;
        let nulls = if column.dtype().nullability().is_nullable() {
            "with nulls"
        } else {
            "without nulls"
        };
        let stored = if column.as_constant().is_some() {
            "one stored"
        } else {
            "all stored"
        };
        format!(in alloc; "{} rows, {nulls}, {stored}", column.len())
    }

    fn makes(&self, call: &Call<'_>) -> bool {
        matches!(
            call.name,
            "filter" | "filter_all" | "filter_none" | "pick" | "take" | "runs" | "mask" | "concat"
        )
    }

    fn made<L: Ledger>(
        &self,
        alloc: Global,
        call: &Call<'_>,
        steps: &mut Steps<L>,
    ) -> Res<Option<Self>> {
        match selected(&self.column, alloc, call, steps)? {
            Some(column) => Ok(Some(Columns { column })),
            None => Ok(None),
        }
    }

    fn answer<L: Ledger>(
        &self,
        alloc: Global,
        call: &Call<'_>,
        steps: &mut Steps<L>,
    ) -> Res<String> {
        let column = &self.column;
        match call.name {
            "shape" => Ok(self.shape(alloc)?),
            "rows" => rows(column, alloc, steps),
            "row" => row(column, alloc, call.number(1), steps),
            "bools" => bools(column, alloc),
            "integers" => integers(column, alloc),
            _ => Ok(String::from_str(alloc, "no call of columns")?),
        }
    }
}

/// What the call selects; None where its condition doesn't hold.
fn selected<L: Ledger>(
    column: &FlatColumn,
    alloc: Global,
    call: &Call<'_>,
    steps: &mut Steps<L>,
) -> Res<Option<FlatColumn>> {
    let argument = call.argument(1);
    match call.name {
        "filter" => filtered(column, alloc, argument, steps),
        "filter_all" => filtered_by(column, alloc, &Mask::AllTrue(column.len()), steps),
        "filter_none" => filtered_by(column, alloc, &Mask::AllFalse(column.len()), steps),
        "pick" => picked(column, alloc, argument, steps),
        "take" => taken(column, alloc, argument, steps),
        "runs" => run_over(column, alloc, argument, steps),
        "mask" => masked(column, alloc, argument, steps),
        _ => joined(column, alloc, argument, steps),
    }
}
