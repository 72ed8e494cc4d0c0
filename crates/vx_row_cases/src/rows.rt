//! Calls on rows.
use crate::reading::{dtype_of, row_of, rows_of};
use std::alloc::{AllocError, Global};
use std::cmp::Ordering;
use vx_base::copy::{copy_row, copy_rows, copy_value, repeat_row};
use vx_base::fits::{row_fits, rows_fit};
use vx_base::order::{row_cmp, rows_cmp, value_cmp};
use vx_base::{Ledger, Res, Row, Steps, Value};
use vx_cases::{Asked, Call};

/// Whom calls on rows ask.
#[derive(Drop)]
pub(crate) struct Rows;

/// A row as text, with the rows within.
pub(crate) fn row_text(alloc: Global, row: &Row) -> Result<String, AllocError> {
    match row {
        Some(Value::List(rows)) => held_text(alloc, "list", rows.as_slice()),
        Some(Value::Struct(rows)) => held_text(alloc, "struct", rows.as_slice()),
        row => flat_text(alloc, row),
    }
}

fn flat_text(alloc: Global, row: &Row) -> Result<String, AllocError> {
    match row {
        Some(Value::Utf8(text)) => format!(in alloc; "{:?}", text.as_str()),
        Some(Value::Decimal(number)) => format!(in alloc; "decimal {number}"),
        row => vx_cases::columns::row_text(alloc, row),
    }
}

fn held_text(alloc: Global, kind: &str, rows: &[Row]) -> Result<String, AllocError> {
    let mut text = format!(in alloc; "{kind} [")?;
    for (i, row) in rows.iter().enumerate() {
        if i > 0 {
            text.push(',')?;
        }
        let row = flat_text(alloc, row)?;
        text.push_str(row.as_str())?;
    }
    text.push(']')?;
    Ok(text)
}

/// Rows as text.
pub(crate) fn rows_text(alloc: Global, rows: &[Row]) -> Result<String, AllocError> {
    let mut text = String::from_str(alloc, "[")?;
    for (i, row) in rows.iter().enumerate() {
        if i > 0 {
            text.push(',')?;
        }
        let row = row_text(alloc, row)?;
        text.push_str(row.as_str())?;
    }
    text.push(']')?;
    Ok(text)
}

/// How each row stands to the next.
fn orders(alloc: Global, rows: &[Row]) -> Result<String, AllocError> {
    let mut text = String::new(alloc);
    for i in 1..rows.len() {
        if i > 1 {
            text.push(' ')?;
        }
        let order = row_cmp(&rows[i - 1], &rows[i]);
        write!(text, "{order:?}")?;
    }
    Ok(text)
}

/// How two values stand to each other; None where a row is null.
fn value_order(a: &Row, b: &Row) -> Option<Ordering> {
    match (a, b) {
        (Some(a), Some(b)) => Some(value_cmp(a, b)),
        _ => None,
    }
}

/// The copy of a value, as a row.
fn value_copy(alloc: Global, row: &Row) -> Res<Row> {
    match row {
        Some(value) => Ok(Some(copy_value(alloc, value)?)),
        None => Ok(None),
    }
}

/// The copy as text, and how it stands to the row.
fn copied(alloc: Global, copy: &Row, row: &Row) -> Res<String> {
    let order = row_cmp(copy, row);
    let text = row_text(alloc, copy)?;
    Ok(format!(in alloc; "{order:?} {text}")?)
}

/// The same of rows.
fn rows_copied(alloc: Global, copies: &[Row], rows: &[Row]) -> Res<String> {
    let order = rows_cmp(copies, rows);
    let text = rows_text(alloc, copies)?;
    Ok(format!(in alloc; "{order:?} {text}")?)
}

fn repeated(alloc: Global, call: &Call<'_>) -> Res<String> {
    let row = row_of(alloc, call.argument(1))?;
    let rows = repeat_row(alloc, &row, call.number(2))?;
    let copies = copy_rows(alloc, rows.as_slice())?;
    rows_copied(alloc, copies.as_slice(), rows.as_slice())
}

fn fits(alloc: Global, call: &Call<'_>) -> Res<String> {
    let dtype = dtype_of(alloc, call.argument(1))?;
    let row = row_of(alloc, call.argument(2))?;
    Ok(format!(in alloc; "{}", row_fits(&dtype, &row))?)
}

fn all_fit(alloc: Global, call: &Call<'_>) -> Res<String> {
    let dtype = dtype_of(alloc, call.argument(1))?;
    let rows = rows_of(alloc, call.argument(2))?;
    Ok(format!(in alloc; "{}", rows_fit(rows.as_slice(), &dtype))?)
}

fn row_answer(alloc: Global, call: &Call<'_>) -> Res<String> {
    let row = row_of(alloc, call.argument(1))?;
    match call.name {
        "copy_row" => copied(alloc, &copy_row(alloc, &row)?, &row),
        "copy_value" => copied(alloc, &value_copy(alloc, &row)?, &row),
        "row_cmp" => {
            let other = row_of(alloc, call.argument(2))?;
            Ok(format!(in alloc; "{:?}", row_cmp(&row, &other))?)
        }
        "value_cmp" => {
            let other = row_of(alloc, call.argument(2))?;
            Ok(format!(in alloc; "{:?}", value_order(&row, &other))?)
        }
        _ => Ok(String::from_str(alloc, "no call of rows")?),
    }
}

fn rows_answer(alloc: Global, call: &Call<'_>) -> Res<String> {
    let rows = rows_of(alloc, call.argument(1))?;
    match call.name {
        "orders" => Ok(orders(alloc, rows.as_slice())?),
        "copy_rows" => {
            let copies = copy_rows(alloc, rows.as_slice())?;
            rows_copied(alloc, copies.as_slice(), rows.as_slice())
        }
        _ => {
            let others = rows_of(alloc, call.argument(2))?;
            let order = rows_cmp(rows.as_slice(), others.as_slice());
            Ok(format!(in alloc; "{order:?}")?)
        }
    }
}

impl Asked for Rows {
    fn shape(&self, alloc: Global) -> Result<String, AllocError> {
        String::from_str(alloc, "rows")
    }

    fn makes(&self, _call: &Call<'_>) -> bool {
        false
    }

    fn made<L: Ledger>(
        &self,
        _alloc: Global,
        _call: &Call<'_>,
        _steps: &mut Steps<L>,
    ) -> Res<Option<Self>> {
        Ok(None)
    }

    fn answer<L: Ledger>(
        &self,
        alloc: Global,
        call: &Call<'_>,
        _steps: &mut Steps<L>,
    ) -> Res<String> {
        match call.name {
            "orders" | "copy_rows" | "rows_cmp" => rows_answer(alloc, call),
            "repeat_row" => repeated(alloc, call),
            "row_fits" => fits(alloc, call),
            "rows_fit" => all_fit(alloc, call),
            _ => row_answer(alloc, call),
        }
    }
}
