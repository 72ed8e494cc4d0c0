//! Calls on flat columns.
ghost use Rattle.std.specs.Prelude.{◌≡◌};
ghost use Rattle.vx_base.specs.Numbers as spec;

use crate::checks::check;
use crate::reading::{dtype_of, row_of, rows_of};
use crate::rows::{row_text, rows_text};
use serde_json::Value;
use std::alloc::{AllocError, Global};
use vx_base::{DType, FlatColumn, Ledger, Res, Seq, Steps};
use vx_cases::{Asked, Call};

/// Whom calls on a column ask.
#[derive(Drop)]
pub(crate) struct Column {
    flat: FlatColumn,
}

/// The column that a case says, to be asked.
pub(crate) fn asked(alloc: Global, value: &Value) -> Res<Column> {
    Ok(Column {
        flat: column_of(alloc, value)?,
    })
}

/// The column that a case says.
pub(crate) fn column_of(alloc: Global, value: &Value) -> Res<FlatColumn> {
    let dtype = dtype_of(alloc, value.get("type").unwrap_or(value))?;
    if let Some(rows) = value.get("rows") {
        let rows = rows_of(alloc, rows)?;
        return FlatColumn::try_new(alloc, dtype, rows);
    }
    if let Some(row) = value.get("row") {
        let row = row_of(alloc, row)?;
        let len = value.get("len").and_then(Value::as_u64).unwrap_or(0);
        return FlatColumn::constant(alloc, dtype, row, len as usize);
    }
    FlatColumn::empty(alloc, dtype)
}

/// Whether the rows are integers.
fn is_integer(column: &FlatColumn) -> bool
    ensures { result ≡ spec.is_integer column.now.dtype }
{
    matches!(column.dtype(), DType::Primitive(_, _))
}

/// The rows of a range, as text.
fn copies<L: Ledger>(
    alloc: Global,
    column: &FlatColumn,
    call: &Call<'_>,
    steps: &mut Steps<L>,
) -> Res<String> {
    let (start, end) = (call.number(1), call.number(2));
    if start > end || end > column.len() {
        return Ok(String::from_str(alloc, "not allowed")?);
    }
    let mut rows = Seq::new(alloc);
    column.copy_into(alloc, start..end, &mut rows, steps)?;
    Ok(rows_text(alloc, rows.as_slice())?)
}

/// What a row is, in a column that has it.
fn read<L: Ledger>(
    alloc: Global,
    column: &FlatColumn,
    call: &Call<'_>,
    steps: &mut Steps<L>,
) -> Res<String> {
    let i = call.number(1);
    if i >= column.len() {
        return Ok(String::from_str(alloc, "not allowed")?);
    }
    Ok(match call.name {
        "row" => {
            let row = column.row_at(alloc, i, steps)?;
            row_text(alloc, &row)?
        }
        "valid" => format!(in alloc; "{}", column.is_valid_at(i, steps))?,
        "cmp" => {
            let row = row_of(alloc, call.argument(2))?;
            format!(in alloc; "{:?}", column.cmp_at(i, &row, steps))?
        }
        "int" if is_integer(column) => format!(in alloc; "{:?}", column.int_at(i, steps))?,
        "number" if column.is_unsigned() => format!(in alloc; "{}", column.number_at(i, steps))?,
        _ => String::from_str(alloc, "not allowed")?,
    })
}

impl Asked for Column {
    fn shape(&self, alloc: Global) -> Result<String, AllocError> {
        format!(in alloc;
            "rows {}, empty {}, unsigned {}, {:?}",
            self.flat.len(),
            self.flat.is_empty(),
            self.flat.is_unsigned(),
            self.flat.dtype().nullability()
        )
    }

    fn makes(&self, call: &Call<'_>) -> bool {
        match call.name {
            "share" => true,
            "window" => call.number(1) <= call.number(2) && call.number(2) <= self.flat.len(),
            _ => false,
        }
    }

    fn made<L: Ledger>(
        &self,
        _alloc: Global,
        call: &Call<'_>,
        _steps: &mut Steps<L>,
    ) -> Res<Option<Self>> {
        let (start, end) = (call.number(1), call.number(2));
        if call.name == "share" {
            let flat = self.flat.share()?;
            return Ok(Some(Column { flat }));
        }
        if start > end || end > self.flat.len() {
            return Ok(None);
        }
        let flat = self.flat.window(start..end)?;
        Ok(Some(Column { flat }))
    }

    fn answer<L: Ledger>(
        &self,
        alloc: Global,
        call: &Call<'_>,
        steps: &mut Steps<L>,
    ) -> Res<String> {
        match call.name {
            "shape" => Ok(self.shape(alloc)?),
            "copy" => copies(alloc, &self.flat, call, steps),
            "row" | "valid" | "cmp" | "int" | "number" => read(alloc, &self.flat, call, steps),
            _ => check(alloc, &self.flat, call),
        }
    }
}
