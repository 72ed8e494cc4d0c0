//! Columns that calls ask.
ghost use Rattle.std.specs.Prelude.{◌≡◌, IfOk};
ghost use Rattle.vx_column.specs.Columns.{IsSound};

use crate::chosen::chosen;
use crate::reading::part_of;
use serde_json::Value;
use std::alloc::{AllocError, Global};
use std::io;
use std::marker::Model;
use vx_base::{DType, Ledger, NoLedger, Nullability, Res, Seq, Steps};
use vx_cases::columns::rows_text;
use vx_cases::{Asked, Call};
use vx_column::Column;
use vx_job::Part;
use vx_plan::open::open_part;

/// A column whose parts fit together, as those of parts do.
pub(crate) struct Opened {
    column: Column,
}

impl Drop for Opened {
    fn drop(self) {
        let Opened { column: _ } = self;
    }
}

impl Model for Opened {
    ghost use Rattle.vx_column.specs.Columns.{IsSound};
    ghost use Rattle.vx_column.specs.declared.column.Column.{Column};
    ghost use Rattle.vx_column.specs.contracts.column.Column as column_row;

    ghost Value = { Column };

    ghost coded = { column_row.the_row.coded };

    ghost view = { λ o. o.column };

    ghost invariant = { λ o. IsSound o.column };
}

impl Opened {
    pub(crate) fn new(column: Column) -> Self
        requires { IsSound column }
        ensures { result ≡ column }
    {
        Opened { column }
    }
}

fn open_alone(rt: &HostRuntime, part: &Part) -> Res<Opened> {
    let mut steps = Steps::new(rt, NoLedger::new());
    let column = open_part(rt.alloc(), part, &mut steps)?;
    Ok(Opened::new(column))
}

/// The column of the part that a value says.
pub(crate) fn opened_of(rt: &HostRuntime, value: &Value) -> io::Result<Res<Opened>> {
    let part = part_of(rt.alloc(), value)?;
    Ok(open_alone(rt, &part))
}

/// The kind of a type, and a question mark where a null is a row.
fn type_text(alloc: Global, dtype: &DType) -> Result<String, AllocError> {
    let mark = match dtype.nullability() {
        Nullability::Nullable => "?",
        Nullability::NonNullable => "",
    };
    match dtype {
        DType::Bool(_) => format!(in alloc; "bool{mark}"),
        DType::Primitive(ptype, _) => format!(in alloc; "{ptype:?}{mark}"),
        _ => format!(in alloc; "another{mark}"),
    }
}

fn selected<L: Ledger>(
    alloc: Global,
    column: &Column,
    call: &Call<'_>,
    steps: &mut Steps<L>,
) -> Res<Opened>
    requires { IsSound column.now }
{
    let part = chosen(alloc, column, call, steps)?;
    Ok(Opened::new(part))
}

/// All rows.
fn rows<L: Ledger>(alloc: Global, column: &Column, steps: &mut Steps<L>) -> Res<String>
    requires { IsSound column.now }
{
    let mut rows = Seq::new(alloc);
    column.append_into(alloc, &mut rows, steps)?;
    Ok(rows_text(alloc, rows.as_slice())?)
}

/// Whether one row is stored for all.
fn is_constant(column: &Column) -> bool {
    match column {
        Column::Flat(rows) => rows.as_constant().is_some(),
        _ => false,
    }
}

impl Asked for Opened {
    fn shape(&self, alloc: Global) -> Result<String, AllocError> {
        let dtype = type_text(alloc, self.column.dtype())?;
        format!(in alloc; "{}, {dtype}, rows {}", self.column.id(), self.column.len())
    }

    fn makes(&self, call: &Call<'_>) -> bool {
        matches!(call.name, "filter" | "blocks" | "none" | "take" | "runs")
    }

    fn made<L: Ledger>(
        &self,
        alloc: Global,
        call: &Call<'_>,
        steps: &mut Steps<L>,
    ) -> Res<Option<Self>> {
        Ok(Some(selected(alloc, &self.column, call, steps)?))
    }

    fn answer<L: Ledger>(
        &self,
        alloc: Global,
        call: &Call<'_>,
        steps: &mut Steps<L>,
    ) -> Res<String> {
        let column = &self.column;
        Ok(match call.name {
            "rows" => rows(alloc, column, steps)?,
            "constant" => format!(in alloc; "{}", is_constant(column))?,
            "costs" => format!(in alloc; "row {}, cut {}", column.point_cost(), column.cut_cost())?,
            _ => String::from_str(alloc, "no call of columns")?,
        })
    }
}
