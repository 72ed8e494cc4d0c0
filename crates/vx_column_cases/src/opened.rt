//! Columns that calls ask.
ghost use Rattle.std.specs.Prelude.{◌≡◌, IfOk};
ghost use Rattle.vx_column.specs.Columns.{IsSound};

use crate::chunked::{chunk, reduced};
use crate::column::answer;
use crate::encodings::chunks_of_lanes;
use crate::reading::part_of;
use serde_json::Value;
use std::alloc::{AllocError, Global};
use std::io;
use std::marker::Model;
use vx_base::{Ledger, NoLedger, Res, Steps};
use vx_cases::{Asked, Call};
use vx_column::Column;
use vx_job::Part;
use vx_plan::open::open_part;

/// A column whose parts fit together, as those of parts do.
pub(crate) struct Opened {
    column: Column,
}

impl Drop for Opened {
    fn drop(self) {
        let Opened { column: _ } = self;
    }
}

impl Model for Opened {
    ghost use Rattle.vx_column.specs.Columns.{IsSound};
    ghost use Rattle.vx_column.specs.declared.column.Column.{Column};
    ghost use Rattle.vx_column.specs.contracts.column.Column as column_row;

    ghost Value = { Column };

    ghost coded = { column_row.the_row.coded };

    ghost view = { λ o. o.column };

    ghost invariant = { λ o. IsSound o.column };
}

impl Opened {
    pub(crate) fn new(column: Column) -> Self
        requires { IsSound column }
        ensures { result ≡ column }
    {
        Opened { column }
    }
}

/// The column of the part.
pub(crate) fn column_of(rt: &HostRuntime, part: &Part) -> Res<Column>
    ensures { IfOk result IsSound }
{
    let mut steps = Steps::new(rt, NoLedger::new());
    open_part(rt.alloc(), part, &mut steps)
}

fn open_alone(rt: &HostRuntime, part: &Part) -> Res<Opened> {
    let column = column_of(rt, part)?;
    Ok(Opened::new(column))
}

/// The column of the part that a value says.
pub(crate) fn opened_of(rt: &HostRuntime, value: &Value) -> io::Result<Res<Opened>> {
    let part = part_of(rt.alloc(), value)?;
    Ok(open_alone(rt, &part))
}

fn sliced<L: Ledger>(
    alloc: Global,
    column: &Column,
    call: &Call<'_>,
    steps: &mut Steps<L>,
) -> Res<Opened>
    requires { IsSound column.now }
{
    let part = column.slice(alloc, call.number(1)..call.number(2), steps)?;
    Ok(Opened::new(part))
}

fn shared(alloc: Global, column: &Column) -> Res<Opened>
    requires { IsSound column.now }
{
    let other = column.share(alloc)?;
    Ok(Opened::new(other))
}

impl Asked for Opened {
    fn shape(&self, alloc: Global) -> Result<String, AllocError> {
        format!(in alloc; "{}, rows {}", self.column.id(), self.column.len())
    }

    fn makes(&self, call: &Call<'_>) -> bool {
        matches!(
            call.name,
            "slice" | "share" | "reduce" | "chunk" | "slice_chunks"
        )
    }

    fn made<L: Ledger>(
        &self,
        alloc: Global,
        call: &Call<'_>,
        steps: &mut Steps<L>,
    ) -> Res<Option<Self>> {
        let column = &self.column;
        match call.name {
            "slice" => Ok(Some(sliced(alloc, column, call, steps)?)),
            "share" => Ok(Some(shared(alloc, column)?)),
            "reduce" => reduced(alloc, column),
            "chunk" => chunk(alloc, column, call.number(1)),
            _ => chunks_of_lanes(alloc, column, call, steps),
        }
    }

    fn answer<L: Ledger>(
        &self,
        alloc: Global,
        call: &Call<'_>,
        steps: &mut Steps<L>,
    ) -> Res<String> {
        answer(alloc, &self.column, call, steps)
    }
}
