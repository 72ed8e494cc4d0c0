//! Columns that calls ask.
ghost use Rattle.std.specs.Prelude.{◌≡◌};
ghost use Rattle.vx_column.specs.Columns.{IsSound};

use crate::calls::answer;
use std::alloc::{AllocError, Global};
use std::marker::Model;
use vx_base::{Ledger, Res, Steps};
use vx_cases::{Asked, Call};
use vx_column::Column;

/// A column whose parts fit together.
pub(crate) struct AskedColumn {
    column: Column,
}

impl Drop for AskedColumn {
    fn drop(self) {
        let AskedColumn { column: _ } = self;
    }
}

impl Model for AskedColumn {
    ghost use Rattle.vx_column.specs.Columns.{IsSound};
    ghost use Rattle.vx_column.specs.declared.column.Column.{Column};
    ghost use Rattle.vx_column.specs.contracts.column.Column as column_row;

    ghost Value = { Column };

    ghost coded = { column_row.the_row.coded };

    ghost view = { λ o. o.column };

    ghost invariant = { λ o. IsSound o.column };
}

impl AskedColumn {
    pub(crate) fn new(column: Column) -> Self
        requires { IsSound column }
        ensures { result ≡ column }
    {
        AskedColumn { column }
    }
}

/// The column, and the host that questions are asked on.
#[derive(Drop)]
pub(crate) struct Asking<'a> {
    pub(crate) rt: &'a HostRuntime,
    pub(crate) column: AskedColumn,
}

impl<'a> Asked for Asking<'a> {
    fn shape(&self, alloc: Global) -> Result<String, AllocError> {
        String::from_str(alloc, self.column.column.id())
    }

    fn makes(&self, _call: &Call<'_>) -> bool {
        false
    }

    fn made<L: Ledger>(
        &self,
        _alloc: Global,
        _call: &Call<'_>,
        _steps: &mut Steps<L>,
    ) -> Res<Option<Self>> {
        Ok(None)
    }

    fn answer<L: Ledger>(
        &self,
        _alloc: Global,
        call: &Call<'_>,
        steps: &mut Steps<L>,
    ) -> Res<String> {
        answer(self.rt, &self.column.column, call, steps)
    }
}
