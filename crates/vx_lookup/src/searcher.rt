//! A sorted search over the rows of any column.
ghost use Rattle.std.specs.Prelude.{◌≡◌, ◌+◌, ◌<◌, ◌≤◌, IfOk, IfErr, IsOkUnless, IsFalse, get_or, None};
ghost use Rattle.vx_rows.specs.Sizes.{type_takes_memory};
ghost use Rattle.vx_rows.specs.Types.{is_nested};
ghost use Rattle.vx_search.specs.Answers.{MemoryCause};
ghost use Rattle.vx_column.specs.Columns.{IsSound, IsPlain, type_of, rows_of, len_of, point_cost};

use std::alloc::Global;
use std::cmp::Ordering;
use std::marker::Model;
use vx_base::{ColumnError, Ledger, Res, Row, Steps};
use vx_column::Column;
use vx_probe::RepeatedArrayProbe;
use vx_rows::order::row_cmp;
use vx_search::IndexOrd;

/// A searcher over the rows of a column whose rows hold no rows. It reads them one by one, through a probe that is kept.
/// Contracts see the column.
#[derive(Drop)]
pub struct SearchSortedArray {
    alloc: Global,
    probe: RepeatedArrayProbe,
}

impl Model for SearchSortedArray {
    ghost use Rattle.vx_column.specs.Columns.{IsPlain};
    ghost use Rattle.vx_column.specs.declared.column.Column.{Column};
    ghost use Rattle.vx_column.specs.contracts.column.Column as column_row;

    ghost Value = { Column };

    ghost coded = { column_row.the_row.coded };

    ghost view = { λ s. s.probe };

    ghost invariant = { λ s. IsPlain s.probe };
}

impl SearchSortedArray {
    /// A searcher over the column, whose rows it shares.
    pub fn new(alloc: Global, array: &Column) -> Res<SearchSortedArray>
        requires sound { IsSound array.now }
        requires flat { IsFalse (is_nested (type_of array.now)) }
        ensures ok { IfOk result (λ searcher. searcher ≡ array.now) }
        ensures err { IsOkUnless result ColumnError.OutOfMemory }
    {
        let array = array.share(alloc)?;
        Ok(SearchSortedArray {
            alloc,
            probe: RepeatedArrayProbe::new(array),
        })
    }
}

impl IndexOrd<Row> for SearchSortedArray {
    ghost use Rattle.std.specs.Prelude.{Option};
    ghost use Rattle.vx_rows.specs.Order.{row_cmp};
    ghost use Rattle.vx_rows.specs.Sizes.{type_takes_memory};
    ghost use Rattle.vx_rows.specs.declared.value.Value.{Value};
    ghost use Rattle.vx_column.specs.Columns.{type_of, rows_of, point_cost};

    ghost Element = { Option Value };

    ghost sequence = { λ column. rows_of column };

    ghost stands = { λ x v. row_cmp x v };

    ghost cmp_cost = { λ column. point_cost column };

    ghost takes_memory = { λ column. type_takes_memory (type_of column) };

    fn index_len(&self) -> usize {
        self.probe.array().len()
    }

    fn index_cmp<L: Ledger>(
        &mut self,
        idx: usize,
        elem: &Row,
        steps: &mut Steps<L>,
    ) -> Res<Option<Ordering>> {
        let row = read(&mut self.probe, self.alloc, idx, steps)?;
        Ok(Some(row_cmp(&row, elem)))
    }
}

/// The row at an index below the length. Refuses `OutOfMemory` alone, and that only where rows of the type take memory.
pub(crate) fn read<L: Ledger>(
    probe: &mut RepeatedArrayProbe,
    alloc: Global,
    index: usize,
    steps: &mut Steps<L>,
) -> Res<Row>
    requires inside { index < len_of probe.old }
    requires plain { IsPlain probe.old }
    ensures ok { IfOk result (λ row. row ≡ get_or (rows_of probe.old) index None) }
    ensures err { IfErr result (MemoryCause (type_takes_memory (type_of probe.old))) }
    ensures rise { steps.new ≤ steps.old + point_cost probe.old }
    ensures monotone { steps.old ≤ steps.new }
    ensures same { probe.new ≡ probe.old }
{
    probe.execute_scalar(alloc, index, steps)
}
