//! A sorted search over the numbers of any column of integers.
ghost use Rattle.std.specs.Prelude.{◌≡◌, ◌+◌, ◌<◌, ◌≤◌, IfOk, IfErr, IsOkUnless, Some, IsTrue, IsFalse};
ghost use Rattle.vx_base.specs.Numbers.{row_int, is_integer};
ghost use Rattle.vx_search.specs.Answers.{MemoryCause};
ghost use Rattle.vx_search.specs.Numbers.{ptype_of};
ghost use Rattle.vx_column.specs.Columns.{IsSound, IsPlain, type_of};

use crate::searcher::read;
use std::alloc::Global;
use std::marker::Model;
use vx_base::{ColumnError, Ledger, Res, Row, Steps, Value};
use vx_column::Column;
use vx_probe::RepeatedArrayProbe;
use vx_search::{NativeInt, RowReader, SearchSortedPrimitiveArray};

/// Reads a column of integers through a probe that is kept. Contracts see the column.
#[derive(Drop)]
pub struct ColumnReader {
    alloc: Global,
    probe: RepeatedArrayProbe,
}

impl Model for ColumnReader {
    ghost use Rattle.std.specs.Prelude.{IsTrue};
    ghost use Rattle.vx_base.specs.Numbers.{is_integer};
    ghost use Rattle.vx_column.specs.Columns.{IsPlain, type_of};
    ghost use Rattle.vx_column.specs.declared.column.Column.{Column};
    ghost use Rattle.vx_column.specs.contracts.column.Column as column_row;

    ghost Value = { Column };

    ghost coded = { column_row.the_row.coded };

    ghost view = { λ r. r.probe };

    ghost invariant = { λ r. IsPlain r.probe × IsTrue (is_integer (type_of r.probe)) };
}

impl ColumnReader {
    /// A reader of the column, whose rows it shares.
    pub fn new(alloc: Global, array: &Column) -> Res<ColumnReader>
        requires sound { IsSound array.now }
        requires integers { IsTrue (is_integer (type_of array.now)) }
        ensures ok { IfOk result (λ reader. reader ≡ array.now) }
        ensures err { IsOkUnless result ColumnError.OutOfMemory }
    {
        let array = array.share(alloc)?;
        Ok(ColumnReader {
            alloc,
            probe: RepeatedArrayProbe::new(array),
        })
    }
}

impl RowReader for ColumnReader {
    ghost use Rattle.std.specs.Prelude.{false, map};
    ghost use Rattle.vx_base.specs.Numbers.{row_int};
    ghost use Rattle.vx_column.specs.Columns.{rows_of, point_cost};

    ghost numbers = { λ column. map row_int (rows_of column) };

    ghost read_cost = { λ column. point_cost column };

    ghost takes_memory = { λ _. false };

    fn len(&self) -> usize {
        self.probe.array().len()
    }

    #[tactic(auto, using(crate::proofs::IntegerTypes::integers_free))]
    fn int_at<L: Ledger>(&mut self, i: usize, steps: &mut Steps<L>) -> Res<Option<i128>> {
        let row = read(&mut self.probe, self.alloc, i, steps)?;
        Ok(number_of(&row))
    }
}

/// The number that a row is, where it is one.
fn number_of(row: &Row) -> Option<i128>
    ensures { result ≡ row_int row.now }
{
    match row {
        Some(Value::Int(number)) => Some(*number),
        _ => None,
    }
}

/// A searcher over the numbers of a column, whose type is that of the integers.
#[tactic(auto, using(crate::proofs::IntegerTypes::integers_of))]
pub fn primitive_searcher<T: NativeInt>(
    alloc: Global,
    array: &Column,
) -> Res<SearchSortedPrimitiveArray<T, ColumnReader>>
    requires sound { IsSound array.now }
    requires kind { ptype_of (type_of array.now) ≡ Some T.kind }
    ensures ok { IfOk result (λ searcher. searcher ≡ array.now) }
    ensures err { IsOkUnless result ColumnError.OutOfMemory }
{
    let reader = ColumnReader::new(alloc, array)?;
    Ok(SearchSortedPrimitiveArray::over(reader))
}
