//! What integers are read through.
ghost use Rattle.std.specs.Prelude.{◌≡◌, ℕ, ℤ, ◌+◌, ◌<◌, ◌≤◌, Bool, List, Option, Some, length, slice_get, IfOk, IfErr, IsTrue};
ghost use Rattle.vx_base.specs.Numbers.{is_integer};
ghost use Rattle.vx_search.specs.Answers.{MemoryCause};

use crate::native::Wide;
use std::marker::Model;
use vx_base::{FlatColumn, Ledger, Res, Steps};

/// A list of numbers and nulls that is read entry by entry.
pub trait RowReader {
    /// The list.
    ghost numbers: { Self → List (Option ℤ) };

    /// The most that one read raises the steps by.
    ghost read_cost: { Self → ℕ };

    /// Whether a read may run out of memory.
    ghost takes_memory: { Self → Bool };

    /// The number of entries.
    fn len(&self) -> usize
        ensures { result ≡ length (numbers self.now) };

    /// Entry `i`. Refuses `OutOfMemory` alone.
    fn int_at<L: Ledger>(&mut self, i: usize, steps: &mut Steps<L>) -> Res<Option<i128>>
        requires { i < length (numbers self.old) }
        ensures ok { IfOk result (λ x. slice_get (numbers self.old) i ≡ Some x) }
        ensures err { IfErr result (MemoryCause (takes_memory self.old)) }
        ensures rise { steps.new ≤ steps.old + read_cost self.old }
        ensures monotone { steps.old ≤ steps.new }
        ensures same { numbers self.new ≡ numbers self.old }
        ensures same_cost { read_cost self.new ≡ read_cost self.old }
        ensures same_memory { takes_memory self.new ≡ takes_memory self.old };
}

/// Reads a slice of integers. Contracts see the integers.
#[derive(Drop)]
pub struct SliceReader<'a, T> {
    values: &'a [T],
}

impl<'a, T> Model for SliceReader<'a, T> {
    ghost use Rattle.std.specs.Prelude.{List};

    ghost Value = { List T };

    ghost view = { λ s. s.values.now };
}

impl<'a, T> SliceReader<'a, T> {
    /// A reader of these integers.
    pub fn new(values: &'a [T]) -> SliceReader<'a, T>
        ensures { result ≡ values.now }
    {
        SliceReader { values }
    }
}

impl<'a, T: Wide> RowReader for SliceReader<'a, T> {
    ghost use Rattle.std.specs.Prelude.{false, map, Some};

    ghost numbers = { λ values. map (λ x. Some (T.value x)) values };

    ghost read_cost = { λ _. 1 };

    ghost takes_memory = { λ _. false };

    fn len(&self) -> usize {
        self.values.len()
    }

    fn int_at<L: Ledger>(&mut self, i: usize, steps: &mut Steps<L>) -> Res<Option<i128>>
        requires { i < length (map (λ x. Some (T.value x)) self.old) }
        ensures ok { IfOk result (λ x. slice_get (map (λ x. Some (T.value x)) self.old) i ≡ Some x) }
        ensures err { IfErr result (MemoryCause false) }
        ensures cost { steps.new ≡ steps.old + 1 }
        ensures rise { steps.new ≤ steps.old + 1 }
        ensures monotone { steps.old ≤ steps.new }
        ensures same { self.new ≡ self.old }
    {
        steps.tick();
        let values = self.values;
        Ok(Some(values[i].wide()))
    }
}

/// Reads a flat column of integers. Contracts see the column.
#[derive(Drop)]
pub struct FlatReader<'a> {
    column: &'a FlatColumn,
}

impl<'a> Model for FlatReader<'a> {
    ghost use Rattle.std.specs.Prelude.{IsTrue};
    ghost use Rattle.vx_base.specs.Column.{Flat, flat_code};
    ghost use Rattle.vx_base.specs.Numbers.{is_integer};

    ghost Value = { Flat };

    ghost coded = { flat_code };

    ghost view = { λ s. s.column.now };

    ghost invariant = { λ s. IsTrue (is_integer s.column.now.dtype) };
}

impl<'a> FlatReader<'a> {
    /// A reader of this column.
    pub fn new(column: &'a FlatColumn) -> FlatReader<'a>
        requires { IsTrue (is_integer column.now.dtype) }
        ensures { result ≡ column.now }
    {
        FlatReader { column }
    }
}

impl<'a> RowReader for FlatReader<'a> {
    ghost use Rattle.std.specs.Prelude.{false, map};
    ghost use Rattle.vx_base.specs.Numbers.{row_int};

    ghost numbers = { λ column. map row_int column.rows };

    ghost read_cost = { λ _. 1 };

    ghost takes_memory = { λ _. false };

    fn len(&self) -> usize {
        self.column.len()
    }

    fn int_at<L: Ledger>(&mut self, i: usize, steps: &mut Steps<L>) -> Res<Option<i128>>
        requires { i < length (map row_int self.old.rows) }
        ensures ok { IfOk result (λ x. slice_get (map row_int self.old.rows) i ≡ Some x) }
        ensures err { IfErr result (MemoryCause false) }
        ensures cost { steps.new ≡ steps.old + 1 }
        ensures rise { steps.new ≤ steps.old + 1 }
        ensures monotone { steps.old ≤ steps.new }
        ensures same { self.new ≡ self.old }
    {
        Ok(self.column.int_at(i, steps))
    }
}
