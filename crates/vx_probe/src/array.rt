//! Reads of a column one row at a time.
ghost use Rattle.std.specs.Prelude.{◌≡◌, ◌+◌, ◌≤◌, ◌<◌, get_or, None, IfOk, IfErr, OnOk, IsOk, IsFalse, is_some, is_none};
ghost use Rattle.vx_rows.specs.Sizes.{type_takes_memory};
ghost use Rattle.vx_column.specs.Columns.{type_of, rows_of, len_of, IsSound, IsPlain, point_cost};
ghost use Rattle.vx_probe.specs.Causes.{PointCause, BeyondCause};
ghost use Rattle.vx_probe.specs.Probes.{probed, kept_column};

use crate::reads::{read_row, read_valid};
use crate::repeated::RepeatedArrayProbe;
use std::alloc::Global;
use vx_base::{Ledger, Res, Row, Steps};
use vx_column::Column;

/// A reader of single rows.
#[derive(Drop)]
pub enum ArrayProbe<'a> {
    /// Each row is read by itself.
    Once(&'a Column),
    /// Rows are read through a probe that is kept.
    Repeated(KeptProbe<'a>),
}

/// A probe that is kept, lent: its column and its state, which nothing can be put in the place of.
#[derive(Drop)]
pub struct KeptProbe<'a> {
    probe: &'a RepeatedArrayProbe,
}

impl<'a> KeptProbe<'a> {
    /// Lends the probe.
    pub(crate) fn new(probe: &'a RepeatedArrayProbe) -> KeptProbe<'a>
        ensures column { kept_column result ≡ probe.now }
        ensures sound { IsSound (kept_column result) }
    {
        // Its column is sound.
        let _ = probe.array();
        KeptProbe { probe }
    }

    /// The column that is read.
    pub fn array(&self) -> &Column
        ensures value { result.now ≡ kept_column self.now }
        ensures sound { IsSound result.now }
    {
        self.probe.array()
    }
}

impl<'a> ArrayProbe<'a> {
    /// A probe that reads each row by itself.
    pub fn once(column: &'a Column) -> ArrayProbe<'a>
        requires { IsSound column.now }
        ensures { probed result ≡ column.now }
    {
        ArrayProbe::Once(column)
    }

    /// The column that is read.
    pub fn array(&self) -> &Column
        ensures { result.now ≡ probed self.now }
    {
        match self {
            ArrayProbe::Once(column) => column,
            ArrayProbe::Repeated(kept) => kept.array(),
        }
    }

    /// The row at an index. Refuses `OutOfBounds` exactly where there is none.
    pub fn execute_scalar<L: Ledger>(
        &mut self,
        alloc: Global,
        index: usize,
        steps: &mut Steps<L>,
    ) -> Res<Row>
        requires { IsSound (probed self.old) }
        ensures same { probed self.new ≡ probed self.old }
        ensures ok { IfOk result (λ row. row ≡ get_or (rows_of (probed self.old)) index None) }
        ensures inside { OnOk result (index < len_of (probed self.old)) }
        ensures err { IfErr result (PointCause (len_of (probed self.old)) index) }
        ensures free { IsFalse (type_takes_memory (type_of (probed self.old))) →
            index < len_of (probed self.old) → IsOk result }
        ensures rise { IsPlain (probed self.old) → steps.new ≤ steps.old + point_cost (probed self.old) }
        ensures monotone { steps.old ≤ steps.new }
    {
        read_row(self.array(), alloc, index, steps)
    }

    /// Whether the row at an index is a value. Refuses `OutOfBounds` exactly where there is none. Takes no memory.
    pub fn execute_is_valid<L: Ledger>(
        &mut self,
        _alloc: Global,
        index: usize,
        steps: &mut Steps<L>,
    ) -> Res<bool>
        requires { IsSound (probed self.old) }
        ensures same { probed self.new ≡ probed self.old }
        ensures ok { IfOk result (λ valid. valid ≡ is_some (get_or (rows_of (probed self.old)) index None)) }
        ensures inside { OnOk result (index < len_of (probed self.old)) }
        ensures err { IfErr result (BeyondCause (len_of (probed self.old)) index) }
        ensures rise { IsPlain (probed self.old) → steps.new ≤ steps.old + point_cost (probed self.old) }
        ensures monotone { steps.old ≤ steps.new }
    {
        read_valid(self.array(), index, steps)
    }

    /// Whether the row at an index is null. Refuses `OutOfBounds` exactly where there is none. Takes no memory.
    pub fn execute_is_invalid<L: Ledger>(
        &mut self,
        alloc: Global,
        index: usize,
        steps: &mut Steps<L>,
    ) -> Res<bool>
        requires { IsSound (probed self.old) }
        ensures same { probed self.new ≡ probed self.old }
        ensures ok { IfOk result (λ invalid. invalid ≡ is_none (get_or (rows_of (probed self.old)) index None)) }
        ensures inside { OnOk result (index < len_of (probed self.old)) }
        ensures err { IfErr result (BeyondCause (len_of (probed self.old)) index) }
        ensures rise { IsPlain (probed self.old) → steps.new ≤ steps.old + point_cost (probed self.old) }
        ensures monotone { steps.old ≤ steps.new }
    {
        Ok(!self.execute_is_valid(alloc, index, steps)?)
    }
}
