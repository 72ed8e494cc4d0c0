//! A probe that is kept between reads.
ghost use Rattle.std.specs.Prelude.{◌≡◌, ◌+◌, ◌*◌, ◌≤◌, ◌<◌, get_or, None, IfOk, IfErr, OnOk, IsOk, IsOkUnless, IsTrue, IsFalse, is_some, is_none, map, length};
ghost use Rattle.std.specs.Borrow.{sem};
ghost use Rattle.vx_rows.specs.Sizes.{type_takes_memory};
ghost use Rattle.vx_column.specs.Columns.{type_of, rows_of, len_of, IsSound, IsPlain, point_cost};
ghost use Rattle.vx_probe.specs.Causes.{PointCause, BeyondCause};
ghost use Rattle.vx_probe.specs.Probes.{probed, read_at};
ghost use Rattle.vx_probe.specs.Lends.{LeavesProbe, LendsState};
ghost use Rattle.vx_probe.specs.States.{column_in, kept_in};

use crate::array::{ArrayProbe, KeptProbe};
use crate::reads::{read_row, read_valid};
use crate::sound::SoundColumn;
use crate::state::{EncodingProbeState, ProbeState};
use std::alloc::Global;
use std::marker::Model;
use std::slice;
use vx_base::{ColumnError, Ledger, Res, Row, Steps};
use vx_column::Column;

/// A reader of single rows that owns its column, which is sound, and keeps a state between reads. Contracts see the column
/// alone: no answer depends on what is kept.
pub struct RepeatedArrayProbe {
    array: Column,
    state: EncodingProbeState,
}

impl Drop for RepeatedArrayProbe {
    fn drop(self) {
        let RepeatedArrayProbe { array: _, state: _ } = self;
    }
}

impl Model for RepeatedArrayProbe {
    ghost use Rattle.vx_column.specs.Columns.{IsSound};
    ghost use Rattle.vx_column.specs.declared.column.Column.{Column};
    ghost use Rattle.vx_column.specs.contracts.column.Column as column_row;

    ghost Value = { Column };

    ghost coded = { column_row.the_row.coded };

    ghost view = { λ p. p.array };

    ghost invariant = { λ p. IsSound p.array };
}

impl RepeatedArrayProbe {
    /// A probe of the column.
    pub fn new(array: Column) -> Self
        requires { IsSound array }
        ensures { result ≡ array }
    {
        let state = EncodingProbeState::of(&array);
        RepeatedArrayProbe { array, state }
    }

    /// The column that is read.
    pub fn array(&self) -> &Column
        ensures column { result.now ≡ self.now }
        ensures sound { IsSound result.now }
    {
        &self.array
    }

    /// Lends the probe as a reader of single rows. Once that is let go, the probe is as it was.
    pub fn as_probe(&mut self) -> ArrayProbe<'_>
        ensures* after { sem 𝓛 (LeavesProbe self.entry) }
        ensures probed { probed result ≡ self.old }
        ensures sound { IsSound (probed result) }
    {
        ArrayProbe::Repeated(KeptProbe::new(self))
    }

    /// Lends what is kept. Once that is let go, the state that was written last is kept, and the probe reads the column that it
    /// read before.
    pub fn state(&mut self) -> ProbeState<'_>
        ensures* after { sem 𝓛 (LendsState self.entry result) }
        ensures column { column_in result ≡ self.old }
        ensures kept { IsTrue (is_some (kept_in result)) }
    {
        let state = self.state;
        ProbeState::kept(
            SoundColumn::new(&self.array),
            state,
            slice::from_mut(&mut self.state),
        )
    }

    /// The row at an index. Refuses `OutOfBounds` exactly where there is none.
    pub fn execute_scalar<L: Ledger>(
        &mut self,
        alloc: Global,
        index: usize,
        steps: &mut Steps<L>,
    ) -> Res<Row>
        ensures same { self.new ≡ self.old }
        ensures ok { IfOk result (λ row. row ≡ get_or (rows_of self.old) index None) }
        ensures inside { OnOk result (index < len_of self.old) }
        ensures err { IfErr result (PointCause (len_of self.old) index) }
        ensures free { IsFalse (type_takes_memory (type_of self.old)) → index < len_of self.old → IsOk result }
        ensures rise { IsPlain self.old → steps.new ≤ steps.old + point_cost self.old }
        ensures monotone { steps.old ≤ steps.new }
    {
        read_row(self.array(), alloc, index, steps)
    }

    /// Whether the row at an index is a value. Refuses `OutOfBounds` exactly where there is none. Takes no memory.
    pub fn execute_is_valid<L: Ledger>(
        &mut self,
        _alloc: Global,
        index: usize,
        steps: &mut Steps<L>,
    ) -> Res<bool>
        ensures same { self.new ≡ self.old }
        ensures ok { IfOk result (λ valid. valid ≡ is_some (get_or (rows_of self.old) index None)) }
        ensures inside { OnOk result (index < len_of self.old) }
        ensures err { IfErr result (BeyondCause (len_of self.old) index) }
        ensures rise { IsPlain self.old → steps.new ≤ steps.old + point_cost self.old }
        ensures monotone { steps.old ≤ steps.new }
    {
        read_valid(self.array(), index, steps)
    }

    /// Whether the row at an index is null. Refuses `OutOfBounds` exactly where there is none. Takes no memory.
    pub fn execute_is_invalid<L: Ledger>(
        &mut self,
        alloc: Global,
        index: usize,
        steps: &mut Steps<L>,
    ) -> Res<bool>
        ensures same { self.new ≡ self.old }
        ensures ok { IfOk result (λ invalid. invalid ≡ is_none (get_or (rows_of self.old) index None)) }
        ensures inside { OnOk result (index < len_of self.old) }
        ensures err { IfErr result (BeyondCause (len_of self.old) index) }
        ensures rise { IsPlain self.old → steps.new ≤ steps.old + point_cost self.old }
        ensures monotone { steps.old ≤ steps.new }
    {
        Ok(!self.execute_is_valid(alloc, index, steps)?)
    }

    /// A list of reads, each of an index, in order. A read of no row has no answer, and those after it are made all the
    /// same. So each answers as a read of the column by itself does.
    pub fn read_all<L: Ledger>(
        &mut self,
        alloc: Global,
        indices: &[usize],
        steps: &mut Steps<L>,
    ) -> Res<Vec<Option<Row>>>
        ensures same { self.new ≡ self.old }
        ensures ok { IfOk result (λ answers. answers.items ≡ map (read_at self.old) indices.now) }
        ensures err { IsOkUnless result ColumnError.OutOfMemory }
        ensures rise { IsPlain self.old → steps.new ≤ steps.old + length indices.now * point_cost self.old }
        ensures monotone { steps.old ≤ steps.new }
    {
        let mut answers = Vec::new(alloc);
        for index in indices {
            answers.push(self.answer(alloc, *index, steps)?)?;
        }
        Ok(answers)
    }

    /// The answer to a read, and none where it is refused since there is no row.
    fn answer<L: Ledger>(
        &mut self,
        alloc: Global,
        index: usize,
        steps: &mut Steps<L>,
    ) -> Res<Option<Row>>
        ensures same { self.new ≡ self.old }
        ensures ok { IfOk result (λ answer. answer ≡ read_at self.old index) }
        ensures err { IsOkUnless result ColumnError.OutOfMemory }
        ensures rise { IsPlain self.old → steps.new ≤ steps.old + point_cost self.old }
        ensures monotone { steps.old ≤ steps.new }
    {
        match self.execute_scalar(alloc, index, steps) {
            Ok(row) => Ok(Some(row)),
            Err(ColumnError::OutOfBounds { index: _, len: _ }) => Ok(None),
            Err(error) => Err(error),
        }
    }
}
