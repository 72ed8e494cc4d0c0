//! What an encoding is lent at a read, and what it keeps between reads.
ghost use Rattle.std.specs.Prelude.{◌≡◌, ◌+◌, ◌≤◌, ◌<◌, get_or, slice_get, length, None, Some, IfOk, IfErr, IfSome, OnOk, is_some};
ghost use Rattle.std.specs.Option.{option_map};
ghost use Rattle.std.specs.Borrow.{sem};
ghost use Rattle.vx_column.specs.Columns.{rows_of, len_of, IsSound, IsPlain, point_cost};
ghost use Rattle.vx_probe.specs.Causes.{BeyondCause, SlotCause};
ghost use Rattle.vx_probe.specs.Encodings.{state_of};
ghost use Rattle.vx_probe.specs.Probes.{probed, IsOnce};
ghost use Rattle.vx_probe.specs.Slots.{slots_of};
ghost use Rattle.vx_probe.specs.States.{column_in, children_of, kept_in, home_of, lent_state};
ghost use Rattle.vx_probe.specs.Lends.{LendsKept};

use crate::array::ArrayProbe;
use crate::reads::read_valid;
use crate::slots::child_of;
use crate::sound::SoundColumn;
use std::alloc::Global;
use std::marker::PhantomData;
use vx_base::{Ledger, Res, Steps};
use vx_column::Column;

/// What an encoding keeps between reads. None of these needs more than its name.
#[derive(Clone, Copy)]
pub enum EncodingProbeState {
    /// Of rows as they are.
    Flat,
    /// Of chunks.
    Chunked,
    /// Of lanes.
    Patched,
    /// Of exceptions.
    Excepted,
    /// Of values that are interleaved.
    Interleave,
}

impl EncodingProbeState {
    /// What the encoding of a column keeps before the first read.
    pub(crate) fn of(column: &Column) -> EncodingProbeState
        ensures { result ≡ state_of column.now }
    {
        match column {
            Column::Flat(_) => EncodingProbeState::Flat,
            Column::Chunked(_) => EncodingProbeState::Chunked,
            Column::Patched(_) => EncodingProbeState::Patched,
            Column::Excepted(_) => EncodingProbeState::Excepted,
            Column::Interleave(_) => EncodingProbeState::Interleave,
        }
    }
}

/// What an encoding is lent at a read: the column, and the state that is kept, if the read is through a kept probe.
pub struct ProbeState<'a> {
    array: SoundColumn<'a>,
    is_kept: bool,
    // The state that is written to; it goes home when this is let go.
    state: EncodingProbeState,
    // Where a kept state belongs, and nothing at a single read.
    home: &'a mut [EncodingProbeState],
}

impl<'a> Drop for ProbeState<'a> {
    fn drop(self) {
        let ProbeState {
            array: _,
            is_kept: _,
            state,
            home,
        } = self;
        if let Some(kept) = home.first_mut() {
            *kept = state;
        }
    }
}

impl<'a> ProbeState<'a> {
    /// That of a single read of the column, which keeps nothing.
    pub fn once(array: &'a Column) -> Self
        requires { IsSound array.now }
        ensures column { column_in result ≡ array.now }
        ensures kept { kept_in result ≡ None }
    {
        let state = EncodingProbeState::of(array);
        ProbeState {
            array: SoundColumn::new(array),
            is_kept: false,
            state,
            home: &mut [],
        }
    }

    /// That of a read through a kept probe.
    pub(crate) fn kept(
        array: SoundColumn<'a>,
        state: EncodingProbeState,
        home: &'a mut [EncodingProbeState],
    ) -> Self
        ensures column { column_in result ≡ array.entry }
        ensures kept { kept_in result ≡ Some state }
        ensures home { home_of result ≡ home.entry.ghost_name }
    {
        ProbeState {
            array,
            is_kept: true,
            state,
            home,
        }
    }

    /// The column that is read.
    pub fn array(&self) -> &'a Column
        ensures value { result.now ≡ column_in self.now }
        ensures sound { IsSound result.now }
    {
        self.array.column()
    }

    /// Whether the row at an index is a value. Refuses `OutOfBounds` exactly where there is none. Takes no memory.
    pub fn is_valid<L: Ledger>(
        &mut self,
        _alloc: Global,
        index: usize,
        steps: &mut Steps<L>,
    ) -> Res<bool>
        ensures same { self.new ≡ self.old }
        ensures ok { IfOk result (λ valid. valid ≡ is_some (get_or (rows_of (column_in self.old)) index None)) }
        ensures inside { OnOk result (index < len_of (column_in self.old)) }
        ensures err { IfErr result (BeyondCause (len_of (column_in self.old)) index) }
        ensures rise { IsPlain (column_in self.old) → steps.new ≤ steps.old + point_cost (column_in self.old) }
        ensures monotone { steps.old ≤ steps.new }
    {
        read_valid(self.array(), index, steps)
    }

    /// The state that is kept, to be read and written, and none at a single read. What is written leaves the column as it is.
    pub fn retained(&mut self) -> Option<&mut EncodingProbeState>
        ensures* after { sem 𝓛 (LendsKept self.entry result) }
        ensures value { lent_state result ≡ kept_in self.old }
    {
        if self.is_kept {
            return Some(&mut self.state);
        }
        None
    }

    /// The state that is kept, and the slots of the column, each lent by itself.
    pub fn split(&mut self) -> (Option<&mut EncodingProbeState>, ProbeChildren<'_, 'a>)
        ensures value { lent_state result.0 ≡ kept_in self.old }
        ensures column { children_of result.1 ≡ column_in self.old }
    {
        let children = ProbeChildren::new(self.array());
        (self.retained(), children)
    }

    /// A probe of the column in a slot, and none where the slot is absent. It lives as long as the column that is read. Refuses
    /// `SlotOutOfRange` exactly where there is no such slot. Takes no memory.
    pub fn slot(&mut self, slot: usize) -> Res<Option<ArrayProbe<'a>>>
        ensures same { self.new ≡ self.old }
        ensures ok { IfOk result (λ child. slice_get (slots_of (column_in self.old)) slot ≡ Some (option_map probed child)) }
        ensures once { IfOk result (λ child. IfSome child IsOnce) }
        ensures sound { IfOk result (λ child. IfSome child (λ probe. IsSound (probed probe))) }
        ensures err { IfErr result (SlotCause (length (slots_of (column_in self.old))) slot) }
    {
        child_probe(self.array.column(), slot)
    }
}

/// The slots of the column of a read.
#[derive(Drop)]
pub struct ProbeChildren<'s, 'a> {
    array: SoundColumn<'a>,
    lent: PhantomData<&'s ()>,
}

impl<'s, 'a> ProbeChildren<'s, 'a> {
    fn new(array: &'a Column) -> ProbeChildren<'s, 'a>
        requires { IsSound array.now }
        ensures { children_of result ≡ array.now }
    {
        ProbeChildren {
            array: SoundColumn::new(array),
            lent: PhantomData,
        }
    }

    /// The column whose slots these are.
    pub fn array(&self) -> &'a Column
        ensures value { result.now ≡ children_of self.now }
        ensures sound { IsSound result.now }
    {
        self.array.column()
    }

    /// A probe of the column in a slot, and none where the slot is absent. It lives as long as the column that is read. Refuses
    /// `SlotOutOfRange` exactly where there is no such slot. Takes no memory.
    pub fn slot(&mut self, slot: usize) -> Res<Option<ArrayProbe<'a>>>
        ensures same { self.new ≡ self.old }
        ensures ok { IfOk result (λ child. slice_get (slots_of (children_of self.old)) slot ≡ Some (option_map probed child)) }
        ensures once { IfOk result (λ child. IfSome child IsOnce) }
        ensures sound { IfOk result (λ child. IfSome child (λ probe. IsSound (probed probe))) }
        ensures err { IfErr result (SlotCause (length (slots_of (children_of self.old))) slot) }
    {
        child_probe(self.array.column(), slot)
    }
}

/// A probe of the column in a slot.
fn child_probe<'a>(column: &'a Column, slot: usize) -> Res<Option<ArrayProbe<'a>>>
    requires { IsSound column.now }
    ensures ok { IfOk result (λ child. slice_get (slots_of column.now) slot ≡ Some (option_map probed child)) }
    ensures once { IfOk result (λ child. IfSome child IsOnce) }
    ensures sound { IfOk result (λ child. IfSome child (λ probe. IsSound (probed probe))) }
    ensures err { IfErr result (SlotCause (length (slots_of column.now)) slot) }
{
    match child_of(column, slot)? {
        Some(child) => Ok(Some(ArrayProbe::Once(child))),
        None => Ok(None),
    }
}
