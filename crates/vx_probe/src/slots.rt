//! The slots of columns: the columns right below, and their names.
ghost use Rattle.std.specs.Prelude.{◌≡◌, ◌≤◌, ◌<◌, [], get_or, slice_get, length, map, None, Some, IfOk, IfErr, IfSome, OnOk, IsOkUnless, IsTrue, is_some};
ghost use Rattle.std.specs.Option.{option_copied};
ghost use Rattle.vx_column.specs.Columns.{IsSound};
ghost use Rattle.vx_column.specs.declared.column.Column.TheVariants as column;
ghost use Rattle.vx_rows.specs.declared.error.ColumnError.TheVariants.{SlotOutOfRange};
ghost use Rattle.vx_probe.specs.Causes.{SlotCause, NameCause};
ghost use Rattle.vx_probe.specs.Slots.{slots_of, chunk_slots, patched_slots, exception_slots, interleave_slots};
ghost use Rattle.vx_probe.specs.Names.{name_of, chunk_name, value_name};

use std::alloc::Global;
use vx_base::{ColumnError, Res, Text};
use vx_column::{ChunkedArray, Column, ExceptedArray, InterleaveArray, PatchedArray};
use vx_lanes::PatchedSlots;

/// The slots of a chunked column: where each of its children stands.
pub struct ChunkedSlots {}

impl ChunkedSlots {
    /// The boundaries.
    pub const CHUNK_OFFSETS: usize = 0;
    /// The first chunk.
    pub const CHUNKS_OFFSET: usize = 1;
}

/// What a column says of its slots.
pub trait Slots {
    /// What has to hold of it.
    ghost is_sound: { Self → Type 0 };

    /// The name of a slot. Refuses `SlotOutOfRange` exactly where there is no such slot.
    fn slot_name(&self, alloc: Global, slot: usize) -> Res<Text>
        requires { is_sound self.now };
}

impl Slots for Column {
    ghost is_sound = { IsSound };

    fn slot_name(&self, alloc: Global, slot: usize) -> Res<Text>
        requires { IsSound self.now }
        ensures ok { IfOk result (λ name. name ≡ name_of self.now slot) }
        ensures inside { OnOk result (slot < length (slots_of self.now)) }
        ensures err { IfErr result (NameCause (length (slots_of self.now)) slot) }
    {
        let _child = child_of(self, slot)?;
        named(self, alloc, slot)
    }
}

/// The column in a slot, and none where the slot is absent.
pub(crate) fn child_of(column: &Column, slot: usize) -> Res<Option<&Column>>
    requires { IsSound column.now }
    ensures ok { IfOk result (λ child. slice_get (slots_of column.now) slot ≡ Some (option_copied child)) }
    ensures sound { IfOk result (λ child. IfSome child (λ c. IsSound c.now)) }
    ensures err { IfErr result (SlotCause (length (slots_of column.now)) slot) }
{
    match column {
        Column::Flat(_) => Err(ColumnError::SlotOutOfRange { slot }),
        Column::Chunked(chunked) => found(chunk_slot(chunked, slot), slot),
        Column::Patched(patched) => found(lane_slot(patched, slot), slot),
        Column::Excepted(excepted) => exception_slot(excepted, slot),
        Column::Interleave(interleave) => found(value_slot(interleave, slot), slot),
    }
}

/// The column in a slot of those that are all there.
fn found(child: Option<&Column>, slot: usize) -> Res<Option<&Column>>
    ensures ok { IfOk result (λ found. found ≡ child.entry) }
    ensures some { OnOk result (IsTrue (is_some child.entry)) }
    ensures err { IfErr result (λ e. (e ≡ SlotOutOfRange slot) × (child.entry ≡ None)) }
{
    match child {
        Some(_) => Ok(child),
        None => Err(ColumnError::SlotOutOfRange { slot }),
    }
}

/// The boundaries, or a chunk.
fn chunk_slot(chunked: &ChunkedArray, slot: usize) -> Option<&Column>
    requires { IsSound (column.Chunked chunked.now) }
    ensures value { option_copied result ≡ slice_get (chunk_slots chunked.now) slot }
    ensures sound { IfSome result (λ c. IsSound c.now) }
{
    if slot < ChunkedSlots::CHUNKS_OFFSET {
        return Some(chunked.chunk_offsets_slot());
    }
    chunked.children().get(slot - ChunkedSlots::CHUNKS_OFFSET)
}

/// The inner column, or one of the lanes' own.
fn lane_slot(patched: &PatchedArray, slot: usize) -> Option<&Column>
    requires { IsSound (column.Patched patched.now) }
    ensures value { option_copied result ≡ slice_get (patched_slots patched.now) slot }
    ensures sound { IfSome result (λ c. IsSound c.now) }
{
    match slot {
        PatchedSlots::INNER => Some(patched.inner()),
        PatchedSlots::LANE_OFFSETS => Some(patched.lane_offsets_slot()),
        PatchedSlots::PATCH_INDICES => Some(patched.patch_indices_slot()),
        PatchedSlots::PATCH_VALUES => Some(patched.patch_values_slot()),
        _ => None,
    }
}

/// The base, the values, or one of the places' own, of which the last may be absent.
fn exception_slot(excepted: &ExceptedArray, slot: usize) -> Res<Option<&Column>>
    requires { IsSound (column.Excepted excepted.now) }
    ensures ok { IfOk result (λ child. slice_get (exception_slots excepted.now) slot ≡ Some (option_copied child)) }
    ensures sound { IfOk result (λ child. IfSome child (λ c. IsSound c.now)) }
    ensures err { IfErr result (SlotCause (length (exception_slots excepted.now)) slot) }
{
    match slot {
        0 => Ok(Some(excepted.base())),
        1 => Ok(Some(excepted.indices())),
        2 => Ok(Some(excepted.values())),
        3 => Ok(excepted.chunk_offsets()),
        _ => Err(ColumnError::SlotOutOfRange { slot }),
    }
}

/// A selector, or a value.
fn value_slot(interleave: &InterleaveArray, slot: usize) -> Option<&Column>
    requires { IsSound (column.Interleave interleave.now) }
    ensures value { option_copied result ≡ slice_get (interleave_slots interleave.now) slot }
    ensures sound { IfSome result (λ c. IsSound c.now) }
{
    match slot {
        0 => Some(interleave.array_indices_slot()),
        1 => Some(interleave.row_indices_slot()),
        _ => interleave.children().get(slot - 2),
    }
}

/// The name of a slot that is there.
fn named(column: &Column, alloc: Global, slot: usize) -> Res<Text>
    ensures ok { IfOk result (λ name. name ≡ name_of column.now slot) }
    ensures err { IsOkUnless result ColumnError.OutOfMemory }
{
    match column {
        Column::Flat(_) => Text::from_str(alloc, ""),
        Column::Chunked(_) => chunk_name(alloc, slot),
        Column::Patched(_) => {
            let names = ["inner", "lane_offsets", "patch_indices", "patch_values"];
            listed_name(alloc, &names, slot)
        }
        Column::Excepted(_) => {
            let names = ["base", "indices", "values", "chunk_offsets"];
            listed_name(alloc, &names, slot)
        }
        Column::Interleave(_) => value_name(alloc, slot),
    }
}

/// A name of a list.
fn listed_name(alloc: Global, names: &[&str], slot: usize) -> Res<Text>
    ensures ok { IfOk result (λ name. name ≡ get_or (map (λ n. n.now) names.now) slot []) }
    ensures err { IsOkUnless result ColumnError.OutOfMemory }
{
    match names.get(slot) {
        Some(name) => Text::from_str(alloc, name),
        None => Text::from_str(alloc, ""),
    }
}

fn chunk_name(alloc: Global, slot: usize) -> Res<Text>
    ensures ok { IfOk result (λ name. name ≡ chunk_name slot) }
    ensures err { IsOkUnless result ColumnError.OutOfMemory }
{
    if slot < ChunkedSlots::CHUNKS_OFFSET {
        return Text::from_str(alloc, "chunk_offsets");
    }
    let chunk = slot - ChunkedSlots::CHUNKS_OFFSET;
    let name = format!(in alloc; "chunks[{chunk}]")?;
    Text::from_str(alloc, name.as_str())
}

fn value_name(alloc: Global, slot: usize) -> Res<Text>
    ensures ok { IfOk result (λ name. name ≡ value_name slot) }
    ensures err { IsOkUnless result ColumnError.OutOfMemory }
{
    match slot {
        0 => Text::from_str(alloc, "array_indices"),
        1 => Text::from_str(alloc, "row_indices"),
        _ => {
            let value = slot - 2;
            let name = format!(in alloc; "value_{value}")?;
            Text::from_str(alloc, name.as_str())
        }
    }
}
