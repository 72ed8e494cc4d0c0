//! Arrays with exceptions by lane in their serialized form.
ghost use Rattle.std.specs.Prelude.{◌≡◌, ◌+◌, ◌≤◌, length, IfOk, IfErr, IsOkUnless};
ghost use Rattle.vx_rows.specs.declared.error.ColumnError;
ghost use Rattle.vx_lanes.specs.Layouts.{IsLayout};
ghost use Rattle.vx_wire.specs.declared.patched.PatchedMetadata.{PatchedMetadata};
ghost use Rattle.vx_column.specs.Columns.{IsSound, len_of};
ghost use Rattle.vx_column.specs.declared.patched.Patched.{Patched};
ghost use Rattle.vx_column.specs.declared.column.Column.{Column};
ghost use Rattle.vx_column.specs.declared.column.Column.TheVariants.{Patched as patched_column};
ghost use Rattle.vx_metadata.specs.Patched.{patched_bytes, message_of, inner_length, lane_lengths, child_fault, IsMessageFor, IsMessageFault, PatchedCause, IsPatchedForm, IsPatchedFormOf, IsPatchedBack};

use std::alloc::Global;
use vx_base::dtype::same_type;
use vx_base::{ColumnError, DType, FlatColumn, Ledger, Path, Res, Rule, Seq, Steps};
use vx_column::{Column, Patched, PatchedArray};
use vx_lanes::Lanes;
use vx_wire::{PatchedMetadata, laws};

/// The serialized form of an array with exceptions by lane: its type, its length, its inner column and the columns of its
/// layout, beside which stand the bytes of a `PatchedMetadata`.
pub trait SerializePatched: Sized {
    /// The column that the array is.
    ghost as_column: { Self → Column };

    /// The metadata: how many exceptions there are, in how many lanes, and how far into the first chunk the rows begin.
    fn serialize(&self, alloc: Global) -> Res<Seq<u8>>
        requires { IsSound (as_column self.now) };

    /// The array of this inner column under the layout of the metadata and the columns. Refuses `BadMetadata` by the bytes'
    /// first fault; `MismatchedTypes` where the inner column is of another type; `Malformed` with `InnerLength` where it hasn't
    /// `len` rows, and with `LaneLengths` where there aren't as many indices and values as the metadata says; and then as
    /// `PatchedArray::try_new` does, which alone wants memory and reads.
    fn deserialize<L: Ledger>(
        alloc: Global,
        dtype: DType,
        len: usize,
        metadata: &[u8],
        inner: Column,
        lane_offsets: FlatColumn,
        indices: FlatColumn,
        values: FlatColumn,
        steps: &mut Steps<L>,
    ) -> Res<Self>
        requires { IsSound inner };
}

impl SerializePatched for Patched<Column> {
    ghost as_column = { patched_column };

    fn serialize(&self, alloc: Global) -> Res<Seq<u8>>
        requires { IsSound (patched_column self.now) }
        ensures ok { IfOk result (λ bytes. bytes ≡ patched_bytes self.now) }
        ensures err { IsOkUnless result ColumnError.OutOfMemory }
    {
        message_of(self.lanes()).encode(alloc)
    }

    fn deserialize<L: Ledger>(
        alloc: Global,
        dtype: DType,
        len: usize,
        metadata: &[u8],
        inner: Column,
        lane_offsets: FlatColumn,
        indices: FlatColumn,
        values: FlatColumn,
        steps: &mut Steps<L>,
    ) -> Res<Patched<Column>>
        requires { IsSound inner }
        ensures ok { IfOk result (IsPatchedForm dtype len metadata.now inner lane_offsets indices values) }
        ensures sound { IfOk result (λ array. IsSound (patched_column array)) }
        ensures len { IfOk result (λ array. len_of (patched_column array) ≡ len) }
        ensures err { IfErr result (PatchedCause dtype len metadata.now inner lane_offsets indices values) }
        // What was serialized is read back.
        ensures back { (array : Patched Column) → IsSound (patched_column array)
            → IsPatchedFormOf array dtype len metadata.now inner lane_offsets indices values → IsPatchedBack array result }
        ensures rise { steps.new ≤ steps.old + length lane_offsets.rows + length indices.rows }
        ensures monotone { steps.old ≤ steps.new }
    {
        // On these laws of the bytes rests that what was serialized is read back.
        laws::round_trip();
        laws::one_reading();
        let message = message_for(alloc, &dtype, len, metadata, &inner, &indices, &values)?;
        PatchedArray::try_new(
            alloc,
            inner,
            message.n_lanes as usize,
            message.offset as usize,
            lane_offsets,
            indices,
            values,
            steps,
        )
    }
}

/// The message of a layout.
fn message_of(lanes: &Lanes) -> PatchedMetadata
    requires { IsLayout lanes.now }
    ensures { result ≡ message_of lanes.now }
{
    PatchedMetadata {
        n_patches: lanes.patch_indices().len() as u32,
        n_lanes: lanes.n_lanes() as u32,
        offset: lanes.offset() as u32,
    }
}

/// The message that the bytes say, where the children go with it. Takes no memory.
fn message_for(
    alloc: Global,
    dtype: &DType,
    len: usize,
    metadata: &[u8],
    inner: &Column,
    indices: &FlatColumn,
    values: &FlatColumn,
) -> Res<PatchedMetadata>
    requires { IsSound inner.now }
    ensures ok { IfOk result (IsMessageFor dtype.now len metadata.now inner.now indices.now values.now) }
    ensures err { IfErr result (IsMessageFault dtype.now len metadata.now inner.now indices.now values.now) }
{
    let message = match PatchedMetadata::decode(metadata) {
        Ok(message) => message,
        Err(fault) => return Err(ColumnError::BadMetadata { fault }),
    };
    if !same_type(inner.dtype(), dtype) {
        return Err(ColumnError::MismatchedTypes);
    }
    if let Some(rule) = child_fault(len, inner.len(), &message, indices, values) {
        return Err(ColumnError::Malformed {
            at: Path::empty(alloc),
            rule,
        });
    }
    Ok(message)
}

/// The first rule that children break under a message, where `len` rows are declared and the inner column has `found`.
#[tactic(auto, unfolding(vx_base::specs::Rules::first_broken))]
fn child_fault(
    len: usize,
    found: usize,
    message: &PatchedMetadata,
    indices: &FlatColumn,
    values: &FlatColumn,
) -> Option<Rule>
    ensures { result ≡ child_fault len found message.now indices.now values.now }
{
    if breaks_inner_length(len, found) {
        return Some(Rule::InnerLength);
    }
    if breaks_lane_lengths(message.n_patches, indices, values) {
        return Some(Rule::LaneLengths);
    }
    None
}

#[tactic(auto, unfolding(crate::specs::Patched::inner_length))]
fn breaks_inner_length(len: usize, found: usize) -> bool
    ensures { result ≡ inner_length len found }
{
    found != len
}

#[tactic(auto, unfolding(crate::specs::Patched::lane_lengths))]
fn breaks_lane_lengths(n_patches: u32, indices: &FlatColumn, values: &FlatColumn) -> bool
    ensures { result ≡ lane_lengths n_patches indices.now values.now }
{
    indices.len() != n_patches as usize || values.len() != n_patches as usize
}
