//! Exceptions in slots.
ghost use Rattle.std.specs.Prelude.{◌≡◌, ◌+◌, ◌≤◌, ◌∷◌, ◌++◌, [], Some, None, OnOk, OnErr, IfOk, IsOkUnless, get_or};
ghost use Rattle.std.specs.Option.{option_copied};
ghost use Rattle.vx_rows.specs.declared.error.ColumnError.TheVariants.{OutOfMemory};
ghost use Rattle.vx_patches.specs.Making.{cut_reads};
ghost use Rattle.vx_patch_slots.specs.Slots.{slots_of, kept_of, first_past, assembled, read_back, IsOrNoMemory};

use std::alloc::Global;
use vx_base::{ColumnError, FlatColumn, Ledger, Res, Seq, Steps};
use vx_patches::Patches;

/// The numbers of the slots that hold exceptions.
#[derive(Clone, Copy, Debug)]
pub struct PatchSlotIndices {
    /// Where the indices stand.
    pub indices: usize,
    /// Where the values stand.
    pub values: usize,
    /// Where the chunk offsets stand.
    pub chunk_offsets: usize,
}

impl PatchSlotIndices {
    /// The first of the numbers that isn't below the number of slots.
    fn first_past(self, count: usize) -> Option<usize>
        ensures { result ≡ first_past count self }
    {
        if self.indices >= count {
            Some(self.indices)
        } else if self.values >= count {
            Some(self.values)
        } else if self.chunk_offsets >= count {
            Some(self.chunk_offsets)
        } else {
            None
        }
    }
}

/// What is kept of exceptions beside their columns, which stand in slots.
#[derive(Clone, Debug, PartialEq, Eq, Hash, Drop)]
pub struct PatchesData {
    offset: usize,
    offset_within_chunk: Option<usize>,
}

impl PatchesData {
    /// What is kept of these exceptions.
    pub fn from_patches(patches: &Patches) -> PatchesData
        ensures { result ≡ kept_of patches.now }
    {
        PatchesData {
            offset: patches.offset(),
            offset_within_chunk: patches.offset_within_chunk(),
        }
    }

    /// What each index is above its row.
    pub fn offset(&self) -> usize
        ensures { result ≡ self.now.offset }
    {
        self.offset
    }

    /// How many exceptions of the first chunk were cut away, where there are chunk offsets.
    pub fn offset_within_chunk(&self) -> Option<usize>
        ensures { result ≡ self.now.offset_within_chunk }
    {
        self.offset_within_chunk
    }

    /// The exceptions of `len` rows that stand in the slots of these numbers; none where nothing is kept. They share the slots'
    /// columns. Reads at most three times as much as there are chunk offsets, and once more.
    pub fn patches_from_slots<L: Ledger>(
        alloc: Global,
        kept: Option<&PatchesData>,
        len: usize,
        slots: &[Option<FlatColumn>],
        slot_idx: PatchSlotIndices,
        steps: &mut Steps<L>,
    ) -> Res<Option<Patches>>
        ensures read { IsOrNoMemory result (read_back (option_copied kept.entry) len slots.now slot_idx) }
        ensures rise { steps.new ≤ steps.old + cut_reads (get_or slots.now slot_idx.chunk_offsets None) }
        ensures monotone { steps.old ≤ steps.new }
    {
        let Some(kept) = kept else {
            return Ok(None);
        };
        if let Some(slot) = slot_idx.first_past(slots.len()) {
            return Err(ColumnError::SlotOutOfRange { slot });
        }
        let indices = &slots[slot_idx.indices];
        let values = &slots[slot_idx.values];
        let chunk_offsets = &slots[slot_idx.chunk_offsets];
        kept.assemble(alloc, len, indices, values, chunk_offsets, slot_idx, steps)
    }

    /// The exceptions of these columns, of which the indices and the values have to be there.
    fn assemble<L: Ledger>(
        &self,
        alloc: Global,
        len: usize,
        indices: &Option<FlatColumn>,
        values: &Option<FlatColumn>,
        chunk_offsets: &Option<FlatColumn>,
        slot_idx: PatchSlotIndices,
        steps: &mut Steps<L>,
    ) -> Res<Option<Patches>>
        ensures read { IsOrNoMemory result (assembled self.now len slot_idx indices.now values.now chunk_offsets.now) }
        ensures rise { steps.new ≤ steps.old + cut_reads chunk_offsets.now }
        ensures monotone { steps.old ≤ steps.new }
    {
        let Some(indices) = indices else {
            return Err(ColumnError::MissingSlot {
                slot: slot_idx.indices,
            });
        };
        let Some(values) = values else {
            return Err(ColumnError::MissingSlot {
                slot: slot_idx.values,
            });
        };
        let patches = Patches::from_parts(
            alloc,
            len,
            self.offset,
            indices.share()?,
            values.share()?,
            share_slot(chunk_offsets)?,
            self.offset_within_chunk,
            steps,
        )?;
        Ok(Some(patches))
    }

    /// Appends the indices, the values and the chunk offsets of the exceptions, or three empty slots. A refusal leaves the
    /// slots as they were.
    pub fn push_slots(
        alloc: Global,
        slots: &mut Seq<Option<FlatColumn>>,
        patches: Option<&Patches>,
    ) -> Res<()>
        ensures ok { OnOk result (slots.new ≡ slots.old ++ slots_of (option_copied patches.entry)) }
        ensures err { OnErr result (slots.new ≡ slots.old) }
        ensures refuses { IsOkUnless result OutOfMemory }
    {
        let more = match patches {
            Some(patches) => shared_slots(alloc, patches)?,
            None => in_slots(alloc, None, None, None)?,
        };
        slots.append(more)?;
        Ok(())
    }
}

/// The columns of the exceptions in slots.
fn shared_slots(alloc: Global, patches: &Patches) -> Res<Seq<Option<FlatColumn>>>
    ensures ok { IfOk result (λ slots. slots ≡ slots_of (Some patches.now)) }
    ensures err { IsOkUnless result OutOfMemory }
{
    let indices = patches.indices().share()?;
    let values = patches.values().share()?;
    let chunk_offsets = share_slot(patches.chunk_offsets())?;
    in_slots(alloc, Some(indices), Some(values), chunk_offsets)
}

/// Three slots.
fn in_slots(
    alloc: Global,
    indices: Option<FlatColumn>,
    values: Option<FlatColumn>,
    chunk_offsets: Option<FlatColumn>,
) -> Res<Seq<Option<FlatColumn>>>
    ensures ok { IfOk result (λ slots. slots ≡ indices ∷ values ∷ chunk_offsets ∷ []) }
    ensures err { IsOkUnless result OutOfMemory }
{
    let mut slots = Seq::new(alloc);
    slots.push(indices)?;
    slots.push(values)?;
    slots.push(chunk_offsets)?;
    Ok(slots)
}

/// Another handle on the column of a slot, where there is one.
fn share_slot(slot: &Option<FlatColumn>) -> Res<Option<FlatColumn>>
    ensures ok { IfOk result (λ other. other ≡ slot.now) }
    ensures err { IsOkUnless result OutOfMemory }
{
    match slot {
        Some(column) => Ok(Some(column.share()?)),
        None => Ok(None),
    }
}
