//! Calls on exceptions in slots.
//!
//! - `["slice",start,end]`, `["share"]` and `["map",F]` make other exceptions: those of some rows, the same, and those with
//!   these values;
//! - `["map_refused"]`: what values make that are refused;
//! - `["all"]`: the exceptions;
//! - `["row",place]`: the row that has the exception at a place;
//! - `["metadata",len,type]`: the bytes of the metadata for so many rows of the type;
//! - `["kept",start,end]`: what is kept of them, and whether it is the same as what is kept of those of some rows;
//! - `["slots"]`, `["no_slots"]`: what is pushed for them, and for none;
//! - `["read",len,indices,values,chunk offsets]`: what is read for so many rows from slots of these numbers, to which they were
//!   pushed; `["read_without",slot,..]` the same, where that slot is made empty, and `["read_behind",count,..]` where three
//!   empty slots were pushed so often before;
//! - `["read_parts",within]`: what their parts make where so many exceptions of the first chunk are said to be cut away;
//! - `["read_none"]`: what is read where nothing is kept.
use crate::text::{patches_text, shape_text, slots_text};
use serde_json::Value;
use std::alloc::{AllocError, Global};
use std::hash::{DefaultHasher, Hash, Hasher};
use std::io;
use vx_base::{ColumnError, FlatColumn, Ledger, Res, Seq, Steps};
use vx_cases::columns::{column_of, column_or_null, dtype_of, member, number};
use vx_cases::{Asked, Call};
use vx_patch_slots::{PatchSlotIndices, PatchesData, ToMetadata};
use vx_patches::Patches;

/// The exceptions that calls ask.
#[derive(Drop)]
pub(crate) struct AskedPatches {
    patches: Patches,
}

/// The exceptions that a case says.
pub(crate) fn patches_of(alloc: Global, value: &Value) -> io::Result<Res<AskedPatches>> {
    let len = number(value, "len")?;
    let offset = number(value, "offset")?;
    let indices = column_of(alloc, member(value, "indices")?)?;
    let values = column_of(alloc, member(value, "values")?)?;
    let chunk_offsets = column_or_null(alloc, member(value, "chunk_offsets")?)?;
    Ok(asked(Patches::new(alloc, len, offset, indices, values, chunk_offsets)))
}

fn asked(made: Res<Patches>) -> Res<AskedPatches> {
    Ok(AskedPatches { patches: made? })
}

/// The exceptions with the values of a call; None where the call gives none that can be read.
fn with_values(patches: &Patches, alloc: Global, call: &Call<'_>) -> Res<Option<AskedPatches>> {
    let Ok(values) = column_of(alloc, call.argument(1)) else {
        return Ok(None);
    };
    let patches = patches.share()?.map_values(|_values| Ok(values))?;
    Ok(Some(AskedPatches { patches }))
}

fn part<L: Ledger>(
    patches: &Patches,
    call: &Call<'_>,
    steps: &mut Steps<L>,
) -> Res<Option<AskedPatches>> {
    match patches.slice(call.number(1)..call.number(2), steps)? {
        Some(patches) => Ok(Some(AskedPatches { patches })),
        None => Ok(None),
    }
}

fn refused_text(patches: &Patches, alloc: Global) -> Res<String> {
    let mapped = patches
        .share()?
        .map_values(|_values| Err(ColumnError::NoChunks))?;
    Ok(shape_text(alloc, &mapped)?)
}

fn row_text<L: Ledger>(
    patches: &Patches,
    alloc: Global,
    place: usize,
    steps: &mut Steps<L>,
) -> Res<String> {
    if place >= patches.num_patches() {
        return Ok(String::from_str(alloc, "not allowed")?);
    }
    let row = patches.row_at(place, steps);
    Ok(format!(in alloc; "{row}")?)
}

/// The bytes of the metadata.
fn metadata_text(patches: &Patches, alloc: Global, call: &Call<'_>) -> Res<String> {
    let Some(dtype) = call.argument(2).as_str().and_then(dtype_of) else {
        return Ok(String::from_str(alloc, "no type")?);
    };
    let bytes = patches.to_metadata(call.number(1), &dtype)?.encode(alloc)?;
    Ok(format!(in alloc; "{:?}", bytes.as_slice())?)
}

fn hash_of(data: &PatchesData) -> u64 {
    let mut state = DefaultHasher::new();
    data.hash(&mut state);
    state.finish()
}

/// What is kept, and whether it is the same as what is kept of a slice, and where it is, whether their hashes are.
fn kept_text<L: Ledger>(
    patches: &Patches,
    alloc: Global,
    call: &Call<'_>,
    steps: &mut Steps<L>,
) -> Res<String> {
    let kept = PatchesData::from_patches(patches);
    let Some(part) = patches.slice(call.number(1)..call.number(2), steps)? else {
        return Ok(String::from_str(alloc, "none")?);
    };
    let other = PatchesData::from_patches(&part).clone()?;
    let same = kept == other;
    Ok(format!(in alloc;
        "offset {}, cut away {:?}, {same}, hashes {}",
        kept.offset(),
        kept.offset_within_chunk(),
        same && hash_of(&kept) == hash_of(&other)
    )?)
}

/// Slots to which exceptions are pushed, behind so many times three empty ones.
fn pushed(alloc: Global, patches: &Patches, empty: usize) -> Res<Seq<Option<FlatColumn>>> {
    let mut slots = Seq::new(alloc);
    for _ in 0..empty {
        PatchesData::push_slots(alloc, &mut slots, None)?;
    }
    PatchesData::push_slots(alloc, &mut slots, Some(patches))?;
    Ok(slots)
}

/// The slots, of which one is made empty.
fn emptied(
    alloc: Global,
    slots: Seq<Option<FlatColumn>>,
    empty: usize,
) -> Res<Seq<Option<FlatColumn>>> {
    let mut left = Seq::new(alloc);
    for (i, slot) in slots.into_vec().into_iter().enumerate() {
        left.push(if i == empty { None } else { slot })?;
    }
    Ok(left)
}

fn pushed_text(patches: &Patches, alloc: Global) -> Res<String> {
    let slots = pushed(alloc, patches, 0)?;
    Ok(slots_text(alloc, slots.as_slice())?)
}

fn no_slots_text(alloc: Global) -> Res<String> {
    let mut slots = Seq::new(alloc);
    PatchesData::push_slots(alloc, &mut slots, None)?;
    Ok(slots_text(alloc, slots.as_slice())?)
}

/// The slot numbers of a call, from argument `at` on.
fn slot_numbers(call: &Call<'_>, at: usize) -> PatchSlotIndices {
    PatchSlotIndices {
        indices: call.number(at),
        values: call.number(at.saturating_add(1)),
        chunk_offsets: call.number(at.saturating_add(2)),
    }
}

/// The exceptions that are read from slots, for the number of rows and the slot numbers of a call, from argument `at` on.
fn read_text<L: Ledger>(
    patches: &Patches,
    alloc: Global,
    slots: &[Option<FlatColumn>],
    call: &Call<'_>,
    at: usize,
    steps: &mut Steps<L>,
) -> Res<String> {
    let kept = PatchesData::from_patches(patches);
    let numbers = slot_numbers(call, at.saturating_add(1));
    let len = call.number(at);
    let read = PatchesData::patches_from_slots(alloc, Some(&kept), len, slots, numbers, steps)?;
    read_or_none(alloc, &read, steps)
}

fn read_or_none<L: Ledger>(
    alloc: Global,
    read: &Option<Patches>,
    steps: &mut Steps<L>,
) -> Res<String> {
    match read {
        Some(patches) => patches_text(alloc, patches, steps),
        None => Ok(String::from_str(alloc, "none")?),
    }
}

fn read_pushed<L: Ledger>(
    patches: &Patches,
    alloc: Global,
    call: &Call<'_>,
    steps: &mut Steps<L>,
) -> Res<String> {
    match call.name {
        "read" => {
            let slots = pushed(alloc, patches, 0)?;
            read_text(patches, alloc, slots.as_slice(), call, 1, steps)
        }
        "read_without" => {
            let slots = emptied(alloc, pushed(alloc, patches, 0)?, call.number(1))?;
            read_text(patches, alloc, slots.as_slice(), call, 2, steps)
        }
        _ => {
            let slots = pushed(alloc, patches, call.number(1))?;
            read_text(patches, alloc, slots.as_slice(), call, 2, steps)
        }
    }
}

/// What the parts of the exceptions make, where so many of the first chunk are said to be cut away, or none is said.
fn parts_text<L: Ledger>(
    patches: &Patches,
    alloc: Global,
    call: &Call<'_>,
    steps: &mut Steps<L>,
) -> Res<String> {
    let within = call.argument(1).as_u64().map(|within| within as usize);
    let shared = patches.share()?;
    let chunk_offsets = match patches.chunk_offsets() {
        Some(offsets) => Some(offsets.share()?),
        None => None,
    };
    let made = Patches::from_parts(
        alloc,
        patches.array_len(),
        patches.offset(),
        patches.indices().share()?,
        shared.into_values(),
        chunk_offsets,
        within,
        steps,
    )?;
    Ok(shape_text(alloc, &made)?)
}

fn read_none<L: Ledger>(
    patches: &Patches,
    alloc: Global,
    call: &Call<'_>,
    steps: &mut Steps<L>,
) -> Res<String> {
    let slots = pushed(alloc, patches, 0)?;
    let numbers = slot_numbers(call, 1);
    let read = PatchesData::patches_from_slots(alloc, None, 0, slots.as_slice(), numbers, steps)?;
    read_or_none(alloc, &read, steps)
}

impl Asked for AskedPatches {
    fn shape(&self, alloc: Global) -> Result<String, AllocError> {
        shape_text(alloc, &self.patches)
    }

    fn makes(&self, call: &Call<'_>) -> bool {
        matches!(call.name, "slice" | "share" | "map")
    }

    fn made<L: Ledger>(
        &self,
        alloc: Global,
        call: &Call<'_>,
        steps: &mut Steps<L>,
    ) -> Res<Option<Self>> {
        match call.name {
            "slice" => part(&self.patches, call, steps),
            "map" => with_values(&self.patches, alloc, call),
            _ => Ok(Some(AskedPatches {
                patches: self.patches.share()?,
            })),
        }
    }

    fn answer<L: Ledger>(
        &self,
        alloc: Global,
        call: &Call<'_>,
        steps: &mut Steps<L>,
    ) -> Res<String> {
        let patches = &self.patches;
        match call.name {
            "all" => patches_text(alloc, patches, steps),
            "row" => row_text(patches, alloc, call.number(1), steps),
            "map_refused" => refused_text(patches, alloc),
            "metadata" => metadata_text(patches, alloc, call),
            "kept" => kept_text(patches, alloc, call, steps),
            "slots" => pushed_text(patches, alloc),
            "no_slots" => no_slots_text(alloc),
            "read" | "read_without" | "read_behind" => read_pushed(patches, alloc, call, steps),
            "read_parts" => parts_text(patches, alloc, call, steps),
            "read_none" => read_none(patches, alloc, call, steps),
            _ => Ok(String::from_str(alloc, "no call of slots")?),
        }
    }
}
