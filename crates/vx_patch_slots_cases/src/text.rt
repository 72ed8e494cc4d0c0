//! Exceptions as text.
use std::alloc::{AllocError, Global};
use vx_base::{FlatColumn, Ledger, Res, Steps};
use vx_cases::columns::row_text;
use vx_patches::Patches;

/// An exception: its row and its value.
fn pair_text<L: Ledger>(
    alloc: Global,
    patches: &Patches,
    row: usize,
    steps: &mut Steps<L>,
) -> Res<String> {
    match patches.get_patched(alloc, row, steps)? {
        Some(value) => {
            let value = row_text(alloc, &value)?;
            Ok(format!(in alloc; "{row}:{value} ")?)
        }
        None => Ok(String::new(alloc)),
    }
}

/// The exceptions, and what there is of them besides.
pub(crate) fn patches_text<L: Ledger>(
    alloc: Global,
    patches: &Patches,
    steps: &mut Steps<L>,
) -> Res<String> {
    let mut text = String::new(alloc);
    for row in 0..patches.array_len() {
        let pair = pair_text(alloc, patches, row, steps)?;
        text.push_str(pair.as_str())?;
    }
    let shape = shape_text(alloc, patches)?;
    text.push_str(shape.as_str())?;
    Ok(text)
}

/// What there is of exceptions beside their pairs.
pub(crate) fn shape_text(alloc: Global, patches: &Patches) -> Result<String, AllocError> {
    format!(in alloc;
        "of {}, offset {}, cut away {:?}",
        patches.array_len(),
        patches.offset(),
        patches.offset_within_chunk()
    )
}

/// Slots: the number of rows of each, where it isn't empty.
pub(crate) fn slots_text(
    alloc: Global,
    slots: &[Option<FlatColumn>],
) -> Result<String, AllocError> {
    let mut text = String::new(alloc);
    for slot in slots {
        let rows = match slot {
            Some(column) => format!(in alloc; "[{}]", column.len())?,
            None => String::from_str(alloc, "[]")?,
        };
        text.push_str(rows.as_str())?;
    }
    Ok(text)
}
