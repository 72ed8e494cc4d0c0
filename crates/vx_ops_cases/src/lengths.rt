//! Chunks of two columns in pairs, by their lengths alone.
ghost use Rattle.std.specs.Prelude.{◌≡◌};
ghost use Rattle.vx_chunks.specs.Bounds.{total};

use crate::reading::numbers_of;
use serde_json::Value;
use std::alloc::{AllocError, Global};
use vx_base::Res;
use vx_chunks::Boundaries;
use vx_pairs::{PairedRange, Pairing};

fn boundaries_of(alloc: Global, lengths: &Value) -> Res<Boundaries> {
    let lengths = numbers_of(alloc, lengths)?;
    Boundaries::from_lengths(alloc, lengths.as_slice())
}

/// How many ranges lie in one chunk on both sides, and each of them.
pub(crate) fn told(alloc: Global, left: &Value, right: &Value) -> Res<String> {
    let left = boundaries_of(alloc, left)?;
    let right = boundaries_of(alloc, right)?;
    if left.len() != right.len() {
        return Ok(String::from_str(alloc, "not allowed")?);
    }
    paired(alloc, &left, &right)
}

/// The number of ranges that are still to come, and each of them.
fn paired(alloc: Global, left: &Boundaries, right: &Boundaries) -> Res<String>
    requires { total left.now ≡ total right.now }
{
    let ranges = left.paired(alloc, right)?;
    let mut text = format!(in alloc; "{} ranges", ranges.as_slice().len())?;
    for range in ranges {
        push_range(&mut text, &range)?;
    }
    Ok(text)
}

/// The chunk on the left and the places in it, the same of the right, and the rows.
fn push_range(text: &mut String, range: &PairedRange) -> Result<(), AllocError> {
    let left = &range.left;
    let right = &range.right;
    let pos = &range.pos;
    write!(text, ", {}:{}..{}", range.left_chunk, left.start, left.end)?;
    write!(
        text,
        " {}:{}..{}",
        range.right_chunk, right.start, right.end
    )?;
    write!(text, " at {}..{}", pos.start, pos.end)?;
    Ok(())
}
