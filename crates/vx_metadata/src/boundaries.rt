//! The rules that boundaries of chunks keep, where they come as a column.
ghost use Rattle.std.specs.Prelude.{◌≡◌, ◌+◌, ◌-◌, ◌≤◌, ◌||◌, ◌==◌, not, length, map, IsTrue, All};
ghost use Rattle.vx_base.specs.Numbers as numbers;
ghost use Rattle.vx_column.specs.Columns.{IsSound, len_of};
ghost use Rattle.vx_metadata.specs.Boundaries.{is_u64, bound_at, boundary_fault, boundary_type, boundary_count, boundary_start, boundary_fall, boundary_end, boundary_length};

use vx_base::checks::non_decreasing;
use vx_base::{DType, FlatColumn, Ledger, Nullability, PType, Rule, Steps};
use vx_column::Column;

/// The first rule that boundaries break, where `len` rows are declared. Reads each boundary at most once.
#[tactic(auto, unfolding(vx_base::specs::Rules::first_broken))]
pub(crate) fn boundary_fault<L: Ledger>(
    len: usize,
    chunk_offsets: &FlatColumn,
    chunks: &[Column],
    steps: &mut Steps<L>,
) -> Option<Rule>
    requires { All IsSound chunks.now }
    ensures first { result ≡ boundary_fault len chunk_offsets.now (map len_of chunks.now) }
    ensures rise { steps.new ≤ steps.old + length chunk_offsets.now.rows }
    ensures monotone { steps.old ≤ steps.new }
{
    if breaks_type(chunk_offsets) {
        return Some(Rule::BoundaryType);
    }
    if breaks_count(chunk_offsets, chunks) {
        return Some(Rule::BoundaryCount);
    }
    let start = bound_at(chunk_offsets, 0, steps);
    if breaks_start(chunk_offsets, start) {
        return Some(Rule::BoundaryStart);
    }
    if do_fall(chunk_offsets) {
        return Some(Rule::BoundaryFall);
    }
    let (end, off_span) = walk(chunk_offsets, chunks, start, steps);
    if breaks_end(len, chunk_offsets, end) {
        return Some(Rule::BoundaryEnd);
    }
    if off_span {
        return Some(Rule::BoundaryLength);
    }
    None
}

fn is_u64(dtype: &DType) -> bool
    ensures { result ≡ is_u64 dtype.now }
{
    matches!(
        dtype,
        DType::Primitive(PType::U64, Nullability::NonNullable)
    )
}

#[tactic(auto, unfolding(crate::specs::Boundaries::boundary_type))]
fn breaks_type(chunk_offsets: &FlatColumn) -> bool
    ensures { result ≡ boundary_type chunk_offsets.now }
{
    !is_u64(chunk_offsets.dtype())
}

#[tactic(auto, unfolding(crate::specs::Boundaries::boundary_count))]
fn breaks_count(chunk_offsets: &FlatColumn, chunks: &[Column]) -> bool
    ensures { result ≡ boundary_count chunk_offsets.now (map len_of chunks.now) }
{
    chunk_offsets.len() != chunks.len() + 1
}

/// Whether the first boundary, which is `start`, isn't 0.
#[tactic(auto, unfolding(crate::specs::Boundaries::boundary_start))]
fn breaks_start(chunk_offsets: &FlatColumn, start: usize) -> bool
    requires { start ≡ bound_at chunk_offsets.now 0 }
    ensures { result ≡ boundary_start chunk_offsets.now }
{
    start != 0
}

#[tactic(auto, unfolding(crate::specs::Boundaries::boundary_fall))]
fn do_fall(chunk_offsets: &FlatColumn) -> bool
    requires { IsTrue (numbers.is_unsigned chunk_offsets.now.dtype) }
    ensures { result ≡ boundary_fall chunk_offsets.now }
{
    !non_decreasing(chunk_offsets)
}

/// Whether the last boundary, which is `end`, isn't the declared length.
#[tactic(auto, unfolding(crate::specs::Boundaries::boundary_end))]
fn breaks_end(len: usize, chunk_offsets: &FlatColumn, end: usize) -> bool
    requires { end ≡ bound_at chunk_offsets.now (length chunk_offsets.now.rows - 1) }
    ensures { result ≡ boundary_end len chunk_offsets.now }
{
    end != len
}

/// A boundary. Raises the steps by one.
fn bound_at<L: Ledger>(chunk_offsets: &FlatColumn, k: usize, steps: &mut Steps<L>) -> usize
    requires unsigned { IsTrue (numbers.is_unsigned chunk_offsets.now.dtype) }
    requires inside { k + 1 ≤ length chunk_offsets.now.rows }
    ensures bound { result ≡ bound_at chunk_offsets.now k }
    ensures cost { steps.new ≡ steps.old + 1 }
{
    chunk_offsets.number_at(k, steps)
}

/// The last boundary, and whether some chunk's length isn't its span. Reads each boundary but the first, which is `start`.
fn walk<L: Ledger>(
    chunk_offsets: &FlatColumn,
    chunks: &[Column],
    start: usize,
    steps: &mut Steps<L>,
) -> (usize, bool)
    requires sound { All IsSound chunks.now }
    requires unsigned { IsTrue (numbers.is_unsigned chunk_offsets.now.dtype) }
    requires count { length chunk_offsets.now.rows ≡ length chunks.now + 1 }
    requires start { start ≡ bound_at chunk_offsets.now 0 }
    ensures end { result.0 ≡ bound_at chunk_offsets.now (length chunk_offsets.now.rows - 1) }
    ensures off { result.1 ≡ boundary_length chunk_offsets.now (map len_of chunks.now) }
    ensures cost { steps.new ≡ steps.old + length chunks.now }
{
    let mut end = start;
    let mut off_span = false;
    for (k, chunk) in chunks.iter().enumerate() {
        let next = bound_at(chunk_offsets, k + 1, steps);
        off_span = is_off(off_span, chunk.len(), end, next);
        end = next;
    }
    (end, off_span)
}

/// Whether an earlier chunk's length wasn't its span, or this one's isn't.
fn is_off(before: bool, len: usize, start: usize, end: usize) -> bool
    ensures { result ≡ (before || not (len == end - start)) }
{
    before || len != end.saturating_sub(start)
}
