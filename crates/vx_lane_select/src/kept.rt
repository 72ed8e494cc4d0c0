//! Exceptions laid over entries that stand for rows in rising order.
ghost use Rattle.std.specs.Prelude.{◌≡◌, ℕ, ◌+◌, ◌-◌, ◌<◌, ◌≤◌, All, List, Option, None, length, get_or, slice_index, IfSome, IfNone};
ghost use Rattle.vx_rows.specs.declared.value.Value.{Value};
ghost use Rattle.vx_lanes.specs.Layouts.{entries, exceptions, laid, lane_start};
ghost use Rattle.vx_lane_select.specs.Selected.{AreUnder, IsRising, covered_at, overlaid_kept};

use crate::reads::{chunk_place, index_at, lane_count, lane_offset_at, replace};
use vx_base::{Ledger, Row, Steps};
use vx_lanes::Lanes;

/// Lays each exception over the entry that stands for its row.
pub(crate) fn overlay<L: Ledger>(
    lanes: &Lanes,
    rows: &mut [Row],
    kept: &[usize],
    steps: &mut Steps<L>,
)
    requires len { length rows.old ≡ length kept.now }
    requires rising { IsRising kept.now }
    requires inside { All (λ row. row < lanes.now.len) kept.now }
    ensures rows { rows.new ≡ overlaid_kept lanes.now kept.now rows.old }
    ensures rise { steps.new ≤ steps.old + length lanes.now.lane_offsets.rows + exceptions lanes.now + length rows.old }
    ensures monotone { steps.old ≤ steps.new }
{
    let count = lane_count(lanes);
    let mut from = lane_offset_at(lanes, 0, steps);
    for lane in 0..count {
        let to = lane_offset_at(lanes, lane + 1, steps);
        lay_lane(lanes, lane, from, to, rows, kept, steps);
        from = to;
    }
}

/// Lays the exceptions from `from` to below `to`, which are those of a lane, over entries that have the earlier ones.
fn lay_lane<L: Ledger>(
    lanes: &Lanes,
    lane: usize,
    from: usize,
    to: usize,
    rows: &mut [Row],
    kept: &[usize],
    steps: &mut Steps<L>,
)
    requires lane { lane < entries lanes.now }
    requires from { from ≡ lane_start lanes.now lane }
    requires to { to ≡ lane_start lanes.now (lane + 1) }
    requires len { length rows.old ≡ length kept.now }
    requires rising { IsRising kept.now }
    requires inside { All (λ row. row < lanes.now.len) kept.now }
    ensures rows { (bare : List (Option Value)) → AreUnder lanes.now from kept.now bare rows.old → AreUnder lanes.now to kept.now bare rows.new }
    ensures len { length rows.new ≡ length rows.old }
    ensures rise { steps.new + covered_at lanes.now from kept.now ≤ steps.old + (to - from) + covered_at lanes.now to kept.now }
    ensures monotone { steps.old ≤ steps.new }
{
    let chunk = chunk_place(lanes, lane);
    for exception in from..to {
        let place = chunk + index_at(lanes, exception, steps);
        lay(lanes, exception, place, rows, kept, steps);
    }
}

/// Lays an exception over the entry that stands for the row at a place, counted over all chunks, where there is one.
fn lay<L: Ledger>(
    lanes: &Lanes,
    exception: usize,
    place: usize,
    rows: &mut [Row],
    kept: &[usize],
    steps: &mut Steps<L>,
)
    requires value { exception < length lanes.now.patch_values.rows }
    requires len { length rows.old ≡ length kept.now }
    requires rising { IsRising kept.now }
    ensures len { length rows.new ≡ length rows.old }
    ensures each { (k : ℕ) → k < length rows.old → get_or rows.new k None ≡ laid lanes.now exception place (slice_index kept.now k) (get_or rows.old k None) }
    ensures some { steps.new ≤ steps.old + 1 }
    ensures none { ((k : ℕ) → k < length kept.now → lanes.now.offset + slice_index kept.now k ≡ place → ⊥) → steps.new ≡ steps.old }
    ensures monotone { steps.old ≤ steps.new }
{
    match entry_at(lanes, place, kept) {
        Some(k) => replace(lanes, exception, &mut rows[k], steps),
        None => {}
    }
}

/// The entry that stands for the row at a place, counted over all chunks.
fn entry_at(lanes: &Lanes, place: usize, kept: &[usize]) -> Option<usize>
    requires rising { IsRising kept.now }
    ensures there { IfSome result (λ k. k < length kept.now) }
    ensures stands { IfSome result (λ k. lanes.now.offset + slice_index kept.now k ≡ place) }
    ensures none { IfNone result ((k : ℕ) → k < length kept.now → lanes.now.offset + slice_index kept.now k ≡ place → ⊥) }
{
    let offset = lanes.offset();
    if place < offset {
        return None;
    }
    match kept.binary_search(&(place - offset)) {
        Ok(k) => Some(k),
        Err(_) => None,
    }
}
