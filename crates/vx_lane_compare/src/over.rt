//! Exceptions compared over bits, lane by lane.
ghost use Rattle.std.specs.Prelude.{◌≡◌, ℕ, ◌+◌, ◌-◌, ◌<◌, ◌≤◌, Bool, List, Option, None, Some, length, get_or};
ghost use Rattle.vx_rows.specs.declared.value.Value.{Value, Int};
ghost use Rattle.vx_rows.specs.Order.{row_cmp};
ghost use Rattle.vx_lanes.specs.Layouts.{covered, entries, exceptions, lane_start, overlaid, value_of};
ghost use Rattle.vx_scalars.specs.Elementwise.{compared};
ghost use Rattle.vx_lane_compare.specs.Bits.{AreUnder, as_rows, bit_laid, bit_under, compared_bits};

use crate::reads::{chunk_place, index_at, lane_count, lane_offset_at, number_at};
use std::cmp::Ordering;
use std::ops::Range;
use vx_base::{Ledger, Steps};
use vx_lanes::Lanes;
use vx_scalars::CompareOperator;

/// Rewrites each bit that is present and whose row has an exception.
pub(crate) fn compare<L: Ledger>(
    lanes: &Lanes,
    bits: &mut [Option<bool>],
    op: CompareOperator,
    value: i128,
    steps: &mut Steps<L>,
)
    requires { length bits.old ≡ lanes.now.len }
    ensures bits { bits.new ≡ compared_bits lanes.now op value bits.old }
    ensures means { (rows : List (Option Value)) → as_rows bits.old ≡ compared op (Some (Int value)) rows → as_rows bits.new ≡ compared op (Some (Int value)) (overlaid lanes.now rows) }
    ensures rise { steps.new ≤ steps.old + length lanes.now.lane_offsets.rows + exceptions lanes.now + length bits.old }
    ensures monotone { steps.old ≤ steps.new }
{
    let count = lane_count(lanes);
    let mut from = lane_offset_at(lanes, 0, steps);
    for lane in 0..count {
        let to = lane_offset_at(lanes, lane + 1, steps);
        compare_lane(lanes, lane, from..to, bits, op, value, steps);
        from = to;
    }
}

/// The same for the exceptions of one lane, over bits that have the earlier ones.
fn compare_lane<L: Ledger>(
    lanes: &Lanes,
    lane: usize,
    range: Range<usize>,
    bits: &mut [Option<bool>],
    op: CompareOperator,
    value: i128,
    steps: &mut Steps<L>,
)
    requires lane { lane < entries lanes.now }
    requires start { range.start ≡ lane_start lanes.now lane }
    requires end { range.end ≡ lane_start lanes.now (lane + 1) }
    requires len { length bits.old ≡ lanes.now.len }
    ensures len { length bits.new ≡ length bits.old }
    ensures bits { (bare : List (Option Bool)) → AreUnder lanes.now op value range.start bare bits.old → AreUnder lanes.now op value range.end bare bits.new }
    ensures rise { steps.new + covered lanes.now range.start (length bits.old) ≤ steps.old + (range.end - range.start) + covered lanes.now range.end (length bits.old) }
    ensures monotone { steps.old ≤ steps.new }
{
    let chunk = chunk_place(lanes, lane);
    for exception in range.start..range.end {
        let place = chunk + index_at(lanes, exception, steps);
        compare_at(lanes, exception, place, bits, op, value, steps);
    }
}

/// The same for an exception at a place, counted over all chunks, where a row stands there.
fn compare_at<L: Ledger>(
    lanes: &Lanes,
    exception: usize,
    place: usize,
    bits: &mut [Option<bool>],
    op: CompareOperator,
    value: i128,
    steps: &mut Steps<L>,
)
    requires exception { exception < exceptions lanes.now }
    requires len { length bits.old ≡ lanes.now.len }
    ensures len { length bits.new ≡ length bits.old }
    ensures each { (row : ℕ) → row < length bits.old → get_or bits.new row None ≡ bit_laid lanes.now op value exception place row (get_or bits.old row None) }
    ensures inside { lanes.now.offset ≤ place → steps.new ≤ steps.old + 1 }
    ensures below { place < lanes.now.offset → steps.new ≡ steps.old }
    ensures above { lanes.now.offset + lanes.now.len ≤ place → steps.new ≡ steps.old }
    ensures monotone { steps.old ≤ steps.new }
{
    let offset = lanes.offset();
    if place < offset {
        return;
    }
    let row = place - offset;
    if row >= bits.len() {
        return;
    }
    compare_bit(lanes, exception, &mut bits[row], op, value, steps);
}

/// The same for an exception over the bit of its row.
fn compare_bit<L: Ledger>(
    lanes: &Lanes,
    exception: usize,
    bit: &mut Option<bool>,
    op: CompareOperator,
    value: i128,
    steps: &mut Steps<L>,
)
    requires { exception < exceptions lanes.now }
    ensures bit { bit.new ≡ bit_under op value bit.old (Some (value_of lanes.now exception)) }
    ensures rise { steps.new ≤ steps.old + 1 }
    ensures monotone { steps.old ≤ steps.new }
{
    if bit.is_some() {
        let number = number_at(lanes, exception, steps);
        *bit = Some(op.holds(order_of(number, value)));
    }
}

/// How a number stands to another.
#[tactic(auto, using(crate::proofs::Integers::int_order))]
fn order_of(number: i128, other: i128) -> Ordering
    ensures { result ≡ row_cmp (Some (Int number)) (Some (Int other)) }
{
    number.cmp(&other)
}
