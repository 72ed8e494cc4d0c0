//! What a layout's columns hold.
ghost use Rattle.std.specs.Prelude.{◌≡◌, ◌+◌, ◌*◌, ◌/◌, ◌<◌, Some, length};
ghost use Rattle.vx_rows.specs.declared.value.Value.{Int};
ghost use Rattle.vx_lanes.specs.Layouts.{IsLayout, entries, exceptions, index_of, lane_start, value_of};

use vx_base::{Ledger, Steps};
use vx_lanes::Lanes;
use vx_lanes::layout::CHUNK;

/// How many lanes there are, over all chunks.
pub(crate) fn lane_count(lanes: &Lanes) -> usize
    ensures count { result ≡ entries lanes.now }
    ensures layout { IsLayout lanes.now }
{
    // A layout has at least one lane offset.
    let _ = lanes.len();
    lanes.lane_offsets().len() - 1
}

/// Where the exceptions of a lane start. Raises the steps by one.
#[tactic(auto, using(vx_lanes::proofs::Typed::u32_unsigned))]
pub(crate) fn lane_offset_at<L: Ledger>(lanes: &Lanes, lane: usize, steps: &mut Steps<L>) -> usize
    requires { lane < length lanes.now.lane_offsets.rows }
    ensures offset { result ≡ lane_start lanes.now lane }
    ensures cost { steps.new ≡ steps.old + 1 }
{
    // A layout's lane offsets are unsigned.
    let _ = lanes.len();
    lanes.lane_offsets().number_at(lane, steps)
}

/// The place of the first row of a lane's chunk, counted over all chunks.
pub(crate) fn chunk_place(lanes: &Lanes, lane: usize) -> usize
    requires { lane < entries lanes.now }
    ensures place { result ≡ lane / lanes.now.n_lanes * 1024 }
    ensures layout { IsLayout lanes.now }
{
    lane / lanes.n_lanes() * CHUNK
}

/// The place of an exception in its chunk. Raises the steps by one.
#[tactic(auto, using(vx_lanes::proofs::Typed::u16_unsigned))]
pub(crate) fn index_at<L: Ledger>(lanes: &Lanes, exception: usize, steps: &mut Steps<L>) -> usize
    requires { exception < exceptions lanes.now }
    ensures index { result ≡ index_of lanes.now exception }
    ensures cost { steps.new ≡ steps.old + 1 }
{
    // A layout's indices are unsigned.
    let _ = lanes.len();
    lanes.patch_indices().number_at(exception, steps)
}

/// The number of an exception. Raises the steps by one.
pub(crate) fn number_at<L: Ledger>(lanes: &Lanes, exception: usize, steps: &mut Steps<L>) -> i128
    requires { exception < exceptions lanes.now }
    ensures number { value_of lanes.now exception ≡ Some (Int result) }
    ensures cost { steps.new ≡ steps.old + 1 }
{
    // A layout's values are integers, none of them null, and each fits the type.
    let _ = lanes.len();
    let values = lanes.patch_values();
    let _ = values.dtype();
    match values.int_at(exception, steps) {
        Some(number) => number,
        None => unreachable!(),
    }
}
