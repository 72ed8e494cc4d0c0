//! Exceptions laid over entries that stand for rows in any order, repeated or absent ones among them.
ghost use Rattle.std.specs.Prelude.{◌≡◌, ℕ, ◌+◌, ◌-◌, ◌<◌, ◌≤◌, All, Some, None, length, get_or, IfOk, OnOk, OnErr, IsOkUnless};
ghost use Rattle.std.specs.BTreeMap as tree;
ghost use Rattle.std.specs.Ordering.{nat_cmp};
ghost use Rattle.vx_rows.specs.declared.error.ColumnError;
ghost use Rattle.vx_lanes.specs.Layouts.{entries, exception_below, exceptions, lane_start};
ghost use Rattle.vx_lane_select.specs.Selected.{IsWithin, overlaid_entry, overlaid_taken};

use crate::reads::{chunk_place, index_at, lane_count, lane_offset_at, replace};
use std::alloc::Global;
use std::collections::BTreeMap;
use vx_base::{ColumnError, Ledger, Res, Row, Steps};
use vx_lanes::Lanes;

/// Lays the exceptions over the entries, once it is known where each stands.
pub(crate) fn overlay<L: Ledger>(
    lanes: &Lanes,
    alloc: Global,
    rows: &mut [Row],
    taken: &[Option<usize>],
    steps: &mut Steps<L>,
) -> Res<()>
    requires len { length rows.old ≡ length taken.now }
    requires inside { All (IsWithin lanes.now.len) taken.now }
    ensures ok { OnOk result (rows.new ≡ overlaid_taken lanes.now taken.now rows.old) }
    ensures err { OnErr result (rows.new ≡ rows.old) }
    ensures refuses { IsOkUnless result ColumnError.OutOfMemory }
    ensures rise { steps.new ≤ steps.old + length lanes.now.lane_offsets.rows + exceptions lanes.now + length rows.old }
    ensures monotone { steps.old ≤ steps.new }
{
    let by_place = exceptions_by_place(lanes, alloc, steps)?;
    for k in 0..rows.len() {
        lay(lanes, &by_place, taken[k], &mut rows[k], steps);
    }
    Ok(())
}

/// Lays the exception of a row over an entry that stands for it, or for none.
fn lay<L: Ledger>(
    lanes: &Lanes,
    by_place: &BTreeMap<usize, usize>,
    row: Option<usize>,
    entry: &mut Row,
    steps: &mut Steps<L>,
)
    requires places { (row : ℕ) → row < lanes.now.len → tree.get nat_cmp by_place.now (lanes.now.offset + row) ≡ exception_below lanes.now (exceptions lanes.now) row }
    requires inside { IsWithin lanes.now.len row }
    ensures entry { entry.new ≡ overlaid_entry lanes.now row entry.old }
    ensures rise { steps.new ≤ steps.old + 1 }
    ensures monotone { steps.old ≤ steps.new }
{
    match row {
        Some(row) => lay_at(lanes, by_place, row, entry, steps),
        None => {}
    }
}

/// The same, where it stands for one.
fn lay_at<L: Ledger>(
    lanes: &Lanes,
    by_place: &BTreeMap<usize, usize>,
    row: usize,
    entry: &mut Row,
    steps: &mut Steps<L>,
)
    requires places { (row : ℕ) → row < lanes.now.len → tree.get nat_cmp by_place.now (lanes.now.offset + row) ≡ exception_below lanes.now (exceptions lanes.now) row }
    requires inside { row < lanes.now.len }
    ensures entry { entry.new ≡ overlaid_entry lanes.now (Some row) entry.old }
    ensures rise { steps.new ≤ steps.old + 1 }
    ensures monotone { steps.old ≤ steps.new }
{
    let place = lanes.offset() + row;
    match by_place.get(&place) {
        Some(exception) => replace(lanes, *exception, entry, steps),
        None => {}
    }
}

/// The number of each exception, by its place counted over all chunks.
fn exceptions_by_place<L: Ledger>(
    lanes: &Lanes,
    alloc: Global,
    steps: &mut Steps<L>,
) -> Res<BTreeMap<usize, usize>>
    ensures ok { IfOk result (λ by_place. (row : ℕ) → row < lanes.now.len → tree.get nat_cmp by_place (lanes.now.offset + row) ≡ exception_below lanes.now (exceptions lanes.now) row) }
    ensures err { IsOkUnless result ColumnError.OutOfMemory }
    ensures rise { steps.new ≤ steps.old + length lanes.now.lane_offsets.rows + exceptions lanes.now }
    ensures monotone { steps.old ≤ steps.new }
{
    let count = lane_count(lanes);
    let mut by_place = BTreeMap::new(alloc);
    let mut from = lane_offset_at(lanes, 0, steps);
    for lane in 0..count {
        let to = lane_offset_at(lanes, lane + 1, steps);
        add_lane(lanes, lane, from, to, &mut by_place, steps)?;
        from = to;
    }
    Ok(by_place)
}

/// Adds the exceptions from `from` to below `to`, which are those of a lane.
fn add_lane<L: Ledger>(
    lanes: &Lanes,
    lane: usize,
    from: usize,
    to: usize,
    by_place: &mut BTreeMap<usize, usize>,
    steps: &mut Steps<L>,
) -> Res<()>
    requires lane { lane < entries lanes.now }
    requires from { from ≡ lane_start lanes.now lane }
    requires to { to ≡ lane_start lanes.now (lane + 1) }
    ensures ok { OnOk result (((row : ℕ) → row < lanes.now.len → tree.get nat_cmp by_place.old (lanes.now.offset + row) ≡ exception_below lanes.now from row)
        → (row : ℕ) → row < lanes.now.len → tree.get nat_cmp by_place.new (lanes.now.offset + row) ≡ exception_below lanes.now to row) }
    ensures err { IsOkUnless result ColumnError.OutOfMemory }
    ensures rise { steps.new ≤ steps.old + (to - from) }
    ensures monotone { steps.old ≤ steps.new }
{
    let chunk = chunk_place(lanes, lane);
    for exception in from..to {
        let place = chunk + index_at(lanes, exception, steps);
        by_place.insert(place, exception)?;
    }
    Ok(())
}
