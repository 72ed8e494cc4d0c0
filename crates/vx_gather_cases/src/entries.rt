//! Exceptions laid over entries that stand for rows of a layout.
ghost use Rattle.std.specs.Prelude.{◌≡◌, ◌<◌, All, IsTrue};
ghost use Rattle.vx_lane_select.specs.Selected.{IsRising, IsWithin};

use crate::reading::{lanes_of, places_of, rows_of};
use serde_json::Value;
use std::alloc::Global;
use std::io;
use vx_base::{Ledger, Res, Row, Steps};
use vx_cases::columns::{member, rows_text};
use vx_lane_select::SelectLanes;
use vx_lanes::Lanes;

/// What the entries of a case become.
pub(crate) fn told<L: Ledger>(
    rt: &HostRuntime,
    case: &Value,
    steps: &mut Steps<L>,
) -> io::Result<Res<String>> {
    let Ok(lanes) = lanes_of(rt, member(case, "lanes")?)? else {
        return Err(io::Error::other("a layout breaks a rule"));
    };
    let entries = rows_of(rt.alloc(), member(case, "entries")?)?;
    match case.get("kept") {
        Some(kept) => {
            let kept = kept_of(rt.alloc(), places_of(rt.alloc(), kept)?.as_slice())?;
            Ok(overlay_kept(rt.alloc(), &lanes, entries, kept.as_slice(), steps))
        }
        None => {
            let taken = places_of(rt.alloc(), member(case, "taken")?)?;
            Ok(overlay_taken(rt.alloc(), &lanes, entries, taken.as_slice(), steps))
        }
    }
}

/// The places that aren't absent.
fn kept_of(alloc: Global, places: &[Option<usize>]) -> io::Result<Vec<usize>> {
    let mut kept = Vec::new(alloc);
    for place in places {
        if let Some(place) = place {
            kept.push(*place)?;
        }
    }
    Ok(kept)
}

fn not_allowed(alloc: Global) -> Res<String> {
    Ok(String::from_str(alloc, "not allowed")?)
}

fn overlay_kept<L: Ledger>(
    alloc: Global,
    lanes: &Lanes,
    mut entries: Vec<Row>,
    kept: &[usize],
    steps: &mut Steps<L>,
) -> Res<String> {
    if entries.len() != kept.len() || !are_rising(kept) || !are_below(kept, lanes.len()) {
        return not_allowed(alloc);
    }
    lanes.overlay_kept(entries.as_mut_slice(), kept, steps);
    Ok(rows_text(alloc, entries.as_slice())?)
}

fn overlay_taken<L: Ledger>(
    alloc: Global,
    lanes: &Lanes,
    mut entries: Vec<Row>,
    taken: &[Option<usize>],
    steps: &mut Steps<L>,
) -> Res<String> {
    if entries.len() != taken.len() || !are_within(taken, lanes.len()) {
        return not_allowed(alloc);
    }
    lanes.overlay_taken(alloc, entries.as_mut_slice(), taken, steps)?;
    Ok(rows_text(alloc, entries.as_slice())?)
}

/// Whether each number is above the one before it.
fn are_rising(kept: &[usize]) -> bool
    ensures { IsTrue result → IsRising kept.now }
{
    for i in 1..kept.len() {
        if kept[i] <= kept[i - 1] {
            return false;
        }
    }
    true
}

fn are_below(kept: &[usize], len: usize) -> bool
    ensures { IsTrue result → All (λ row. row < len) kept.now }
{
    for row in kept {
        if *row >= len {
            return false;
        }
    }
    true
}

fn are_within(taken: &[Option<usize>], len: usize) -> bool
    ensures { IsTrue result → All (IsWithin len) taken.now }
{
    for row in taken {
        if !is_within(*row, len) {
            return false;
        }
    }
    true
}

fn is_within(row: Option<usize>, len: usize) -> bool
    ensures { IsTrue result → IsWithin len row }
{
    match row {
        Some(row) => row < len,
        None => true,
    }
}
