//! Selections of a column, each done so often.
ghost use Rattle.std.specs.Prelude.{IfOk};
ghost use Rattle.vx_column.specs.Columns.{IsSound};

use crate::gathers::{digest_of, is_kept, places};
use crate::{Measure, Outcome};
use std::alloc::Global;
use vx_base::{CountLedger, NoLedger, Res, Steps};
use vx_column::Column;
use vx_masks::Mask;
use vx_select::Select;

/// The rows that are kept of a column, as bits.
fn mask(alloc: Global, measure: Measure) -> Res<Mask> {
    let mut bits = Vec::new(alloc);
    for row in 0..measure.rows {
        bits.push(is_kept(measure, row))?;
    }
    Mask::from_bits(alloc, bits.as_slice())
}

/// The places that are taken.
fn indices(alloc: Global, measure: Measure) -> Res<Vec<Option<usize>>> {
    let mut indices = Vec::new(alloc);
    for place in places(alloc, measure)? {
        indices.push(Some(place))?;
    }
    Ok(indices)
}

/// The first rows of each hundred.
fn runs(alloc: Global, measure: Measure) -> Res<Vec<(usize, usize)>> {
    let mut runs = Vec::new(alloc);
    for hundred in 0..measure.rows / 100 {
        runs.push((hundred as usize * 100, measure.per_hundred as usize))?;
    }
    Ok(runs)
}

/// What a selection gave that counted so many reads.
fn told(rt: &HostRuntime, column: &Column, reads: u64) -> Res<Outcome>
    requires { IsSound column.now }
{
    let rows = column.to_buffer(rt.alloc(), &mut Steps::new(rt, NoLedger::new()))?;
    let mut numbers = Vec::new(rt.alloc());
    for k in 0..rows.len() {
        numbers.push(u64::try_from(rows.int(k).unwrap_or(0)).unwrap_or(0))?;
    }
    Ok(Outcome {
        reads,
        rows: numbers.len(),
        digest: digest_of(numbers.as_slice()),
    })
}

/// Filters so often by the bits of the rows that are kept.
pub(crate) fn filtered(rt: &HostRuntime, column: &Column, measure: Measure) -> Res<Outcome>
    requires { IsSound column.now }
{
    let alloc = rt.alloc();
    let mask = mask(alloc, measure)?;
    for _ in 0..measure.times {
        let mut steps = Steps::new(rt, CountLedger::new());
        let _kept = column.filter(alloc, &mask, &mut steps)?;
    }
    let mut steps = Steps::new(rt, CountLedger::new());
    let kept = column.filter(alloc, &mask, &mut steps)?;
    told(rt, &kept, steps.ledger().count())
}

/// Takes so often the rows at the places.
pub(crate) fn taken(rt: &HostRuntime, column: &Column, measure: Measure) -> Res<Outcome>
    requires { IsSound column.now }
{
    let alloc = rt.alloc();
    let indices = indices(alloc, measure)?;
    for _ in 0..measure.times {
        let mut steps = Steps::new(rt, CountLedger::new());
        let _taken = column.take(alloc, indices.as_slice(), &mut steps)?;
    }
    let mut steps = Steps::new(rt, CountLedger::new());
    let taken = column.take(alloc, indices.as_slice(), &mut steps)?;
    told(rt, &taken, steps.ledger().count())
}

/// Joins so often the runs.
pub(crate) fn runs_joined(rt: &HostRuntime, column: &Column, measure: Measure) -> Res<Outcome>
    requires { IsSound column.now }
{
    let alloc = rt.alloc();
    let runs = runs(alloc, measure)?;
    let len = runs.len().saturating_mul(measure.per_hundred as usize);
    for _ in 0..measure.times {
        let mut steps = Steps::new(rt, CountLedger::new());
        let _joined = column.runs(alloc, runs.as_slice(), len, &mut steps)?;
    }
    let mut steps = Steps::new(rt, CountLedger::new());
    let joined = column.runs(alloc, runs.as_slice(), len, &mut steps)?;
    told(rt, &joined, steps.ledger().count())
}
