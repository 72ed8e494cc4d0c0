//! Sets of the rows of a column.
use crate::numbers::{Listed, flat, told};
use crate::{Measure, Outcome};
use vx_base::{CountLedger, FlatColumn, NoLedger, Res, Steps};
use vx_haystack::ArrayHaystack;

/// Makes the set so often, and once more.
fn set_of(
    rt: &HostRuntime,
    elements: &FlatColumn,
    made: u64,
    steps: &mut Steps<CountLedger>,
) -> Res<ArrayHaystack> {
    for _ in 0..made {
        let mut unasked = Steps::new(rt, NoLedger::new());
        let _set = ArrayHaystack::try_new(rt.alloc(), elements, &mut unasked)?;
    }
    ArrayHaystack::try_new(rt.alloc(), elements, steps)
}

/// Asks the set so often, and once more.
fn asked(
    rt: &HostRuntime,
    set: &ArrayHaystack,
    needles: &FlatColumn,
    asked: u64,
    made_reads: u64,
) -> Res<Outcome> {
    for _ in 0..asked {
        let mut unasked = Steps::new(rt, NoLedger::new());
        let _found = set.contains(rt.alloc(), needles, &mut unasked)?;
    }
    let mut steps = Steps::new(rt, CountLedger::new());
    let (bits, _) = set.contains(rt.alloc(), needles, &mut steps)?;
    Ok(told(bits.as_slice(), made_reads, steps.ledger().count()))
}

/// Makes a set of the elements, and asks it about the needles, each so often.
pub(crate) fn looked_up(rt: &HostRuntime, measure: Measure) -> Res<Outcome> {
    let elements = flat(rt.alloc(), measure, Listed::Elements, 0..measure.count)?;
    let needles = flat(rt.alloc(), measure, Listed::Needles, 0..measure.count)?;
    let mut steps = Steps::new(rt, CountLedger::new());
    let set = set_of(rt, &elements, measure.made, &mut steps)?;
    asked(rt, &set, &needles, measure.asked, steps.ledger().count())
}
