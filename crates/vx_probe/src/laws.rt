//! Laws of kept probes, as contracts: whatever is done with what a kept probe lends, it reads the column that it read
//! before.
ghost use Rattle.std.specs.Prelude.{◌≡◌, ◌<◌, get_or, None, IfOk, IfErr, OnOk};
ghost use Rattle.vx_column.specs.Columns.{rows_of, len_of};
ghost use Rattle.vx_probe.specs.Causes.{PointCause};

use crate::repeated::RepeatedArrayProbe;
use crate::state::EncodingProbeState;
use std::alloc::Global;
use vx_base::{Ledger, Res, Row, Steps};

/// Writes a state through `retained`.
pub fn write_retained(probe: &mut RepeatedArrayProbe, state: EncodingProbeState)
    ensures { probe.new ≡ probe.old }
{
    if let Some(kept) = probe.state().retained() {
        *kept = state;
    }
}

/// Writes a state through `split`.
pub fn write_split(probe: &mut RepeatedArrayProbe, state: EncodingProbeState)
    ensures { probe.new ≡ probe.old }
{
    let mut lent = probe.state();
    let (kept, _children) = lent.split();
    if let Some(kept) = kept {
        *kept = state;
    }
}

/// Reads a row through the probe that is lent.
pub fn read_lent<L: Ledger>(
    probe: &mut RepeatedArrayProbe,
    alloc: Global,
    index: usize,
    steps: &mut Steps<L>,
) -> Res<Row>
    ensures same { probe.new ≡ probe.old }
    ensures ok { IfOk result (λ row. row ≡ get_or (rows_of probe.old) index None) }
    ensures inside { OnOk result (index < len_of probe.old) }
    ensures err { IfErr result (PointCause (len_of probe.old) index) }
{
    probe.as_probe().execute_scalar(alloc, index, steps)
}
