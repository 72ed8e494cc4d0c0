//! Rows under exceptions, compared with one value: the bits of the rows below, rewritten where there is an exception.
ghost use Rattle.std.specs.Prelude.{◌≡◌, ◌+◌, ◌≤◌, List, Option, Some, length};
ghost use Rattle.vx_rows.specs.declared.value.Value.{Value, Int};
ghost use Rattle.vx_lanes.specs.declared.layout.Layout.{Layout};
ghost use Rattle.vx_lanes.specs.Layouts.{exceptions, overlaid};
ghost use Rattle.vx_scalars.specs.Elementwise.{compared};
ghost use Rattle.vx_lane_compare.specs.Bits.{as_rows, compared_bits};

use crate::over;
use vx_base::{Ledger, Steps};
use vx_lanes::Lanes;
use vx_scalars::CompareOperator;

/// Comparisons of rows that have exceptions over them.
pub trait CompareLanes {
    /// The layout.
    ghost layout_of: { Self → Layout };

    /// Bit `i` tells how row `i` below the exceptions compares with the value, or is absent where that row is null. A bit
    /// that is present is rewritten where the row has an exception, by how the exception compares. Reads each lane offset
    /// and each exception's index at most once, and one value for each bit that is rewritten. Takes no memory.
    fn compare_bits<L: Ledger>(
        &self,
        bits: &mut [Option<bool>],
        op: CompareOperator,
        value: i128,
        steps: &mut Steps<L>,
    )
        requires { length bits.old ≡ (layout_of self.now).len };
}

impl CompareLanes for Lanes {
    ghost layout_of = { λ layout. layout };

    fn compare_bits<L: Ledger>(
        &self,
        bits: &mut [Option<bool>],
        op: CompareOperator,
        value: i128,
        steps: &mut Steps<L>,
    )
        requires { length bits.old ≡ self.now.len }
        ensures bits { bits.new ≡ compared_bits self.now op value bits.old }
        ensures means { (rows : List (Option Value)) → as_rows bits.old ≡ compared op (Some (Int value)) rows → as_rows bits.new ≡ compared op (Some (Int value)) (overlaid self.now rows) }
        ensures rise { steps.new ≤ steps.old + length self.now.lane_offsets.rows + exceptions self.now + length bits.old }
        ensures monotone { steps.old ≤ steps.new }
    {
        over::compare(self, bits, op, value, steps)
    }
}
