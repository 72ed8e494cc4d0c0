//! Exceptions laid over entries, each of which stands for a row of a layout.
ghost use Rattle.std.specs.Prelude.{◌≡◌, ◌+◌, ◌<◌, ◌≤◌, All, length, OnOk, OnErr, IsOkUnless};
ghost use Rattle.vx_rows.specs.declared.error.ColumnError;
ghost use Rattle.vx_lanes.specs.declared.layout.Layout.{Layout};
ghost use Rattle.vx_lanes.specs.Layouts.{exceptions};
ghost use Rattle.vx_lane_select.specs.Selected.{IsRising, IsWithin, overlaid_kept, overlaid_taken};

use crate::{kept, taken};
use std::alloc::Global;
use vx_base::{ColumnError, Ledger, Res, Row, Steps};
use vx_lanes::Lanes;

/// Exceptions laid over entries, each of which stands for a row of the layout. An entry that is a value is replaced where its row
/// has an exception, and a null stays null. Each reads a lane offset and an exception's index at most once, and at most one
/// value for each entry.
pub trait SelectLanes {
    /// The layout.
    ghost layout_of: { Self → Layout };

    /// Entry `k` stands for row `kept[k]`. Takes no memory.
    fn overlay_kept<L: Ledger>(&self, entries: &mut [Row], kept: &[usize], steps: &mut Steps<L>)
        requires len { length entries.old ≡ length kept.now }
        requires rising { IsRising kept.now }
        requires inside { All (λ row. row < (layout_of self.now).len) kept.now };

    /// Entry `k` stands for row `taken[k]`, or for none where that is absent. A refusal leaves the entries as they were.
    fn overlay_taken<L: Ledger>(
        &self,
        alloc: Global,
        entries: &mut [Row],
        taken: &[Option<usize>],
        steps: &mut Steps<L>,
    ) -> Res<()>
        requires len { length entries.old ≡ length taken.now }
        requires inside { All (IsWithin (layout_of self.now).len) taken.now };
}

impl SelectLanes for Lanes {
    ghost layout_of = { λ layout. layout };

    fn overlay_kept<L: Ledger>(&self, entries: &mut [Row], kept: &[usize], steps: &mut Steps<L>)
        requires len { length entries.old ≡ length kept.now }
        requires rising { IsRising kept.now }
        requires inside { All (λ row. row < self.now.len) kept.now }
        ensures entries { entries.new ≡ overlaid_kept self.now kept.now entries.old }
        ensures rise { steps.new ≤ steps.old + length self.now.lane_offsets.rows + exceptions self.now + length entries.old }
        ensures monotone { steps.old ≤ steps.new }
    {
        kept::overlay(self, entries, kept, steps)
    }

    fn overlay_taken<L: Ledger>(
        &self,
        alloc: Global,
        entries: &mut [Row],
        taken: &[Option<usize>],
        steps: &mut Steps<L>,
    ) -> Res<()>
        requires len { length entries.old ≡ length taken.now }
        requires inside { All (IsWithin self.now.len) taken.now }
        ensures ok { OnOk result (entries.new ≡ overlaid_taken self.now taken.now entries.old) }
        ensures err { OnErr result (entries.new ≡ entries.old) }
        ensures refuses { IsOkUnless result ColumnError.OutOfMemory }
        ensures rise { steps.new ≤ steps.old + length self.now.lane_offsets.rows + exceptions self.now + length entries.old }
        ensures monotone { steps.old ≤ steps.new }
    {
        taken::overlay(self, alloc, entries, taken, steps)
    }
}
