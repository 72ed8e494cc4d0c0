//! The parts of a lane layout, and the rules that they may break.
ghost use Rattle.std.specs.Prelude.{◌≡◌, ◌∷◌, [], ℕ, ◌+◌, ◌-◌, ◌*◌, ◌/◌, ◌%◌, ◌^◌, ◌<◌, ◌≤◌, length, Some, None, true, false, not, ◌==◌, nat_le, nat_lt, ◌&&◌, ◌||◌, IsTrue};
ghost use Rattle.vx_base.specs.Numbers.{numbers_of, is_unsigned};
ghost use Rattle.vx_lanes.specs.Layouts.{is_u16, is_u32, chunks_of, lane_start, index_of, entries, exceptions};
ghost use Rattle.vx_base.specs.Rules.{first_broken};
ghost use Rattle.vx_lanes.specs.Rules.{layout_fault, offset_rules, index_rules, value_rules, any_between, over_range, off_lane, off_order, too_long, lane_count, lane_offset, lane_offsets_type, lane_offsets_length, lane_offsets_fall, lane_offsets_end, lane_index_type, lane_lengths, lane_too_many, lane_index_range, lane_index_lane, lane_index_order, lane_value_null};

use vx_base::checks::{all_valid, non_decreasing};
use vx_base::{DType, FlatColumn, Ledger, Nullability, PType, Rule, Steps};

/// How many rows a chunk has.
pub const CHUNK: usize = 1024;

/// How many exponents of two a number of lanes may be.
const LANE_EXPONENTS: u32 = 8;

/// The parts of a layout, not checked. The rows stand in chunks of 1024, from place `offset` of the first chunk on.
pub struct Layout {
    /// How many rows there are.
    pub len: usize,
    /// How many lanes a chunk has.
    pub n_lanes: usize,
    /// The place of the first row in its chunk.
    pub offset: usize,
    /// Where the exceptions of each lane of each chunk start, and where the last end.
    pub lane_offsets: FlatColumn,
    /// The place of each exception in its chunk.
    pub patch_indices: FlatColumn,
    /// The value of each exception.
    pub patch_values: FlatColumn,
}

// Written out, so that letting a layout go is one call: what is derived is written at each way out of each function that
// holds one, column by column.
impl Drop for Layout {
    fn drop(self) {
        let Layout {
            len: _,
            n_lanes: _,
            offset: _,
            lane_offsets: _,
            patch_indices: _,
            patch_values: _,
        } = self;
    }
}

/// Which rules the indices that were read break, and the index that was read last.
#[derive(Clone, Copy)]
struct Faults {
    range: bool,
    lane: bool,
    order: bool,
    last: usize,
}

impl Layout {
    /// The first rule that the parts break; `alike` tells whether the values' type is the rows' up to nullability.
    pub(crate) fn layout_fault<L: Ledger>(&self, alike: bool, steps: &mut Steps<L>) -> Option<Rule>
        ensures first { result ≡ layout_fault self.now alike }
        ensures rise { steps.new ≤ steps.old + length self.now.lane_offsets.rows + exceptions self.now }
        ensures monotone { steps.old ≤ steps.new }
    {
        if let Some(rule) = self.offset_fault() {
            return Some(rule);
        }
        if let Some(rule) = self.index_fault(steps) {
            return Some(rule);
        }
        self.value_fault(alike)
    }

    /// The first rule of the lane offsets that is broken.
    #[tactic(auto, unfolding(vx_base::specs::Rules::first_broken))]
    fn offset_fault(&self) -> Option<Rule>
        ensures { result ≡ first_broken (offset_rules self.now) }
    {
        if self.is_too_long() {
            return Some(Rule::TooLong);
        }
        if self.breaks_lane_count() {
            return Some(Rule::LaneCount);
        }
        if self.breaks_lane_offset() {
            return Some(Rule::LaneOffset);
        }
        if self.breaks_lane_offsets_type() {
            return Some(Rule::LaneOffsetsType);
        }
        if self.breaks_lane_offsets_length() {
            return Some(Rule::LaneOffsetsLength);
        }
        if self.do_lane_offsets_fall() {
            return Some(Rule::LaneOffsetsFall);
        }
        None
    }

    /// The first rule of the indices that is broken. Each lane offset is read once, and each index at most once.
    #[tactic(auto, unfolding(vx_base::specs::Rules::first_broken))]
    fn index_fault<L: Ledger>(&self, steps: &mut Steps<L>) -> Option<Rule>
        requires { first_broken (offset_rules self.now) ≡ None }
        ensures first { result ≡ first_broken (index_rules self.now) }
        ensures rise { steps.new ≤ steps.old + length self.now.lane_offsets.rows + exceptions self.now }
        ensures monotone { steps.old ≤ steps.new }
    {
        let end = self.lane_offset_at(self.lane_offsets.len() - 1, steps);
        if self.ends_past(end) {
            return Some(Rule::LaneOffsetsEnd);
        }
        if self.breaks_lane_index_type() {
            return Some(Rule::LaneIndexType);
        }
        if self.breaks_lane_lengths() {
            return Some(Rule::LaneLengths);
        }
        if self.breaks_lane_too_many() {
            return Some(Rule::LaneTooMany);
        }
        let faults = self.index_faults(end, steps);
        if faults.range {
            return Some(Rule::LaneIndexRange);
        }
        if faults.lane {
            return Some(Rule::LaneIndexLane);
        }
        if faults.order {
            return Some(Rule::LaneIndexOrder);
        }
        None
    }

    /// The first rule of the values that is broken.
    #[tactic(auto, unfolding(vx_base::specs::Rules::first_broken))]
    fn value_fault(&self, alike: bool) -> Option<Rule>
        ensures { result ≡ first_broken (value_rules self.now alike) }
    {
        if !alike {
            return Some(Rule::LaneValueType);
        }
        if self.breaks_lane_value_null() {
            return Some(Rule::LaneValueNull);
        }
        None
    }

    #[tactic(auto, unfolding(crate::specs::Rules::too_long))]
    fn is_too_long(&self) -> bool
        ensures { result ≡ too_long self.now }
    {
        self.offset.checked_add(self.len).is_none()
    }

    #[tactic(auto, unfolding(crate::specs::Rules::lane_count))]
    fn breaks_lane_count(&self) -> bool
        ensures { result ≡ lane_count self.now }
    {
        for exponent in 0..LANE_EXPONENTS {
            if self.n_lanes == 1 << exponent {
                return false;
            }
        }
        true
    }

    #[tactic(auto, unfolding(crate::specs::Rules::lane_offset))]
    fn breaks_lane_offset(&self) -> bool
        ensures { result ≡ lane_offset self.now }
    {
        self.offset >= CHUNK
    }

    #[tactic(auto, unfolding(crate::specs::Rules::lane_offsets_type))]
    fn breaks_lane_offsets_type(&self) -> bool
        ensures { result ≡ lane_offsets_type self.now }
    {
        !is_u32(self.lane_offsets.dtype())
    }

    #[tactic(auto, unfolding(crate::specs::Rules::lane_offsets_length))]
    fn breaks_lane_offsets_length(&self) -> bool
        requires short { too_long self.now ≡ false }
        requires count { lane_count self.now ≡ false }
        ensures { result ≡ lane_offsets_length self.now }
    {
        let chunks = (self.offset + self.len).div_ceil(CHUNK);
        self.lane_offsets.len() != self.n_lanes * chunks + 1
    }

    #[tactic(auto, unfolding(crate::specs::Rules::lane_offsets_fall))]
    fn do_lane_offsets_fall(&self) -> bool
        requires { IsTrue (is_unsigned self.now.lane_offsets.dtype) }
        ensures { result ≡ lane_offsets_fall self.now }
    {
        !non_decreasing(&self.lane_offsets)
    }

    /// Whether the last entry, which ends at `end`, ends past the indices.
    #[tactic(auto, unfolding(crate::specs::Rules::lane_offsets_end))]
    fn ends_past(&self, end: usize) -> bool
        requires { end ≡ lane_start self.now (entries self.now) }
        ensures { result ≡ lane_offsets_end self.now }
    {
        end > self.patch_indices.len()
    }

    #[tactic(auto, unfolding(crate::specs::Rules::lane_index_type))]
    fn breaks_lane_index_type(&self) -> bool
        ensures { result ≡ lane_index_type self.now }
    {
        !is_u16(self.patch_indices.dtype())
    }

    #[tactic(auto, unfolding(crate::specs::Rules::lane_lengths))]
    fn breaks_lane_lengths(&self) -> bool
        ensures { result ≡ lane_lengths self.now }
    {
        self.patch_indices.len() != self.patch_values.len()
    }

    #[tactic(auto, unfolding(crate::specs::Rules::lane_too_many))]
    fn breaks_lane_too_many(&self) -> bool
        ensures { result ≡ lane_too_many self.now }
    {
        self.patch_indices.len() > u32::MAX as usize
    }

    #[tactic(auto, unfolding(crate::specs::Rules::lane_value_null))]
    fn breaks_lane_value_null(&self) -> bool
        ensures { result ≡ lane_value_null self.now }
    {
        !all_valid(&self.patch_values)
    }

    /// Where an entry's exceptions start. Raises the steps by one.
    pub(crate) fn lane_offset_at<L: Ledger>(&self, entry: usize, steps: &mut Steps<L>) -> usize
        requires unsigned { IsTrue (is_unsigned self.now.lane_offsets.dtype) }
        requires inside { entry < length self.now.lane_offsets.rows }
        ensures offset { result ≡ lane_start self.now entry }
        ensures cost { steps.new ≡ steps.old + 1 }
    {
        self.lane_offsets.number_at(entry, steps)
    }

    /// The index of an exception. Raises the steps by one.
    pub(crate) fn index_at<L: Ledger>(&self, exception: usize, steps: &mut Steps<L>) -> usize
        requires unsigned { IsTrue (is_unsigned self.now.patch_indices.dtype) }
        requires inside { exception < exceptions self.now }
        ensures index { result ≡ index_of self.now exception }
        ensures cost { steps.new ≡ steps.old + 1 }
    {
        self.patch_indices.number_at(exception, steps)
    }

    /// Where an entry's exceptions start, of which the last entry's `end` is known and not read again.
    fn start_of<L: Ledger>(&self, entry: usize, end: usize, steps: &mut Steps<L>) -> usize
        requires unsigned { IsTrue (is_unsigned self.now.lane_offsets.dtype) }
        requires inside { entry < length self.now.lane_offsets.rows }
        requires end { end ≡ lane_start self.now (entries self.now) }
        ensures offset { result ≡ lane_start self.now entry }
        ensures rise { steps.new ≤ steps.old + 1 }
        ensures last { entry ≡ entries self.now → steps.new ≡ steps.old }
        ensures monotone { steps.old ≤ steps.new }
    {
        if entry == self.lane_offsets.len() - 1 {
            return end;
        }
        self.lane_offset_at(entry, steps)
    }

    /// What the indices of all entries break. Each lane offset but the last is read once, and each index at most once.
    fn index_faults<L: Ledger>(&self, end: usize, steps: &mut Steps<L>) -> Faults
        requires offsets { IsTrue (is_unsigned self.now.lane_offsets.dtype) }
        requires indices { IsTrue (is_unsigned self.now.patch_indices.dtype) }
        requires some { 0 < length self.now.lane_offsets.rows }
        requires lanes { 0 < self.now.n_lanes }
        requires rising { lane_offsets_fall self.now ≡ false }
        requires end { end ≡ lane_start self.now (entries self.now) }
        requires inside { end ≤ exceptions self.now }
        ensures range { result.range ≡ lane_index_range self.now }
        ensures lane { result.lane ≡ lane_index_lane self.now }
        ensures order { result.order ≡ lane_index_order self.now }
        ensures rise { steps.new ≤ steps.old + entries self.now + exceptions self.now }
        ensures monotone { steps.old ≤ steps.new }
    {
        let mut faults = Faults {
            range: false,
            lane: false,
            order: false,
            last: 0,
        };
        let mut from = self.start_of(0, end, steps);
        for entry in 0..self.lane_offsets.len() - 1 {
            let to = self.start_of(entry + 1, end, steps);
            faults = self.entry_faults(entry % self.n_lanes, from, to, faults, steps);
            from = to;
        }
        faults
    }

    /// What the indices from `from` to below `to` break as an entry of a lane, besides those read before.
    fn entry_faults<L: Ledger>(
        &self,
        lane: usize,
        from: usize,
        to: usize,
        before: Faults,
        steps: &mut Steps<L>,
    ) -> Faults
        requires indices { IsTrue (is_unsigned self.now.patch_indices.dtype) }
        requires lanes { 0 < self.now.n_lanes }
        requires ordered { from ≤ to }
        requires inside { to ≤ exceptions self.now }
        ensures range { result.range ≡ (before.range || any_between (over_range self.now) from to) }
        ensures lane { result.lane ≡ (before.lane || any_between (off_lane self.now lane) from to) }
        ensures order { result.order ≡ (before.order || any_between (off_order self.now from) from to) }
        ensures cost { steps.new ≡ steps.old + (to - from) }
    {
        let mut faults = before;
        for exception in from..to {
            let index = self.index_at(exception, steps);
            faults = faults.with(index, lane, self.n_lanes, exception == from);
        }
        faults
    }
}

impl Faults {
    /// With one index more, in an entry of a lane; `first` tells whether it is the entry's first.
    fn with(self, index: usize, lane: usize, n_lanes: usize, first: bool) -> Faults
        requires { 0 < n_lanes }
        ensures range { result.range ≡ (self.range || nat_le 1024 index) }
        ensures lane { result.lane ≡ (self.lane || not (index % n_lanes == lane)) }
        ensures order { result.order ≡ (self.order || (not first && nat_le index self.last)) }
        ensures last { result.last ≡ index }
    {
        Faults {
            range: self.range || index >= CHUNK,
            lane: self.lane || index % n_lanes != lane,
            order: self.order || (!first && index <= self.last),
            last: index,
        }
    }
}

fn is_u32(dtype: &DType) -> bool
    ensures { result ≡ is_u32 dtype.now }
{
    matches!(
        dtype,
        DType::Primitive(PType::U32, Nullability::NonNullable)
    )
}

fn is_u16(dtype: &DType) -> bool
    ensures { result ≡ is_u16 dtype.now }
{
    matches!(
        dtype,
        DType::Primitive(PType::U16, Nullability::NonNullable)
    )
}
