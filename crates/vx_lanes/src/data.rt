//! What a patched array says of itself beside its children.
use std::fmt;

/// The number of lanes, and the place of the first row in its chunk.
#[derive(Clone, Debug, PartialEq, Eq, Hash, Drop)]
pub struct PatchedData {
    /// How many lanes a chunk has.
    pub n_lanes: usize,
    /// The place of the first row in its chunk.
    pub offset: usize,
}

impl fmt::Display for PatchedData {
    ghost use Rattle.std.specs.Prelude.{Some};
    ghost use Rattle.vx_lanes.specs.Slots.{data_text};

    ghost output = { λ d. Some (data_text d) };

    fn fmt<W: fmt::Write>(&self, f: &mut fmt::Formatter<W>) -> fmt::Result {
        let n_lanes = self.n_lanes;
        let offset = self.offset;
        write!(f, "n_lanes: {n_lanes}, offset: {offset}")
    }
}

/// The slots of a patched array: where each of its children stands.
pub struct PatchedSlots {}

impl PatchedSlots {
    /// The column below the exceptions.
    pub const INNER: usize = 0;
    /// Where the exceptions of each lane start.
    pub const LANE_OFFSETS: usize = 1;
    /// The places of the exceptions in their chunks.
    pub const PATCH_INDICES: usize = 2;
    /// The exceptions.
    pub const PATCH_VALUES: usize = 3;
}
