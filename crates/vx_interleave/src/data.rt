//! What an interleaved array says of itself beside its children.
use std::fmt;

/// The number of columns that are interleaved.
#[derive(Clone, Debug, PartialEq, Eq, Hash, Drop)]
pub struct InterleaveData {
    /// How many columns are interleaved.
    pub num_values: usize,
}

impl fmt::Display for InterleaveData {
    ghost use Rattle.std.specs.Prelude.{Some};
    ghost use Rattle.vx_interleave.specs.Texts.{data_text};

    ghost output = { λ d. Some (data_text d) };

    fn fmt<W: fmt::Write>(&self, f: &mut fmt::Formatter<W>) -> fmt::Result {
        let num_values = self.num_values;
        write!(f, "num_values: {num_values}")
    }
}
