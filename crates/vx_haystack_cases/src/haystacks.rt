//! Calls on the elements of a haystack.
//!
//! - `["contains",F]`: a haystack of the elements, and which of the needles are among them, with `null` for a null;
//! - `["twice",F,F]`: the same of two columns of needles, of one haystack;
//! - `["made"]`: a haystack alone.
use crate::columns::any_column;
use std::alloc::{AllocError, Global};
use vx_base::{ColumnError, FlatColumn, Ledger, Path, Res, Steps};
use vx_cases::{Asked, Call};
use vx_haystack::ArrayHaystack;
use vx_masks::Validity;

/// The elements of a haystack.
#[derive(Drop)]
pub(crate) struct Elements {
    pub(crate) column: FlatColumn,
}

/// Whether a needle is no null.
fn is_valid(validity: &Validity, i: usize) -> bool {
    match validity {
        Validity::NonNullable | Validity::AllValid => true,
        Validity::AllInvalid => false,
        Validity::Array(bits) => bits.as_slice().get(i).copied().unwrap_or(false),
    }
}

fn bits_text(alloc: Global, bits: &[bool], validity: &Validity) -> Result<String, AllocError> {
    if bits.is_empty() {
        return String::from_str(alloc, "no needles");
    }
    let mut text = String::new(alloc);
    for (i, bit) in bits.iter().enumerate() {
        if i > 0 {
            text.push(',')?;
        }
        let word = match (is_valid(validity, i), *bit) {
            (false, false) => "null",
            (false, true) => "a null among them",
            (true, false) => "false",
            (true, true) => "true",
        };
        text.push_str(word)?;
    }
    Ok(text)
}

/// The needles, which are refused as `Unsupported` where they are no column.
fn needles_of(alloc: Global, call: &Call<'_>, at: usize) -> Res<FlatColumn> {
    any_column(alloc, call.argument(at)).map_err(|_| ColumnError::Unsupported {
        at: Path::empty(alloc),
    })
}

fn found<L: Ledger>(
    set: &ArrayHaystack,
    alloc: Global,
    call: &Call<'_>,
    at: usize,
    steps: &mut Steps<L>,
) -> Res<String> {
    let needles = needles_of(alloc, call, at)?;
    let (bits, validity) = set.contains(alloc, &needles, steps)?;
    Ok(bits_text(alloc, bits.as_slice(), &validity)?)
}

impl Asked for Elements {
    fn shape(&self, alloc: Global) -> Result<String, AllocError> {
        format!(in alloc; "{} elements", self.column.len())
    }

    fn makes(&self, _call: &Call<'_>) -> bool {
        false
    }

    fn made<L: Ledger>(
        &self,
        _alloc: Global,
        _call: &Call<'_>,
        _steps: &mut Steps<L>,
    ) -> Res<Option<Self>> {
        Ok(None)
    }

    fn answer<L: Ledger>(
        &self,
        alloc: Global,
        call: &Call<'_>,
        steps: &mut Steps<L>,
    ) -> Res<String> {
        let set = ArrayHaystack::try_new(alloc, &self.column, steps)?;
        match call.name {
            "contains" => found(&set, alloc, call, 1, steps),
            "twice" => {
                let mut text = found(&set, alloc, call, 1, steps)?;
                text.push_str("; ")?;
                let more = found(&set, alloc, call, 2, steps)?;
                text.push_str(more.as_str())?;
                Ok(text)
            }
            _ => Ok(self.shape(alloc)?),
        }
    }
}
