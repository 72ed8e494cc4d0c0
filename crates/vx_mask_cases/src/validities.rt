//! Calls on entries of a validity and a number of rows.
ghost use Rattle.std.specs.Prelude.{All, IsTrue, ◌↔◌};
ghost use Rattle.vx_masks.specs.Validities.{HasBits};

use crate::reading::{bits_of, bits_text, number_of};
use serde_json::Value;
use std::alloc::{AllocError, Global};
use vx_base::{ColumnError, Ledger, Path, Res, Seq, Steps};
use vx_cases::{Asked, Call};
use vx_masks::Validity;

/// Whom calls on validities ask.
#[derive(Drop)]
pub(crate) struct Validities {
    entries: Vec<(Validity, usize)>,
}

/// The entries of a case. A validity that isn't known is refused as `Unsupported`.
pub(crate) fn validities_of(alloc: Global, value: &Value) -> Res<Validities> {
    let mut entries = Vec::new(alloc);
    if let Some(values) = value.as_array() {
        for value in values {
            entries.push(entry_of(alloc, value)?)?;
        }
    }
    Ok(Validities { entries })
}

fn entry_of(alloc: Global, value: &Value) -> Res<(Validity, usize)> {
    let number = number_of(value.get(1));
    match value.get(0).and_then(Value::as_str) {
        Some("NonNullable") => Ok((Validity::NonNullable, number)),
        Some("AllValid") => Ok((Validity::AllValid, number)),
        Some("AllInvalid") => Ok((Validity::AllInvalid, number)),
        Some("Array") => {
            let bits = bits_of(alloc, value.get(1).and_then(Value::as_str))?;
            Ok((
                Validity::Array(Seq::from_vec(bits)),
                number_of(value.get(2)),
            ))
        }
        _ => Err(ColumnError::Unsupported {
            at: Path::empty(alloc),
        }),
    }
}

/// Whether an array has a bit for each of so many rows.
fn has_bits(validity: &Validity, len: usize) -> bool
    ensures { IsTrue result ↔ HasBits validity.now len }
{
    match validity {
        Validity::NonNullable | Validity::AllValid | Validity::AllInvalid => true,
        Validity::Array(bits) => bits.len() == len,
    }
}

/// Whether each array has as many bits as its number says.
fn have_bits(entries: &[(Validity, usize)]) -> bool
    ensures { IsTrue result ↔ All (λ e. HasBits e.0 e.1) entries.now }
{
    entries.iter().all(|entry| has_bits(&entry.0, entry.1))
}

fn validity_text(alloc: Global, validity: &Validity) -> Result<String, AllocError> {
    match validity {
        Validity::NonNullable => String::from_str(alloc, "NonNullable"),
        Validity::AllValid => String::from_str(alloc, "AllValid"),
        Validity::AllInvalid => String::from_str(alloc, "AllInvalid"),
        Validity::Array(bits) => {
            let bits = bits_text(alloc, bits.as_slice())?;
            format!(in alloc; "Array {bits}")
        }
    }
}

fn concat(alloc: Global, entries: &[(Validity, usize)]) -> Res<String> {
    if !have_bits(entries) {
        return Ok(String::from_str(alloc, "not allowed")?);
    }
    match Validity::concat(alloc, entries)? {
        Some(validity) => Ok(validity_text(alloc, &validity)?),
        None => Ok(String::from_str(alloc, "none")?),
    }
}

/// The bits of the entry of this number, over so many rows.
fn to_bits(alloc: Global, entries: &[(Validity, usize)], number: usize, len: usize) -> Res<String> {
    let Some(entry) = entries.get(number) else {
        return Ok(String::from_str(alloc, "no entry")?);
    };
    if !has_bits(&entry.0, len) {
        return Ok(String::from_str(alloc, "not allowed")?);
    }
    let bits = entry.0.to_bits(alloc, len)?;
    Ok(bits_text(alloc, bits.as_slice())?)
}

impl Asked for Validities {
    fn shape(&self, alloc: Global) -> Result<String, AllocError> {
        format!(in alloc; "entries {}", self.entries.len())
    }

    fn makes(&self, _call: &Call<'_>) -> bool {
        false
    }

    fn made<L: Ledger>(
        &self,
        _alloc: Global,
        _call: &Call<'_>,
        _steps: &mut Steps<L>,
    ) -> Res<Option<Self>> {
        Ok(None)
    }

    fn answer<L: Ledger>(
        &self,
        alloc: Global,
        call: &Call<'_>,
        _steps: &mut Steps<L>,
    ) -> Res<String> {
        let entries = self.entries.as_slice();
        Ok(match call.name {
            "concat" => concat(alloc, entries)?,
            "to_bits" => to_bits(alloc, entries, call.number(1), call.number(2))?,
            _ => String::from_str(alloc, "no call of validities")?,
        })
    }
}
