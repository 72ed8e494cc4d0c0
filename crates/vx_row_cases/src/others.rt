//! Calls on errors, names and counts.
use std::alloc::{AllocError, Global};
use std::rc::RcStr;
use vx_base::{ColumnError, Ledger, Name, NoLedger, Path, Res, Rule, Steps, WireFault};
use vx_cases::{Asked, Call};

/// Whom calls on errors, names and counts ask.
#[derive(Drop)]
pub(crate) struct Others;

/// The refusal of this name that tells no place and no number.
fn plain_error(name: &str) -> Option<ColumnError> {
    match name {
        "out of memory" => Some(ColumnError::OutOfMemory),
        "mismatched types" => Some(ColumnError::MismatchedTypes),
        "unsorted" => Some(ColumnError::Unsorted),
        "no chunk offsets" => Some(ColumnError::NoChunkOffsets),
        "not serializable" => Some(ColumnError::NotSerializable),
        "no chunks" => Some(ColumnError::NoChunks),
        _ => None,
    }
}

/// The refusal of this name that tells numbers.
fn numbered_error(name: &str) -> Option<ColumnError> {
    match name {
        "unsupported step" => Some(ColumnError::UnsupportedStep { step: 1 }),
        "bad range" => Some(ColumnError::BadRange { start: 2, end: 1 }),
        "out of bounds" => Some(ColumnError::OutOfBounds { index: 3, len: 2 }),
        "length mismatch" => Some(ColumnError::LengthMismatch {
            expected: 4,
            found: 5,
        }),
        "bad cast" => Some(ColumnError::BadCast { row: 6 }),
        "unknown column" => Some(ColumnError::UnknownColumn { number: 7 }),
        "slot out of range" => Some(ColumnError::SlotOutOfRange { slot: 8 }),
        "missing slot" => Some(ColumnError::MissingSlot { slot: 9 }),
        _ => None,
    }
}

/// The refusal of this name that tells a place or a fault.
fn placed_error(alloc: Global, name: &str) -> Option<ColumnError> {
    match name {
        "malformed" => Some(ColumnError::Malformed {
            at: Path::empty(alloc),
            rule: Rule::RowType,
        }),
        "unsupported" => Some(ColumnError::Unsupported {
            at: Path::empty(alloc),
        }),
        "bad metadata" => Some(ColumnError::BadMetadata {
            fault: WireFault::Truncated,
        }),
        _ => None,
    }
}

/// The refusal as it is shown.
fn shown(alloc: Global, error: Option<ColumnError>) -> Result<String, AllocError> {
    match error {
        Some(error) => format!(in alloc; "{error}"),
        None => String::from_str(alloc, "no error"),
    }
}

fn error_answer(alloc: Global, name: &str) -> Result<String, AllocError> {
    if let Some(error) = plain_error(name) {
        return shown(alloc, Some(error));
    }
    if let Some(error) = numbered_error(name) {
        return shown(alloc, Some(error));
    }
    shown(alloc, placed_error(alloc, name))
}

/// The name of a copied text, and of one that is counted.
fn names(alloc: Global, text: &str) -> Res<String> {
    let copied = Name::from_str(alloc, text)?;
    let counted = Name::from_rc_str(RcStr::from_str(alloc, text)?);
    Ok(format!(in alloc; "{} {}", copied.as_str(), counted.as_str())?)
}

fn path(alloc: Global, numbers: &[usize]) -> Res<String> {
    let path = Path::from_slice(alloc, numbers)?;
    Ok(format!(in alloc; "{:?}", path.as_slice())?)
}

impl Asked for Others {
    fn shape(&self, alloc: Global) -> Result<String, AllocError> {
        String::from_str(alloc, "others")
    }

    fn makes(&self, _call: &Call<'_>) -> bool {
        false
    }

    fn made<L: Ledger>(
        &self,
        _alloc: Global,
        _call: &Call<'_>,
        _steps: &mut Steps<L>,
    ) -> Res<Option<Self>> {
        Ok(None)
    }

    fn answer<L: Ledger>(
        &self,
        alloc: Global,
        call: &Call<'_>,
        steps: &mut Steps<L>,
    ) -> Res<String> {
        let text = call.argument(1).as_str().unwrap_or("");
        match call.name {
            "error" => Ok(error_answer(alloc, text)?),
            "name" => names(alloc, text),
            "path" => {
                let numbers = crate::reading::sizes_of(alloc, call.argument(1))?;
                path(alloc, numbers.as_slice())
            }
            "add" => {
                steps.add(call.number(1));
                steps.add(call.number(2));
                steps.tick();
                Ok(String::from_str(alloc, "added")?)
            }
            "add to none" => {
                NoLedger::new().add(call.number(1));
                Ok(String::from_str(alloc, "added")?)
            }
            _ => Ok(String::from_str(alloc, "no call of these")?),
        }
    }
}
