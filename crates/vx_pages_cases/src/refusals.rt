//! Refusals out of the JSON of a case.
use crate::types::no_form;
use serde_json::Value;
use std::alloc::Global;
use vx_base::{ColumnError, Path, Res, Rule, WireFault};

/// The number of this name, 0 where there is none.
fn number(case: &Value, name: &str) -> usize {
    match case.get(name).and_then(Value::as_u64) {
        Some(number) => number as usize,
        None => 0,
    }
}

fn name<'v>(case: &'v Value, key: &str) -> &'v str {
    case.get(key).and_then(Value::as_str).unwrap_or("")
}

fn path_of(alloc: Global, case: &Value) -> Res<Path> {
    let mut numbers = Vec::new(alloc);
    if let Some(values) = case.get("at").and_then(Value::as_array) {
        for value in values {
            numbers.push(value.as_u64().unwrap_or(0) as usize)?;
        }
    }
    Path::from_slice(alloc, numbers.as_slice())
}

/// The rule of this name, of those that no job breaks.
fn rule_of(name: &str) -> Option<Rule> {
    match name {
        "RowType" => Some(Rule::RowType),
        "LaneTooMany" => Some(Rule::LaneTooMany),
        "BoundaryType" => Some(Rule::BoundaryType),
        "BoundaryCount" => Some(Rule::BoundaryCount),
        "BoundaryStart" => Some(Rule::BoundaryStart),
        "BoundaryFall" => Some(Rule::BoundaryFall),
        "BoundaryEnd" => Some(Rule::BoundaryEnd),
        "BoundaryLength" => Some(Rule::BoundaryLength),
        "InnerLength" => Some(Rule::InnerLength),
        _ => None,
    }
}

/// The fault of this name.
fn fault_of(case: &Value) -> Option<WireFault> {
    let tag = u32::try_from(number(case, "tag")).unwrap_or(0);
    let number = case.get("number").and_then(Value::as_i64).unwrap_or(0);
    let number = i32::try_from(number).unwrap_or(0);
    match name(case, "fault") {
        "Truncated" => Some(WireFault::Truncated),
        "BadVarint" => Some(WireFault::BadVarint),
        "BadKey" => Some(WireFault::BadKey),
        "WrongWireType" => Some(WireFault::WrongWireType { tag }),
        "Group" => Some(WireFault::Group { tag }),
        "UnknownType" => Some(WireFault::UnknownType { number }),
        "FloatType" => Some(WireFault::FloatType { number }),
        "NotUnsigned" => Some(WireFault::NotUnsigned { number }),
        "TooLarge" => Some(WireFault::TooLarge),
        "NotEmpty" => Some(WireFault::NotEmpty),
        _ => None,
    }
}

/// A refusal with no field.
fn plain_refusal(name: &str) -> Option<ColumnError> {
    match name {
        "OutOfMemory" => Some(ColumnError::OutOfMemory),
        "MismatchedTypes" => Some(ColumnError::MismatchedTypes),
        "Unsorted" => Some(ColumnError::Unsorted),
        "NoChunkOffsets" => Some(ColumnError::NoChunkOffsets),
        "NotSerializable" => Some(ColumnError::NotSerializable),
        "NoChunks" => Some(ColumnError::NoChunks),
        _ => None,
    }
}

/// A refusal whose fields are numbers.
fn numbered_refusal(case: &Value) -> Option<ColumnError> {
    match name(case, "error") {
        "UnsupportedStep" => Some(ColumnError::UnsupportedStep {
            step: number(case, "step"),
        }),
        "BadRange" => Some(ColumnError::BadRange {
            start: number(case, "start"),
            end: number(case, "end"),
        }),
        "OutOfBounds" => Some(ColumnError::OutOfBounds {
            index: number(case, "index"),
            len: number(case, "len"),
        }),
        "LengthMismatch" => Some(ColumnError::LengthMismatch {
            expected: number(case, "expected"),
            found: number(case, "found"),
        }),
        "BadCast" => Some(ColumnError::BadCast {
            row: number(case, "row"),
        }),
        "UnknownColumn" => Some(ColumnError::UnknownColumn {
            number: number(case, "number"),
        }),
        "SlotOutOfRange" => Some(ColumnError::SlotOutOfRange {
            slot: number(case, "slot"),
        }),
        "MissingSlot" => Some(ColumnError::MissingSlot {
            slot: number(case, "slot"),
        }),
        _ => None,
    }
}

/// A refusal that tells a place or a fault.
fn placed_refusal(alloc: Global, case: &Value) -> Res<ColumnError> {
    match name(case, "error") {
        "Malformed" => match rule_of(name(case, "rule")) {
            Some(rule) => Ok(ColumnError::Malformed {
                at: path_of(alloc, case)?,
                rule,
            }),
            None => Err(no_form(alloc)),
        },
        "Unsupported" => Ok(ColumnError::Unsupported {
            at: path_of(alloc, case)?,
        }),
        _ => match fault_of(case) {
            Some(fault) => Ok(ColumnError::BadMetadata { fault }),
            None => Err(no_form(alloc)),
        },
    }
}

/// The refusal of a case.
pub(crate) fn refusal_of(alloc: Global, case: &Value) -> Res<ColumnError> {
    if let Some(refusal) = plain_refusal(name(case, "error")) {
        return Ok(refusal);
    }
    match numbered_refusal(case) {
        Some(refusal) => Ok(refusal),
        None => placed_refusal(alloc, case),
    }
}
