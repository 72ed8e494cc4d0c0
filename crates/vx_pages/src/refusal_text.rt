//! Refusals as text.
ghost use Rattle.std.specs.Prelude.{◌≡◌, [], ◌∷◌, ◌++◌, OnOk, codes, decimal};
ghost use Rattle.json.specs.Token as token;
ghost use Rattle.serde_json.specs.Find.{of_integer};
ghost use Rattle.serde_json.specs.Written.{number_text};
ghost use Rattle.vx_pages.specs.RefusalJson as spec;
ghost use Rattle.vx_pages.specs.Tokens.{tokens_of};

use crate::parts::{end_count, open, write_count, write_integer, write_text};
use json::Writer;
use std::alloc::AllocError;
use vx_rows::{ColumnError, Path, Rule, WireFault};

/// A `match` that gives each variant its name.
macro_rules! own_names {
    ($rule:expr; $($name:ident)*) => {
        match $rule {
            $(Rule::$name => stringify!($name),)*
        }
    };
}

/// The name of a rule.
fn rule_name(rule: Rule) -> &'static str
    ensures { result.now ≡ spec.rule_name rule }
{
    own_names!(rule;
        RowType TooLong ChunkType
        LaneCount LaneOffset LaneOffsetsType LaneOffsetsLength LaneOffsetsFall LaneOffsetsEnd
        LaneIndexType LaneLengths LaneTooMany LaneIndexRange
        LaneIndexLane LaneIndexOrder LaneValueType LaneValueNull
        NoExceptions IndexType IndexOrder IndexBelowOffset IndexPastEnd
        ValueCount ValueType ValueNullable
        ChunkOffsetType ChunkOffsetCount ChunkOffsetWrong
        TooFewValues ValueTypes
        SelectorType SelectorLengths SelectorArray SelectorRow
        BoundaryType BoundaryCount BoundaryStart BoundaryFall BoundaryEnd BoundaryLength
        InnerLength)
}

fn write_path(out: &mut Writer, at: &Path) -> Result<(), AllocError>
    ensures ok { OnOk result
        (out.new.tokens ≡ out.old.tokens ++ tokens_of (spec.path_json at.now)) }
    ensures before { out.new.before ≡ out.old.before }
{
    let numbers = at.as_slice();
    out.begin_array()?;
    for number in numbers {
        out.u64(*number as u64)?;
    }
    out.end_array()
}

/// Writes the beginning of an object whose first member names a refusal.
fn open_error(out: &mut Writer, name: &str) -> Result<(), AllocError>
    ensures ok { OnOk result (out.new.tokens ≡ out.old.tokens ++ token.begin_object
        ∷ token.key (codes "error") ∷ token.string name.now ∷ []) }
    ensures before { out.new.before ≡ out.old.before }
{
    out.begin_object()?;
    write_text(out, "error", name)
}

fn write_bare(out: &mut Writer, name: &str) -> Result<(), AllocError>
    ensures ok { OnOk result (out.new.tokens ≡ out.old.tokens ++ tokens_of (spec.bare name.now)) }
    ensures before { out.new.before ≡ out.old.before }
{
    open_error(out, name)?;
    out.end_object()
}

/// A refusal with one number.
fn write_counted(out: &mut Writer, name: &str, key: &str, count: usize) -> Result<(), AllocError>
    ensures ok { OnOk result
        (out.new.tokens ≡ out.old.tokens ++ tokens_of (spec.counted name.now key.now count)) }
    ensures before { out.new.before ≡ out.old.before }
{
    open_error(out, name)?;
    end_count(out, key, count)
}

/// Writes the beginning of an object whose first member is a number.
fn open_count(out: &mut Writer, key: &str, count: usize) -> Result<(), AllocError>
    ensures ok { OnOk result (out.new.tokens ≡ out.old.tokens ++ token.begin_object
        ∷ token.key key.now ∷ token.number (decimal count) ∷ []) }
    ensures before { out.new.before ≡ out.old.before }
{
    out.begin_object()?;
    write_count(out, key, count)
}

fn write_bad_range(out: &mut Writer, start: usize, end: usize) -> Result<(), AllocError>
    ensures ok { OnOk result
        (out.new.tokens ≡ out.old.tokens ++ tokens_of (spec.bad_range start end)) }
    ensures before { out.new.before ≡ out.old.before }
{
    open_count(out, "end", end)?;
    write_text(out, "error", "BadRange")?;
    end_count(out, "start", start)
}

fn write_out_of_bounds(out: &mut Writer, index: usize, len: usize) -> Result<(), AllocError>
    ensures ok { OnOk result
        (out.new.tokens ≡ out.old.tokens ++ tokens_of (spec.out_of_bounds index len)) }
    ensures before { out.new.before ≡ out.old.before }
{
    open_error(out, "OutOfBounds")?;
    write_count(out, "index", index)?;
    end_count(out, "len", len)
}

fn write_length_mismatch(out: &mut Writer, expected: usize, found: usize) -> Result<(), AllocError>
    ensures ok { OnOk result
        (out.new.tokens ≡ out.old.tokens ++ tokens_of (spec.length_mismatch expected found)) }
    ensures before { out.new.before ≡ out.old.before }
{
    open_error(out, "LengthMismatch")?;
    write_count(out, "expected", expected)?;
    end_count(out, "found", found)
}

fn write_malformed(out: &mut Writer, at: &Path, rule: Rule) -> Result<(), AllocError>
    ensures ok { OnOk result
        (out.new.tokens ≡ out.old.tokens ++ tokens_of (spec.malformed at.now rule)) }
    ensures before { out.new.before ≡ out.old.before }
{
    open(out, "at")?;
    write_path(out, at)?;
    write_text(out, "error", "Malformed")?;
    write_text(out, "rule", rule_name(rule))?;
    out.end_object()
}

fn write_unsupported(out: &mut Writer, at: &Path) -> Result<(), AllocError>
    ensures ok { OnOk result
        (out.new.tokens ≡ out.old.tokens ++ tokens_of (spec.unsupported at.now)) }
    ensures before { out.new.before ≡ out.old.before }
{
    open(out, "at")?;
    write_path(out, at)?;
    write_text(out, "error", "Unsupported")?;
    out.end_object()
}

/// Writes what each fault of metadata begins with.
fn open_fault(out: &mut Writer, name: &str) -> Result<(), AllocError>
    ensures ok { OnOk result (out.new.tokens ≡ out.old.tokens ++ token.begin_object
        ∷ token.key (codes "error") ∷ token.string (codes "BadMetadata")
        ∷ token.key (codes "fault") ∷ token.string name.now ∷ []) }
    ensures before { out.new.before ≡ out.old.before }
{
    open_error(out, "BadMetadata")?;
    write_text(out, "fault", name)
}

fn write_plain_fault(out: &mut Writer, name: &str) -> Result<(), AllocError>
    ensures ok { OnOk result
        (out.new.tokens ≡ out.old.tokens ++ tokens_of (spec.plain_fault name.now)) }
    ensures before { out.new.before ≡ out.old.before }
{
    open_fault(out, name)?;
    out.end_object()
}

fn write_tagged_fault(out: &mut Writer, name: &str, tag: u32) -> Result<(), AllocError>
    ensures ok { OnOk result
        (out.new.tokens ≡ out.old.tokens ++ tokens_of (spec.tagged_fault name.now tag)) }
    ensures before { out.new.before ≡ out.old.before }
{
    open_fault(out, name)?;
    end_count(out, "tag", tag as usize)
}

/// Writes the number of a fault, and the end of the object.
fn end_number(out: &mut Writer, number: i32) -> Result<(), AllocError>
    ensures ok { OnOk result (out.new.tokens ≡ out.old.tokens ++ token.key (codes "number")
        ∷ token.number (number_text (of_integer number)) ∷ token.end_object ∷ []) }
    ensures before { out.new.before ≡ out.old.before }
{
    out.key("number")?;
    write_integer(out, number as i64)?;
    out.end_object()
}

fn write_numbered_fault(out: &mut Writer, name: &str, number: i32) -> Result<(), AllocError>
    ensures ok { OnOk result
        (out.new.tokens ≡ out.old.tokens ++ tokens_of (spec.numbered_fault name.now number)) }
    ensures before { out.new.before ≡ out.old.before }
{
    open_fault(out, name)?;
    end_number(out, number)
}

fn write_fault(out: &mut Writer, fault: &WireFault) -> Result<(), AllocError>
    ensures ok { OnOk result
        (out.new.tokens ≡ out.old.tokens ++ tokens_of (spec.fault_json fault.now)) }
    ensures before { out.new.before ≡ out.old.before }
{
    match fault {
        WireFault::Truncated => write_plain_fault(out, "Truncated"),
        WireFault::BadVarint => write_plain_fault(out, "BadVarint"),
        WireFault::BadKey => write_plain_fault(out, "BadKey"),
        WireFault::WrongWireType { tag } => write_tagged_fault(out, "WrongWireType", *tag),
        WireFault::Group { tag } => write_tagged_fault(out, "Group", *tag),
        WireFault::UnknownType { number } => write_numbered_fault(out, "UnknownType", *number),
        WireFault::FloatType { number } => write_numbered_fault(out, "FloatType", *number),
        WireFault::NotUnsigned { number } => write_numbered_fault(out, "NotUnsigned", *number),
        WireFault::TooLarge => write_plain_fault(out, "TooLarge"),
        WireFault::NotEmpty => write_plain_fault(out, "NotEmpty"),
    }
}

/// Writes a refusal: the variant's name under `error`, and its fields under their names.
pub(crate) fn write_refusal(out: &mut Writer, error: &ColumnError) -> Result<(), AllocError>
    ensures ok { OnOk result
        (out.new.tokens ≡ out.old.tokens ++ tokens_of (spec.refusal_json error.now)) }
    ensures before { out.new.before ≡ out.old.before }
{
    match error {
        ColumnError::OutOfMemory => write_bare(out, "OutOfMemory"),
        ColumnError::Malformed { at, rule } => write_malformed(out, at, *rule),
        ColumnError::Unsupported { at } => write_unsupported(out, at),
        ColumnError::UnsupportedStep { step } => {
            write_counted(out, "UnsupportedStep", "step", *step)
        }
        ColumnError::BadRange { start, end } => write_bad_range(out, *start, *end),
        ColumnError::OutOfBounds { index, len } => { write_out_of_bounds(out, *index, *len) }
        ColumnError::LengthMismatch { expected, found } => {
            write_length_mismatch(out, *expected, *found)
        }
        ColumnError::MismatchedTypes => write_bare(out, "MismatchedTypes"),
        ColumnError::BadCast { row } => write_counted(out, "BadCast", "row", *row),
        ColumnError::Unsorted => write_bare(out, "Unsorted"),
        ColumnError::UnknownColumn { number } => {
            write_counted(out, "UnknownColumn", "number", *number)
        }
        ColumnError::NoChunkOffsets => write_bare(out, "NoChunkOffsets"),
        ColumnError::SlotOutOfRange { slot } => {
            write_counted(out, "SlotOutOfRange", "slot", *slot)
        }
        ColumnError::MissingSlot { slot } => { write_counted(out, "MissingSlot", "slot", *slot) }
        ColumnError::NotSerializable => write_bare(out, "NotSerializable"),
        ColumnError::BadMetadata { fault } => write_fault(out, fault),
        ColumnError::NoChunks => write_bare(out, "NoChunks"),
    }
}
