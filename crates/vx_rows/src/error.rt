//! What a call may refuse, and why.
use crate::path::Path;
use std::alloc::{AllocError, AllocFailed};
use thiserror::Error;

/// The rules of well-formed parts and layouts. A refusal names the first one that is broken.
#[derive(Clone, Copy, Debug, PartialEq, Eq)]
pub enum Rule {
    /// A row doesn't fit its type.
    RowType,
    /// A length, or an offset and a length together, is above `usize::MAX`.
    TooLong,
    /// A chunk's type isn't the declared one.
    ChunkType,
    /// The number of lanes isn't a power of two from 1 to 128.
    LaneCount,
    /// A lane layout's offset is 1024 or more.
    LaneOffset,
    /// Lane offsets aren't of type `u32`.
    LaneOffsetsType,
    /// There isn't one lane offset for each lane of each chunk, and one more.
    LaneOffsetsLength,
    /// A lane offset is above its successor.
    LaneOffsetsFall,
    /// The last lane offset is above the number of indices.
    LaneOffsetsEnd,
    /// Lane indices aren't of type `u16`.
    LaneIndexType,
    /// Lane indices and values differ in number.
    LaneLengths,
    /// There are more than `u32::MAX` lane indices.
    LaneTooMany,
    /// A lane index is 1024 or more.
    LaneIndexRange,
    /// A lane index doesn't belong to the lane that it stands in.
    LaneIndexLane,
    /// Within a lane an index isn't above the one before it.
    LaneIndexOrder,
    /// The type of lane values isn't the column's, up to nullability.
    LaneValueType,
    /// A lane value is null.
    LaneValueNull,
    /// A list of exceptions is empty.
    NoExceptions,
    /// The indices of exceptions aren't of a non-nullable unsigned type.
    IndexType,
    /// The indices of exceptions don't rise strictly.
    IndexOrder,
    /// The first index is below the offset.
    IndexBelowOffset,
    /// The last index is past the end.
    IndexPastEnd,
    /// Indices and values differ in number.
    ValueCount,
    /// The type of exceptions isn't the base's, up to nullability.
    ValueType,
    /// Nullable exceptions stand over a base that isn't.
    ValueNullable,
    /// Chunk offsets aren't of a non-nullable unsigned type.
    ChunkOffsetType,
    /// There isn't one chunk offset for each chunk of 1024 rows.
    ChunkOffsetCount,
    /// A chunk offset isn't the count of the indices before its chunk.
    ChunkOffsetWrong,
    /// An interleaved column has fewer than two values.
    TooFewValues,
    /// Interleaved values differ in type by more than nullability.
    ValueTypes,
    /// A selector isn't of a non-nullable unsigned type.
    SelectorType,
    /// The two selectors differ in length.
    SelectorLengths,
    /// An array number isn't below the number of values.
    SelectorArray,
    /// A row number isn't below the length of the value that is named.
    SelectorRow,
    /// Chunk boundaries aren't of type `u64`.
    BoundaryType,
    /// There isn't one boundary for each chunk, and one more.
    BoundaryCount,
    /// The first boundary isn't 0.
    BoundaryStart,
    /// A boundary is above its successor.
    BoundaryFall,
    /// The last boundary isn't the declared length.
    BoundaryEnd,
    /// A chunk's length isn't its span between boundaries.
    BoundaryLength,
    /// An inner column's length isn't the declared one.
    InnerLength,
}

/// What is wrong with the bytes of a metadata message.
#[derive(Clone, Copy, Debug, PartialEq, Eq)]
pub enum WireFault {
    /// The bytes end within a field.
    Truncated,
    /// A number takes more than 64 bits.
    BadVarint,
    /// A key is too large, or has no tag or no known wire type.
    BadKey,
    /// A known tag stands before content of another kind.
    WrongWireType { tag: u32 },
    /// A group, which no message has.
    Group { tag: u32 },
    /// A number that stands for no type.
    UnknownType { number: i32 },
    /// A number that stands for a type of floats.
    FloatType { number: i32 },
    /// A number that stands for a type of signed integers.
    NotUnsigned { number: i32 },
    /// A number above `usize::MAX`.
    TooLarge,
    /// Metadata where there should be none.
    NotEmpty,
}

/// Why a call was refused. It prints as the variant's name alone.
#[derive(Debug, Drop, Error)]
pub enum ColumnError {
    /// There was no memory left.
    #[error("OutOfMemory")]
    OutOfMemory,
    /// The first rule that is broken, at this part; outside of part trees `at` is empty.
    #[error("Malformed")]
    Malformed { at: Path, rule: Rule },
    /// The part at `at` is over a type that it can't hold.
    #[error("Unsupported")]
    Unsupported { at: Path },
    /// The step of this number doesn't act on a column of nested type.
    #[error("UnsupportedStep")]
    UnsupportedStep { step: usize },
    /// A range that ends before it starts.
    #[error("BadRange")]
    BadRange { start: usize, end: usize },
    /// A row number that the column doesn't have, or an end past it.
    #[error("OutOfBounds")]
    OutOfBounds { index: usize, len: usize },
    /// A list of another length than it has to have.
    #[error("LengthMismatch")]
    LengthMismatch { expected: usize, found: usize },
    /// Two types that should be the same up to nullability.
    #[error("MismatchedTypes")]
    MismatchedTypes,
    /// The value of this row isn't in the type that it is cast to.
    #[error("BadCast")]
    BadCast { row: usize },
    /// A searched column isn't sorted.
    #[error("Unsorted")]
    Unsorted,
    /// There is no part of this number.
    #[error("UnknownColumn")]
    UnknownColumn { number: usize },
    /// Patches without chunk offsets were asked for one.
    #[error("NoChunkOffsets")]
    NoChunkOffsets,
    /// There is no slot of this number.
    #[error("SlotOutOfRange")]
    SlotOutOfRange { slot: usize },
    /// The slot of this number is empty.
    #[error("MissingSlot")]
    MissingSlot { slot: usize },
    /// The encoding has no serial form.
    #[error("NotSerializable")]
    NotSerializable,
    /// Metadata that can't be read.
    #[error("BadMetadata")]
    BadMetadata { fault: WireFault },
    /// A column was to be made of no chunk, with no type.
    #[error("NoChunks")]
    NoChunks,
}

pub type Res<T> = Result<T, ColumnError>;

impl From<AllocError> for ColumnError {
    ghost use Rattle.std.specs.Prelude.{◌≡◌};
    ghost use Rattle.vx_rows.specs.declared.error.ColumnError.TheVariants.{OutOfMemory};

    ghost from_gives = { λ _ e. e ≡ OutOfMemory };

    fn from(_e: AllocError) -> ColumnError {
        ColumnError::OutOfMemory
    }
}

impl<T: Drop> From<AllocFailed<T>> for ColumnError {
    ghost use Rattle.std.specs.Prelude.{◌≡◌};
    ghost use Rattle.vx_rows.specs.declared.error.ColumnError.TheVariants.{OutOfMemory};

    ghost from_gives = { λ _ e. e ≡ OutOfMemory };

    fn from(_e: AllocFailed<T>) -> ColumnError {
        ColumnError::OutOfMemory
    }
}
