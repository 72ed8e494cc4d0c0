//! The elements and the needles, as numbers and as flat columns. The elements are even numbers in no order, about half of the
//! needles are even, and all are below twice their count; what isn't dense is spread from there.
use crate::{Kind, Measure, Outcome};
use std::alloc::Global;
use std::ops::Range;
use vx_base::{ColumnError, DType, FlatColumn, Nullability, PType, Res, RowBuffer};

/// What mixes the numbers of rows.
const STRIDE: u64 = 829348951;

/// What spreads numbers, no two of them to one.
const SPREAD: u64 = 11400714819323198485;

/// What numbers that are spread are below: 2 to the power of 60.
const SPAN: u64 = 1152921504606846976;

/// A list of numbers, each of which is told by its place.
#[derive(Clone, Copy)]
pub(crate) enum Listed {
    Elements,
    Needles,
}

/// A number that hangs on this one.
fn mixed(place: u64) -> u64 {
    place.wrapping_mul(STRIDE) >> 7
}

impl Measure {
    /// Twice the number of elements.
    pub(crate) fn twice(self) -> u64 {
        self.count.saturating_mul(2)
    }

    /// The number at a place of a list.
    pub(crate) fn number_at(self, list: Listed, place: u64) -> u64 {
        let number = match list {
            Listed::Elements => (place.wrapping_mul(STRIDE) % self.count.max(1)).wrapping_mul(2),
            Listed::Needles => mixed(place) % self.twice().max(1),
        };
        match self.kind {
            Kind::Dense => number,
            Kind::Sparse | Kind::Texts => number.wrapping_mul(SPREAD) % SPAN,
        }
    }

    /// The row that a read reads.
    pub(crate) fn row_at(self, read: u64) -> usize {
        (mixed(read) % self.count.max(1)) as usize
    }

    /// The type of the elements and of the needles.
    pub(crate) fn dtype(self) -> DType {
        match self.kind {
            Kind::Texts => DType::Utf8(Nullability::NonNullable),
            Kind::Dense | Kind::Sparse => DType::Primitive(PType::I64, Nullability::NonNullable),
        }
    }
}

fn push_number(rows: &mut RowBuffer, alloc: Global, kind: Kind, number: u64) -> Res<()> {
    match kind {
        Kind::Texts => {
            let text = format!(in alloc; "{number}")?;
            rows.push_text(alloc, text.as_str())
        }
        Kind::Dense | Kind::Sparse => rows.push_int(alloc, number as i128),
    }
}

/// The numbers at places of a list, or their texts.
pub(crate) fn flat(
    alloc: Global,
    measure: Measure,
    list: Listed,
    places: Range<u64>,
) -> Res<FlatColumn> {
    let dtype = measure.dtype();
    let mut rows = RowBuffer::new(alloc, &dtype);
    for place in places {
        push_number(
            &mut rows,
            alloc,
            measure.kind,
            measure.number_at(list, place),
        )?;
    }
    if !rows.fits(&dtype) {
        return Err(ColumnError::MismatchedTypes);
    }
    FlatColumn::from_buffer(alloc, dtype, rows)
}

/// Which needles are members, as an outcome.
pub(crate) fn told(bits: &[bool], made_reads: u64, asked_reads: u64) -> Outcome {
    let mut found = 0u64;
    let mut digest = 0u64;
    for (place, bit) in bits.iter().enumerate() {
        if *bit {
            found = found.wrapping_add(1);
            digest = digest.wrapping_add((place as u64).wrapping_add(1));
        }
    }
    Outcome {
        found,
        made_reads,
        asked_reads,
        digest,
    }
}
