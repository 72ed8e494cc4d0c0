//! Plain loops over lists of optional numbers, each done so often.
use crate::digests::{digest_of, number_code, truth_code};
use crate::rows::{FILLING, kept, middle, row_at};
use crate::{Measure, Outcome, Way};
use std::alloc::Global;
use vx_base::{ColumnError, Res};

/// The rows from one on.
fn rows_from(alloc: Global, first: u64, count: u64) -> Res<Vec<Option<i64>>> {
    let mut rows = Vec::with_capacity(alloc, count as usize)?;
    for place in 0..count {
        rows.push(row_at(first.saturating_add(place)))?;
    }
    Ok(rows)
}

fn masked(alloc: Global, rows: &[Option<i64>], bits: &[bool]) -> Res<Vec<Option<i64>>> {
    let mut masked = Vec::with_capacity(alloc, rows.len())?;
    for (k, row) in rows.iter().enumerate() {
        masked.push(match bits.get(k) {
            Some(true) => *row,
            _ => None,
        })?;
    }
    Ok(masked)
}

fn zipped(
    alloc: Global,
    rows: &[Option<i64>],
    others: &[Option<i64>],
    bits: &[bool],
) -> Res<Vec<Option<i64>>> {
    let mut zipped = Vec::with_capacity(alloc, rows.len())?;
    for (k, row) in rows.iter().enumerate() {
        zipped.push(match (bits.get(k), others.get(k)) {
            (Some(false), Some(other)) => *other,
            _ => *row,
        })?;
    }
    Ok(zipped)
}

fn filled(alloc: Global, rows: &[Option<i64>]) -> Res<Vec<i64>> {
    let mut filled = Vec::with_capacity(alloc, rows.len())?;
    for row in rows {
        filled.push(row.unwrap_or(FILLING))?;
    }
    Ok(filled)
}

fn narrow(row: Option<i64>, place: usize) -> Res<Option<i32>> {
    match row {
        None => Ok(None),
        Some(number) => match i32::try_from(number) {
            Ok(number) => Ok(Some(number)),
            Err(_) => Err(ColumnError::BadCast { row: place }),
        },
    }
}

fn narrowed(alloc: Global, rows: &[Option<i64>]) -> Res<Vec<Option<i32>>> {
    let mut narrowed = Vec::with_capacity(alloc, rows.len())?;
    for (k, row) in rows.iter().enumerate() {
        narrowed.push(narrow(*row, k)?)?;
    }
    Ok(narrowed)
}

fn compared(alloc: Global, rows: &[Option<i64>], value: i64) -> Res<Vec<Option<bool>>> {
    let mut compared = Vec::with_capacity(alloc, rows.len())?;
    for row in rows {
        compared.push(match row {
            Some(number) => Some(*number < value),
            None => None,
        })?;
    }
    Ok(compared)
}

fn number_codes(alloc: Global, rows: &[Option<i64>]) -> Res<Vec<u64>> {
    let mut codes = Vec::new(alloc);
    for row in rows {
        codes.push(match row {
            Some(number) => number_code(*number as i128),
            None => 0,
        })?;
    }
    Ok(codes)
}

fn filled_codes(alloc: Global, rows: &[i64]) -> Res<Vec<u64>> {
    let mut codes = Vec::new(alloc);
    for number in rows {
        codes.push(number_code(*number as i128))?;
    }
    Ok(codes)
}

fn narrow_codes(alloc: Global, rows: &[Option<i32>]) -> Res<Vec<u64>> {
    let mut codes = Vec::new(alloc);
    for row in rows {
        codes.push(match row {
            Some(number) => number_code(*number as i128),
            None => 0,
        })?;
    }
    Ok(codes)
}

fn truth_codes(alloc: Global, rows: &[Option<bool>]) -> Res<Vec<u64>> {
    let mut codes = Vec::new(alloc);
    for row in rows {
        codes.push(match row {
            Some(truth) => truth_code(*truth),
            None => 0,
        })?;
    }
    Ok(codes)
}

/// What stands for each row that the loop gives.
fn codes(
    alloc: Global,
    rows: &[Option<i64>],
    others: &[Option<i64>],
    bits: &[bool],
    measure: Measure,
) -> Res<Vec<u64>> {
    match measure.way {
        Way::Mask => number_codes(alloc, masked(alloc, rows, bits)?.as_slice()),
        Way::Zip => number_codes(alloc, zipped(alloc, rows, others, bits)?.as_slice()),
        Way::Fill => filled_codes(alloc, filled(alloc, rows)?.as_slice()),
        Way::Cast => narrow_codes(alloc, narrowed(alloc, rows)?.as_slice()),
        Way::Compare => {
            let compared = compared(alloc, rows, middle(measure.rows))?;
            truth_codes(alloc, compared.as_slice())
        }
    }
}

/// Lets the loop run once, and lets go what it gives.
fn run(
    alloc: Global,
    rows: &[Option<i64>],
    others: &[Option<i64>],
    bits: &[bool],
    measure: Measure,
) -> Res<usize> {
    Ok(match measure.way {
        Way::Mask => masked(alloc, rows, bits)?.len(),
        Way::Zip => zipped(alloc, rows, others, bits)?.len(),
        Way::Fill => filled(alloc, rows)?.len(),
        Way::Cast => narrowed(alloc, rows)?.len(),
        Way::Compare => compared(alloc, rows, middle(measure.rows))?.len(),
    })
}

/// Runs the loop so often, and tells its rows.
pub(crate) fn measured(alloc: Global, measure: Measure) -> Res<Outcome> {
    let rows = rows_from(alloc, 0, measure.rows)?;
    let others = rows_from(alloc, 1, measure.rows)?;
    let bits = kept(alloc, measure.rows)?;
    let (left, right) = (rows.as_slice(), others.as_slice());
    for _ in 0..measure.times {
        let _len = run(alloc, left, right, bits.as_slice(), measure)?;
    }
    let codes = codes(alloc, left, right, bits.as_slice(), measure)?;
    Ok(Outcome {
        reads: 0,
        rows: codes.len(),
        digest: digest_of(codes.as_slice()),
    })
}
