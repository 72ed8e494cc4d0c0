//! The places that are selected, and a plain gather of numbers by them.
use crate::{Measure, Outcome, Way};
use std::alloc::Global;
use vx_base::Res;

/// What mixes the numbers of rows.
const STRIDE: u64 = 829348951;

/// Whether a row is one of those that are kept, so many of 100: all over the column, or the first ones of each hundred.
pub(crate) fn is_kept(measure: Measure, row: u64) -> bool {
    let mixed = match measure.way {
        Way::Runs => row,
        _ => row.wrapping_mul(STRIDE) >> 7,
    };
    mixed % 100 < measure.per_hundred
}

/// The places of the rows that are kept; shuffled, as many in no order.
pub(crate) fn places(alloc: Global, measure: Measure) -> Res<Vec<usize>> {
    let mut places = Vec::new(alloc);
    for row in 0..measure.rows {
        if is_kept(measure, row) {
            places.push(place_of(measure, row) as usize)?;
        }
    }
    Ok(places)
}

/// Where a row that is kept stands, or another in its place where they are shuffled.
fn place_of(measure: Measure, row: u64) -> u64 {
    match measure.way {
        Way::Shuffled => row.wrapping_mul(STRIDE) % measure.rows.max(1),
        _ => row,
    }
}

/// The numbers at the places.
fn gather(alloc: Global, numbers: &[u64], places: &[usize]) -> Res<Vec<u64>> {
    let mut gathered = Vec::with_capacity(alloc, places.len())?;
    for place in places {
        match numbers.get(*place) {
            Some(number) => gathered.push(*number)?,
            None => {}
        }
    }
    Ok(gathered)
}

/// Gathers so often the numbers at the places, which are those of their places.
pub(crate) fn gathered(alloc: Global, measure: Measure) -> Res<Outcome> {
    let places = places(alloc, measure)?;
    let mut numbers = Vec::new(alloc);
    for row in 0..measure.rows {
        numbers.push(row)?;
    }
    for _ in 0..measure.times {
        let _gathered = gather(alloc, numbers.as_slice(), places.as_slice())?;
    }
    let gathered = gather(alloc, numbers.as_slice(), places.as_slice())?;
    Ok(Outcome {
        reads: 0,
        rows: gathered.len(),
        digest: digest_of(gathered.as_slice()),
    })
}

/// A number that hangs on each number and on its place.
pub(crate) fn digest_of(numbers: &[u64]) -> u64 {
    let mut digest = 0u64;
    for (place, number) in numbers.iter().enumerate() {
        let mixed = number.wrapping_mul((place as u64).wrapping_add(1));
        digest = digest.wrapping_add(mixed);
    }
    digest
}
