//! Which part of an assembled column each place is a row of, and which row there.
ghost use Rattle.std.specs.Prelude.{◌≡◌, ◌+◌, ◌*◌, ◌<◌, ◌≤◌, ◌∷◌, [], All, IfOk, IsOkUnless, length, map};
ghost use Rattle.vx_search.specs.Places.{search_bound};
ghost use Rattle.vx_patches.specs.Search.{search_cost};
ghost use Rattle.vx_column.specs.Columns.{IsSound, rows_of, len_of, chunks_of, interleaved_of, base_of, values_of, index_of};
ghost use Rattle.vx_column.specs.declared.column.Column.TheVariants.{Chunked as chunked_column, Excepted as excepted_column, Interleave as interleave_column};
ghost use Rattle.vx_select.specs.Spots.{AreBelow, IsSpotOf, AreSpotsOf};

use crate::walk::{never_fall, walked_spots};
use std::alloc::Global;
use vx_base::{ColumnError, Ledger, Res, Steps};
use vx_column::{ChunkedArray, ExceptedArray, InterleaveArray};

/// The chunk of a row, and the row's place in it.
fn chunk_spot<L: Ledger>(array: &ChunkedArray, place: usize, steps: &mut Steps<L>) -> (usize, usize)
    requires sound { IsSound (chunked_column array.now) }
    requires inside { place < len_of (chunked_column array.now) }
    ensures spot { IsSpotOf (map rows_of (chunks_of array.now)) (rows_of (chunked_column array.now)) place result }
    ensures rise { steps.new ≤ steps.old + search_bound (length (chunks_of array.now) + 1) }
    ensures monotone { steps.old ≤ steps.new }
{
    array.find_chunk_idx(place, steps)
}

/// The chunk of each row, and the row's place in it. Places that don't fall are walked to, and others are searched.
pub(crate) fn chunk_spots<L: Ledger>(
    array: &ChunkedArray,
    alloc: Global,
    places: &[usize],
    steps: &mut Steps<L>,
) -> Res<Vec<(usize, usize)>>
    requires sound { IsSound (chunked_column array.now) }
    requires inside { AreBelow (len_of (chunked_column array.now)) places.now }
    ensures ok { IfOk result (λ spots. AreSpotsOf (map rows_of (chunks_of array.now)) (rows_of (chunked_column array.now)) places.now spots.items) }
    ensures err { IsOkUnless result ColumnError.OutOfMemory }
    ensures rise { steps.new ≤ steps.old + length places.now * search_bound (length (chunks_of array.now) + 1) }
    ensures monotone { steps.old ≤ steps.new }
{
    if never_fall(places) {
        return walked_spots(array, alloc, places);
    }
    searched_spots(array, alloc, places, steps)
}

/// The chunk of each row, and the row's place in it, each searched.
fn searched_spots<L: Ledger>(
    array: &ChunkedArray,
    alloc: Global,
    places: &[usize],
    steps: &mut Steps<L>,
) -> Res<Vec<(usize, usize)>>
    requires sound { IsSound (chunked_column array.now) }
    requires inside { AreBelow (len_of (chunked_column array.now)) places.now }
    ensures ok { IfOk result (λ spots. AreSpotsOf (map rows_of (chunks_of array.now)) (rows_of (chunked_column array.now)) places.now spots.items) }
    ensures err { IsOkUnless result ColumnError.OutOfMemory }
    ensures rise { steps.new ≤ steps.old + length places.now * search_bound (length (chunks_of array.now) + 1) }
    ensures monotone { steps.old ≤ steps.new }
{
    let mut spots = Vec::new(alloc);
    for place in places {
        spots.push(chunk_spot(array, *place, steps))?;
    }
    Ok(spots)
}

/// The value that a row comes from, and the row that it is there.
fn value_spot<L: Ledger>(
    array: &InterleaveArray,
    place: usize,
    steps: &mut Steps<L>,
) -> (usize, usize)
    requires sound { IsSound (interleave_column array.now) }
    requires inside { place < len_of (interleave_column array.now) }
    ensures spot { IsSpotOf (map rows_of (interleaved_of array.now)) (rows_of (interleave_column array.now)) place result }
    ensures cost { steps.new ≡ steps.old + 2 }
{
    array.named(place, steps)
}

/// The value that each row comes from, and the row that it is there.
pub(crate) fn value_spots<L: Ledger>(
    array: &InterleaveArray,
    alloc: Global,
    places: &[usize],
    steps: &mut Steps<L>,
) -> Res<Vec<(usize, usize)>>
    requires sound { IsSound (interleave_column array.now) }
    requires inside { AreBelow (len_of (interleave_column array.now)) places.now }
    ensures ok { IfOk result (λ spots. AreSpotsOf (map rows_of (interleaved_of array.now)) (rows_of (interleave_column array.now)) places.now spots.items) }
    ensures err { IsOkUnless result ColumnError.OutOfMemory }
    ensures rise { steps.new ≤ steps.old + length places.now * 2 }
    ensures monotone { steps.old ≤ steps.new }
{
    let mut spots = Vec::new(alloc);
    for place in places {
        spots.push(value_spot(array, *place, steps))?;
    }
    Ok(spots)
}

/// 0 and the row where it has no exception, or 1 and the exception's place.
fn exception_spot<L: Ledger>(
    array: &ExceptedArray,
    place: usize,
    steps: &mut Steps<L>,
) -> (usize, usize)
    requires sound { IsSound (excepted_column array.now) }
    requires inside { place < len_of (excepted_column array.now) }
    ensures spot { IsSpotOf (rows_of (base_of array.now) ∷ rows_of (values_of array.now) ∷ []) (rows_of (excepted_column array.now)) place result }
    ensures rise { steps.new ≤ steps.old + search_cost (index_of array.now) }
    ensures monotone { steps.old ≤ steps.new }
{
    match array.place_of(place, steps) {
        Some(exception) => (1, exception),
        None => (0, place),
    }
}

/// Where each row stands, in the base or among the values.
pub(crate) fn exception_spots<L: Ledger>(
    array: &ExceptedArray,
    alloc: Global,
    places: &[usize],
    steps: &mut Steps<L>,
) -> Res<Vec<(usize, usize)>>
    requires sound { IsSound (excepted_column array.now) }
    requires inside { AreBelow (len_of (excepted_column array.now)) places.now }
    ensures ok { IfOk result (λ spots. AreSpotsOf (rows_of (base_of array.now) ∷ rows_of (values_of array.now) ∷ []) (rows_of (excepted_column array.now)) places.now spots.items) }
    ensures err { IsOkUnless result ColumnError.OutOfMemory }
    ensures rise { steps.new ≤ steps.old + length places.now * search_cost (index_of array.now) }
    ensures monotone { steps.old ≤ steps.new }
{
    let mut spots = Vec::new(alloc);
    for place in places {
        spots.push(exception_spot(array, *place, steps))?;
    }
    Ok(spots)
}
