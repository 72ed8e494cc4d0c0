//! Which of several lists have a spot.
ghost use Rattle.std.specs.Prelude.{◌≡◌, ◌<◌, All, IfOk, IsOkUnless, length, map, get_or};
ghost use Rattle.std.specs.List.{Contains, range_with_len};
ghost use Rattle.std.specs.List.Sorted.{IsStrictlyIncreasing};
ghost use Rattle.vx_select.specs.Spots.{AreBelow, AreTouched, Spot, named_by};

use std::alloc::Global;
use vx_base::{ColumnError, Res};

/// The numbers of lists that hold all spots, and the spots with the places of their lists among these. All `count` lists
/// where there are as many spots, and else only those that have one, so that few spots in many lists stay few.
pub(crate) fn touched(
    alloc: Global,
    spots: Vec<(usize, usize)>,
    count: usize,
) -> Res<(Vec<usize>, Vec<(usize, usize)>)>
    requires { All (λ (s : Spot). s.0 < count) spots.items }
    ensures ok { IfOk result (λ p. AreTouched count spots.items p.0.items p.1.items) }
    ensures err { IsOkUnless result ColumnError.OutOfMemory }
{
    if count <= spots.len() {
        let numbers = numbers_below(alloc, count)?;
        return Ok((numbers, spots));
    }
    let numbers = lists_of(alloc, spots.as_slice())?;
    let among = spots_among(alloc, spots.as_slice(), numbers.as_slice())?;
    Ok((numbers, among))
}

/// 0 to below the number.
fn numbers_below(alloc: Global, count: usize) -> Res<Vec<usize>>
    ensures ok { IfOk result (λ numbers. numbers.items ≡ range_with_len 0 count) }
    ensures err { IsOkUnless result ColumnError.OutOfMemory }
{
    let mut numbers = Vec::new(alloc);
    for number in 0..count {
        numbers.push(number)?;
    }
    Ok(numbers)
}

/// The lists of the spots, each once, in order.
fn lists_of(alloc: Global, spots: &[(usize, usize)]) -> Res<Vec<usize>>
    ensures rising { IfOk result (λ numbers. IsStrictlyIncreasing numbers.items) }
    ensures each { IfOk result (λ numbers. All (λ (s : Spot). Contains numbers.items s.0) spots.now) }
    ensures own { IfOk result (λ numbers. All (Contains (map (λ (s : Spot). s.0) spots.now)) numbers.items) }
    ensures err { IsOkUnless result ColumnError.OutOfMemory }
{
    let mut numbers = all_lists(alloc, spots)?;
    numbers.sort()?;
    numbers.dedup();
    Ok(numbers)
}

/// The list of each spot.
fn all_lists(alloc: Global, spots: &[(usize, usize)]) -> Res<Vec<usize>>
    ensures ok { IfOk result (λ numbers. numbers.items ≡ map (λ (s : Spot). s.0) spots.now) }
    ensures err { IsOkUnless result ColumnError.OutOfMemory }
{
    let mut numbers = Vec::new(alloc);
    for spot in spots {
        numbers.push(spot.0)?;
    }
    Ok(numbers)
}

/// The spots with the places of their lists among the numbers.
fn spots_among(
    alloc: Global,
    spots: &[(usize, usize)],
    numbers: &[usize],
) -> Res<Vec<(usize, usize)>>
    requires rising { IsStrictlyIncreasing numbers.now }
    requires each { All (λ (s : Spot). Contains numbers.now s.0) spots.now }
    ensures there { IfOk result (λ among. All (λ (s : Spot). s.0 < length numbers.now) among.items) }
    ensures same { IfOk result (λ among. map (named_by numbers.now) among.items ≡ spots.now) }
    ensures err { IsOkUnless result ColumnError.OutOfMemory }
{
    let mut among = Vec::new(alloc);
    for spot in spots {
        among.push((place_of(numbers, spot.0), spot.1))?;
    }
    Ok(among)
}

/// Where a number stands.
fn place_of(numbers: &[usize], number: usize) -> usize
    requires rising { IsStrictlyIncreasing numbers.now }
    requires listed { Contains numbers.now number }
    ensures inside { result < length numbers.now }
    ensures at { get_or numbers.now result 0 ≡ number }
{
    match numbers.binary_search(&number) {
        Ok(place) => place,
        Err(_) => unreachable!(),
    }
}
