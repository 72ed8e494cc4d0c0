//! Measures sorted search: the most comparisons that one search of many makes on each side, beside what it may make.
//!
//! Words: the number of elements and the number of searches; 1000 and 1000 if there are none. It ends with an error at
//! a word that is no number, and where a search doesn't answer the place of its value.
#![tactic(auto)]

ghost use Rattle.std.specs.Prelude.{◌<◌, ◌^◌, IfOk};
ghost use Rattle.std.specs.List.Sorted.{IsNonDecreasing};

use std::alloc::{AllocError, Global};
use std::{env, io};
use vx_base::{CountLedger, Steps};
use vx_search::{SearchResult, SearchSorted, SearchSortedSide, SortedSlice, search_bound};

/// The most elements that are measured.
const LIMIT: u64 = 4294967296;

/// How far apart the values of two searches are, before they are brought into the list's range.
const STRIDE: u64 = 829348951;

/// What is measured.
#[derive(Clone, Copy)]
struct Measure {
    size: u64,
    searches: u64,
}

/// A word as a number.
fn number_of(word: &str) -> io::Result<u64> {
    match word.parse::<u64>() {
        Ok(number) => Ok(number),
        Err(_) => Err(io::Error::other("a word is no number")),
    }
}

/// The words of the command line as a measure.
fn measure_of(rt: &HostRuntime) -> io::Result<Measure> {
    let mut measure = Measure {
        size: 1000,
        searches: 1000,
    };
    for (i, word) in env::args(rt)?.enumerate() {
        match i {
            1 => measure.size = number_of(word.as_str())?,
            2 => measure.searches = number_of(word.as_str())?,
            _ => {}
        }
    }
    Ok(measure)
}

/// The first even numbers.
fn evens(alloc: Global, size: u64) -> Result<Vec<u64>, AllocError>
    requires { size < 2 ^ 32 }
    ensures { IfOk result (λ v. IsNonDecreasing v.items) }
{
    let mut values = Vec::new(alloc);
    for i in 0..size {
        values.push(2 * i)?;
    }
    Ok(values)
}

/// The place of a value among the first `len` even numbers.
fn place_in_evens(len: usize, value: u64, side: SearchSortedSide) -> SearchResult {
    let half = (value / 2) as usize;
    if value % 2 == 1 {
        return SearchResult::NotFound(len.min(half + 1));
    }
    if len <= half {
        return SearchResult::NotFound(len);
    }
    SearchResult::Found(match side {
        SearchSortedSide::Left => half,
        SearchSortedSide::Right => half + 1,
    })
}

/// The comparisons of one search for the value among even numbers, if it answers the place.
fn comparisons(rt: &HostRuntime, values: &[u64], value: u64, side: SearchSortedSide) -> Option<u64>
    requires { IsNonDecreasing values.now }
{
    let mut steps = Steps::new(rt, CountLedger::new());
    let mut seq = SortedSlice::new(values);
    let Ok(place) = seq.search_sorted(&value, side, &mut steps) else {
        return None;
    };
    if place == place_in_evens(values.len(), value, side) {
        Some(steps.ledger().count())
    } else {
        None
    }
}

/// The most comparisons of one search, for values all over the list.
fn greatest(rt: &HostRuntime, values: &[u64], searches: u64, side: SearchSortedSide) -> Option<u64>
    requires { IsNonDecreasing values.now }
{
    let mut most = 0;
    let mut value = 0;
    for _ in 0..searches {
        most = comparisons(rt, values, value, side)?.max(most);
        value = value.wrapping_add(STRIDE) % (2 * values.len() as u64 + 1);
    }
    Some(most)
}

/// Searches on one side, and prints the most comparisons.
fn measured(
    rt: &HostRuntime,
    values: &[u64],
    searches: u64,
    side: SearchSortedSide,
) -> io::Result<()>
    requires { IsNonDecreasing values.now }
{
    match greatest(rt, values, searches, side) {
        Some(most) => println!(rt; "comparisons made at most, {side} {most}"),
        None => Err(io::Error::other("a search missed its place")),
    }
}

fn main(rt: HostRuntime) -> io::Result<()> {
    let measure = measure_of(&rt)?;
    let size = measure.size.min(LIMIT - 1);
    let values = evens(rt.alloc(), size)?;
    println!(rt; "elements {size}")?;
    println!(rt; "searches on each side {}", measure.searches)?;
    println!(rt; "comparisons allowed {}", search_bound(values.len()))?;
    measured(&rt, &values, measure.searches, SearchSortedSide::Left)?;
    measured(&rt, &values, measure.searches, SearchSortedSide::Right)
}
