//! Measures selections of exceptions: what a filter or a take of many rows counts, beside what it may count.
//!
//! Words: `filter`, `cached`, `search` or `map` (a filter by a mask, by a mask with its indices at hand, a take by searches,
//! a take by a map), the number of rows, how many rows have one exception, how many of 100 rows are kept or named, and how
//! often it is done. They are `filter`, 10000, 10, 50 and 1 where there are none. Ends with 2 where a word has no meaning, and
//! with 1 where a selection is refused.
#![tactic(auto)]

mod making;

use crate::making::{integers, mask, patches, rows_taken};
use std::process::ExitCode;
use std::{env, io};
use vx_base::{CountLedger, FlatColumn, Res, Steps};
use vx_bulk::PrimitiveArray;
use vx_masks::Mask;
use vx_patch_select::SelectPatches;
use vx_patches::Patches;
use vx_search::search_bound;

/// The most rows that are measured.
const LIMIT: u64 = 4294967296;

/// What is done.
#[derive(Clone, Copy)]
enum Way {
    Filter,
    Cached,
    Search,
    Map,
}

/// What is measured.
#[derive(Clone, Copy)]
struct Measure {
    way: Way,
    rows: u64,
    every: u64,
    per_hundred: u64,
    times: u64,
}

fn way_of(word: &str) -> Option<Way> {
    match word {
        "filter" => Some(Way::Filter),
        "cached" => Some(Way::Cached),
        "search" => Some(Way::Search),
        "map" => Some(Way::Map),
        _ => None,
    }
}

impl Measure {
    /// Takes a word of the command line, and answers whether it has a meaning at its place.
    fn take_word(&mut self, place: usize, word: &str) -> bool {
        if place == 1 {
            return match way_of(word) {
                Some(way) => {
                    self.way = way;
                    true
                }
                None => false,
            };
        }
        let Ok(number) = word.parse::<u64>() else {
            return false;
        };
        match place {
            2 => self.rows = number.min(LIMIT),
            3 => self.every = number.max(1),
            4 => self.per_hundred = number,
            5 => self.times = number,
            _ => return false,
        }
        true
    }
}

/// The words of the command line as a measure; None where a word has no meaning.
fn measure_of(rt: &HostRuntime) -> io::Result<Option<Measure>> {
    let mut measure = Measure {
        way: Way::Filter,
        rows: 10000,
        every: 10,
        per_hundred: 50,
        times: 1,
    };
    for (place, word) in env::args(rt)?.enumerate() {
        if place > 0 && !measure.take_word(place, word.as_str()) {
            return Ok(None);
        }
    }
    Ok(Some(measure))
}

/// How many exceptions are left.
fn left_in(left: &Option<Patches>) -> usize {
    match left {
        Some(patches) => patches.num_patches(),
        None => 0,
    }
}

/// What one selection counts, and how many exceptions it leaves.
#[derive(Clone, Copy)]
struct Outcome {
    reads: u64,
    left: usize,
}

fn filter_once(rt: &HostRuntime, patches: &Patches, mask: &Mask) -> Res<Outcome> {
    let mut steps = Steps::new(rt, CountLedger::new());
    let left = patches.filter(rt.alloc(), mask, &mut steps)?;
    Ok(Outcome {
        reads: steps.ledger().count(),
        left: left_in(&left),
    })
}

/// Filters so often by a mask, and answers what the last time counted.
fn filters(rt: &HostRuntime, measure: Measure, mask: &Mask) -> Res<Outcome> {
    let patches = patches(rt.alloc(), measure)?;
    let mut outcome = Outcome { reads: 0, left: 0 };
    for _ in 0..measure.times {
        outcome = filter_once(rt, &patches, mask)?;
    }
    Ok(outcome)
}

fn take_once(
    rt: &HostRuntime,
    patches: &Patches,
    indices: PrimitiveArray,
    way: Way,
) -> Res<Outcome> {
    let mut steps = Steps::new(rt, CountLedger::new());
    let left = match way {
        Way::Map => patches.take_map(rt.alloc(), indices, false, &mut steps)?,
        _ => patches.take_search(rt.alloc(), indices, false, &mut steps)?,
    };
    Ok(Outcome {
        reads: steps.ledger().count(),
        left: left_in(&left),
    })
}

/// Takes so often the rows of the indices, and answers what the last time counted.
fn takes(rt: &HostRuntime, measure: Measure, indices: &FlatColumn) -> Res<Outcome> {
    let patches = patches(rt.alloc(), measure)?;
    let mut outcome = Outcome { reads: 0, left: 0 };
    for _ in 0..measure.times {
        outcome = take_once(rt, &patches, integers(indices.share()?)?, measure.way)?;
    }
    Ok(outcome)
}

/// What the way that is measured counts.
fn measured(rt: &HostRuntime, measure: Measure) -> Res<Outcome> {
    let alloc = rt.alloc();
    match measure.way {
        Way::Filter => filters(rt, measure, &mask(alloc, measure)?),
        Way::Cached => filters(
            rt,
            measure,
            &mask(alloc, measure)?.with_cached_indices(alloc)?,
        ),
        Way::Search | Way::Map => takes(rt, measure, &rows_taken(alloc, measure)?),
    }
}

/// The most that a selection of so many rows may count.
fn allowed(measure: Measure) -> u64 {
    let patches = measure.rows.div_ceil(measure.every.max(1));
    let chosen = measure.rows.saturating_mul(measure.per_hundred) / 100;
    let search = search_bound(patches as usize);
    match measure.way {
        Way::Filter | Way::Cached => chosen.saturating_mul(search.saturating_add(4)),
        Way::Search | Way::Map => chosen.saturating_mul(search.saturating_mul(2)),
    }
}

fn main(rt: HostRuntime) -> io::Result<ExitCode> {
    let Some(measure) = measure_of(&rt)? else {
        eprintln!(rt;
            "words: [filter | cached | search | map [ROWS [EVERY [PER_HUNDRED [TIMES]]]]]"
        )?;
        return Ok(ExitCode::from(2));
    };
    match measured(&rt, measure) {
        Ok(outcome) => {
            println!(rt; "exceptions left {}", outcome.left)?;
            println!(rt; "reads counted {}", outcome.reads)?;
            println!(rt; "reads allowed {}", allowed(measure))?;
            Ok(ExitCode::SUCCESS)
        }
        Err(_) => Ok(ExitCode::FAILURE),
    }
}
