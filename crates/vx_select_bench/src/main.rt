//! Measures selections of columns: what a filter, a take or runs of many rows count, for each layout, and beside them a plain
//! gather.
//!
//! Words: `flat`, `chunked`, `excepted`, `lanes`, `interleaved` or `plain` (columns, and a list of numbers), `filter`, `take`,
//! `shuffled` or `runs` (rows all over the column, the same by their numbers, as many in no order, and the first rows of each
//! hundred), the number of rows, how many of 100 are selected, and how often that is done before the time that is told. They
//! are `flat`, `filter`, 10000, 50 and 0 where there are none. Ends with 2 where a word has no meaning, and with 1 where a
//! selection is refused.
#![tactic(auto)]

mod columns;
mod gathers;
mod selections;

use crate::columns::column;
use crate::gathers::gathered;
use crate::selections::{filtered, runs_joined, taken};
use std::process::ExitCode;
use std::{env, io};
use vx_base::Res;

/// The most rows that are measured.
const LIMIT: u64 = 4294967296;

/// What is selected from.
#[derive(Clone, Copy)]
enum Layout {
    Flat,
    Chunked,
    Excepted,
    Lanes,
    Interleaved,
    Plain,
}

/// How it is selected.
#[derive(Clone, Copy)]
enum Way {
    Filter,
    Take,
    Shuffled,
    Runs,
}

/// What is measured.
#[derive(Clone, Copy)]
struct Measure {
    layout: Layout,
    way: Way,
    rows: u64,
    per_hundred: u64,
    times: u64,
}

/// What one selection counts, how many rows it gives, and a number that hangs on each of them and on their order.
#[derive(Clone, Copy)]
struct Outcome {
    reads: u64,
    rows: usize,
    digest: u64,
}

fn layout_of(word: &str) -> Option<Layout> {
    match word {
        "flat" => Some(Layout::Flat),
        "chunked" => Some(Layout::Chunked),
        "excepted" => Some(Layout::Excepted),
        "lanes" => Some(Layout::Lanes),
        "interleaved" => Some(Layout::Interleaved),
        "plain" => Some(Layout::Plain),
        _ => None,
    }
}

fn way_of(word: &str) -> Option<Way> {
    match word {
        "filter" => Some(Way::Filter),
        "take" => Some(Way::Take),
        "shuffled" => Some(Way::Shuffled),
        "runs" => Some(Way::Runs),
        _ => None,
    }
}

impl Measure {
    /// Takes a word of the command line; None where it has no meaning at its place.
    fn take_word(&mut self, place: usize, word: &str) -> Option<()> {
        match place {
            1 => self.layout = layout_of(word)?,
            2 => self.way = way_of(word)?,
            3 => self.rows = word.parse::<u64>().ok()?.min(LIMIT),
            4 => self.per_hundred = word.parse::<u64>().ok()?.min(100),
            5 => self.times = word.parse::<u64>().ok()?,
            _ => return None,
        }
        Some(())
    }
}

/// The words of the command line as a measure; None where a word has no meaning.
fn measure_of(rt: &HostRuntime) -> io::Result<Option<Measure>> {
    let mut measure = Measure {
        layout: Layout::Flat,
        way: Way::Filter,
        rows: 10000,
        per_hundred: 50,
        times: 0,
    };
    for (place, word) in env::args(rt)?.enumerate() {
        if place > 0 && measure.take_word(place, word.as_str()).is_none() {
            return Ok(None);
        }
    }
    Ok(Some(measure))
}

/// What the way that is measured counts and gives.
fn measured(rt: &HostRuntime, measure: Measure) -> Res<Outcome> {
    if let Layout::Plain = measure.layout {
        return gathered(rt.alloc(), measure);
    }
    let column = column(rt, measure)?;
    match measure.way {
        Way::Filter => filtered(rt, &column, measure),
        Way::Take | Way::Shuffled => taken(rt, &column, measure),
        Way::Runs => runs_joined(rt, &column, measure),
    }
}

fn main(rt: HostRuntime) -> io::Result<ExitCode> {
    let Some(measure) = measure_of(&rt)? else {
        eprintln!(rt;
            "words: [flat | chunked | excepted | lanes | interleaved | plain [filter | take | shuffled | runs [ROWS [PER_HUNDRED [TIMES]]]]]"
        )?;
        return Ok(ExitCode::from(2));
    };
    match measured(&rt, measure) {
        Ok(outcome) => {
            println!(rt; "rows selected {}", outcome.rows)?;
            println!(rt; "reads counted {}", outcome.reads)?;
            println!(rt; "digest {}", outcome.digest)?;
            Ok(ExitCode::SUCCESS)
        }
        Err(_) => Ok(ExitCode::FAILURE),
    }
}
