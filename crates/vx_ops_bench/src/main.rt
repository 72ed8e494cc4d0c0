//! Measures calls on each row of columns: what masking, choosing, filling, casting and comparing count, for rows in one piece and
//! in chunks, and beside them plain loops over the same rows.
//!
//! Words: `flat`, `chunked` or `plain` (columns, and a list of optional numbers), `mask`, `zip`, `fill`, `cast` or `compare`, the
//! number of rows, and how often that is done before the time that is told. They are `flat`, `mask`, 10000 and 0 where there are
//! none. Ends with 2 where a word has no meaning, and with 1 where a call is refused.
#![tactic(auto)]

mod columns;
mod digests;
mod done;
mod loops;
mod rows;

use std::process::ExitCode;
use std::{env, io};
use vx_base::Res;

/// The most rows that are measured.
const LIMIT: u64 = 2147483647;

/// What stands for the rows.
#[derive(Clone, Copy)]
enum Layout {
    Flat,
    Chunked,
    Plain,
}

/// What is done to them.
#[derive(Clone, Copy)]
enum Way {
    Mask,
    Zip,
    Fill,
    Cast,
    Compare,
}

/// What is measured.
#[derive(Clone, Copy)]
struct Measure {
    layout: Layout,
    way: Way,
    rows: u64,
    times: u64,
}

/// What one call counts, how many rows it gives, and a number that hangs on each of them and on their order.
#[derive(Clone, Copy)]
struct Outcome {
    reads: u64,
    rows: usize,
    digest: u64,
}

fn layout_of(word: &str) -> Option<Layout> {
    match word {
        "flat" => Some(Layout::Flat),
        "chunked" => Some(Layout::Chunked),
        "plain" => Some(Layout::Plain),
        _ => None,
    }
}

fn way_of(word: &str) -> Option<Way> {
    match word {
        "mask" => Some(Way::Mask),
        "zip" => Some(Way::Zip),
        "fill" => Some(Way::Fill),
        "cast" => Some(Way::Cast),
        "compare" => Some(Way::Compare),
        _ => None,
    }
}

impl Measure {
    /// Takes a word of the command line; None where it has no meaning at its place.
    fn take_word(&mut self, place: usize, word: &str) -> Option<()> {
        match place {
            1 => self.layout = layout_of(word)?,
            2 => self.way = way_of(word)?,
            3 => self.rows = word.parse::<u64>().ok()?.min(LIMIT),
            4 => self.times = word.parse::<u64>().ok()?,
            _ => return None,
        }
        Some(())
    }
}

/// The words of the command line as a measure; None where a word has no meaning.
fn measure_of(rt: &HostRuntime) -> io::Result<Option<Measure>> {
    let mut measure = Measure {
        layout: Layout::Flat,
        way: Way::Mask,
        rows: 10000,
        times: 0,
    };
    for (place, word) in env::args(rt)?.enumerate() {
        if place > 0 && measure.take_word(place, word.as_str()).is_none() {
            return Ok(None);
        }
    }
    Ok(Some(measure))
}

/// What the way that is measured counts and gives.
fn measured(rt: &HostRuntime, measure: Measure) -> Res<Outcome> {
    match measure.layout {
        Layout::Plain => loops::measured(rt.alloc(), measure),
        Layout::Flat | Layout::Chunked => done::measured(rt, measure),
    }
}

fn main(rt: HostRuntime) -> io::Result<ExitCode> {
    let Some(measure) = measure_of(&rt)? else {
        eprintln!(rt;
            "words: [flat | chunked | plain [mask | zip | fill | cast | compare [ROWS [TIMES]]]]"
        )?;
        return Ok(ExitCode::from(2));
    };
    match measured(&rt, measure) {
        Ok(outcome) => {
            println!(rt; "rows {}", outcome.rows)?;
            println!(rt; "reads counted {}", outcome.reads)?;
            println!(rt; "digest {}", outcome.digest)?;
            Ok(ExitCode::SUCCESS)
        }
        Err(_) => Ok(ExitCode::FAILURE),
    }
}
