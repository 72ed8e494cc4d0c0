//! Measures lookups: sets of elements, each made and asked about as many needles, beside plain sets, and reads of single rows all
//! over a column in chunks, through a probe that is kept and each by itself.
//!
//! Words: `haystack`, `plain`, `kept` or `single` (sets of rows, plain sets, and the two ways of reads), `dense`, `sparse` or
//! `texts` (integers next to each other, integers all over a large range, and texts), the number of elements, which is also
//! that of needles and of reads, how often a set is made before the time that is told, and how often the needles are asked or
//! the rows are read before that. They are `haystack`, `dense`, 10000, 0 and 0 where there are none. Ends with 2 where a word
//! has no meaning, and with 1 where a lookup is refused.
#![tactic(auto)]

mod haystacks;
mod numbers;
mod plain;
mod probes;

use crate::haystacks::looked_up;
use crate::plain::found_plainly;
use crate::probes::{read_kept, read_singly};
use std::process::ExitCode;
use std::{env, io};
use vx_base::Res;

/// The most elements that are measured.
const LIMIT: u64 = 4294967296;

/// How it is looked up.
#[derive(Clone, Copy)]
enum Way {
    Haystack,
    Plain,
    Kept,
    Single,
}

/// What is looked up.
#[derive(Clone, Copy)]
enum Kind {
    Dense,
    Sparse,
    Texts,
}

/// What is measured.
#[derive(Clone, Copy)]
struct Measure {
    way: Way,
    kind: Kind,
    count: u64,
    made: u64,
    asked: u64,
}

/// How many needles are members or rows are read, what a set counts that is made and asked once, and a number that hangs on each
/// answer and on its place.
#[derive(Clone, Copy)]
struct Outcome {
    found: u64,
    made_reads: u64,
    asked_reads: u64,
    digest: u64,
}

fn way_of(word: &str) -> Option<Way> {
    match word {
        "haystack" => Some(Way::Haystack),
        "plain" => Some(Way::Plain),
        "kept" => Some(Way::Kept),
        "single" => Some(Way::Single),
        _ => None,
    }
}

fn kind_of(word: &str) -> Option<Kind> {
    match word {
        "dense" => Some(Kind::Dense),
        "sparse" => Some(Kind::Sparse),
        "texts" => Some(Kind::Texts),
        _ => None,
    }
}

impl Measure {
    /// Takes a word of the command line; None where it has no meaning at its place.
    fn take_word(&mut self, place: usize, word: &str) -> Option<()> {
        match place {
            1 => self.way = way_of(word)?,
            2 => self.kind = kind_of(word)?,
            3 => self.count = word.parse::<u64>().ok()?.min(LIMIT),
            4 => self.made = word.parse::<u64>().ok()?,
            5 => self.asked = word.parse::<u64>().ok()?,
            _ => return None,
        }
        Some(())
    }
}

/// The words of the command line as a measure; None where a word has no meaning.
fn measure_of(rt: &HostRuntime) -> io::Result<Option<Measure>> {
    let mut measure = Measure {
        way: Way::Haystack,
        kind: Kind::Dense,
        count: 10000,
        made: 0,
        asked: 0,
    };
    for (place, word) in env::args(rt)?.enumerate() {
        if place > 0 && measure.take_word(place, word.as_str()).is_none() {
            return Ok(None);
        }
    }
    Ok(Some(measure))
}

/// What the way that is measured counts and gives.
fn measured(rt: &HostRuntime, measure: Measure) -> Res<Outcome> {
    match measure.way {
        Way::Haystack => looked_up(rt, measure),
        Way::Plain => found_plainly(rt.alloc(), measure),
        Way::Kept => read_kept(rt, measure),
        Way::Single => read_singly(rt, measure),
    }
}

fn main(rt: HostRuntime) -> io::Result<ExitCode> {
    let Some(measure) = measure_of(&rt)? else {
        eprintln!(rt;
            "words: [haystack | plain | kept | single [dense | sparse | texts [COUNT [MADE [ASKED]]]]]"
        )?;
        return Ok(ExitCode::from(2));
    };
    match measured(&rt, measure) {
        Ok(outcome) => {
            println!(rt; "found {}", outcome.found)?;
            println!(rt; "reads making {}", outcome.made_reads)?;
            println!(rt; "reads asking {}", outcome.asked_reads)?;
            println!(rt; "digest {}", outcome.digest)?;
            Ok(ExitCode::SUCCESS)
        }
        Err(_) => Ok(ExitCode::FAILURE),
    }
}
