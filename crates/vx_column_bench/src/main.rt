//! Measures reads of exceptions: what one read of many counts, at most and on average, beside what it may count.
//!
//! Words: the number of rows, how many rows have one exception, the number of reads, and `with`, `without` or `both`:
//! which columns are read, the one with chunk offsets or the one without. They are 10000, 10, 1000 and `both` where there
//! are none. Ends with 2 where a word has no meaning, and with 1 where a column can't be made or a row is wrong.
#![tactic(auto)]

ghost use Rattle.std.specs.Prelude.{IfOk};
ghost use Rattle.vx_column.specs.Columns.{IsSound};

use std::alloc::Global;
use std::process::ExitCode;
use std::{env, io};
use vx_base::{
    CountLedger, DType, FlatColumn, NoLedger, Nullability, PType, Res, Row, Seq, Steps, Value,
};
use vx_column::Column;
use vx_job::{Boxed, Part};
use vx_plan::open::open_part;
use vx_probe::ArrayProbe;

/// The most rows that are measured.
const LIMIT: u64 = 4294967296;

/// How many rows have one chunk offset.
const CHUNK: u64 = 1024;

/// How far apart the rows of two reads are, before they are brought into the column's range.
const STRIDE: usize = 829348951;

/// What is measured.
#[derive(Clone, Copy)]
struct Measure {
    rows: u64,
    every: u64,
    reads: u64,
    has_with: bool,
    has_without: bool,
}

impl Measure {
    /// Takes a word of the command line, and answers whether it has a meaning at its place.
    fn take_word(&mut self, place: usize, word: &str) -> bool {
        if place == 4 {
            self.has_with = word == "with" || word == "both";
            self.has_without = word == "without" || word == "both";
            return self.has_with || self.has_without;
        }
        let Ok(number) = word.parse::<u64>() else {
            return false;
        };
        match place {
            1 => self.rows = number.min(LIMIT),
            2 => self.every = number.max(1),
            3 => self.reads = number,
            _ => return false,
        }
        true
    }
}

/// The words of the command line as a measure; None where a word has no meaning.
fn measure_of(rt: &HostRuntime) -> io::Result<Option<Measure>> {
    let mut measure = Measure {
        rows: 10000,
        every: 10,
        reads: 1000,
        has_with: true,
        has_without: true,
    };
    for (place, word) in env::args(rt)?.enumerate() {
        if place > 0 && !measure.take_word(place, word.as_str()) {
            return Ok(None);
        }
    }
    Ok(Some(measure))
}

fn column_of(alloc: Global, rows: Seq<Row>) -> Res<FlatColumn> {
    let dtype = DType::Primitive(PType::U64, Nullability::NonNullable);
    FlatColumn::try_new(alloc, dtype, rows)
}

/// The multiples of `step` below `end`, each with `more` added. A step of 0 is 1.
fn multiples(alloc: Global, end: u64, step: u64, more: u64) -> Res<FlatColumn> {
    let step = step.max(1);
    let mut rows = Seq::new(alloc);
    for number in 0..end {
        if number % step == 0 {
            rows.push(Some(Value::Int(number as i128 + more as i128)))?;
        }
    }
    column_of(alloc, rows)
}

/// For each chunk how many exceptions are before it.
fn chunk_offsets(alloc: Global, measure: Measure) -> Res<FlatColumn> {
    let every = measure.every.max(1);
    let mut counts = Seq::new(alloc);
    for row in 0..measure.rows {
        if row % CHUNK == 0 {
            counts.push(Some(Value::Int(row.div_ceil(every) as i128)))?;
        }
    }
    column_of(alloc, counts)
}

/// Row i is i, but i + 1 where it has an exception.
fn column(rt: &HostRuntime, measure: Measure, is_chunked: bool) -> Res<Column>
    ensures { IfOk result (λ column. IsSound column) }
{
    let alloc = rt.alloc();
    let base = Part::Flat(multiples(alloc, measure.rows, 1, 0)?);
    let values = Part::Flat(multiples(alloc, measure.rows, measure.every, 1)?);
    let chunk_offsets = if is_chunked {
        Some(chunk_offsets(alloc, measure)?)
    } else {
        None
    };
    let part = Part::Excepted {
        base: Boxed::new(alloc, base)?,
        offset: 0,
        indices: multiples(alloc, measure.rows, measure.every, 0)?,
        values: Boxed::new(alloc, values)?,
        chunk_offsets,
    };
    open_part(alloc, &part, &mut Steps::new(rt, NoLedger::new()))
}

/// What a row must be.
fn number_of(row: usize, every: u64) -> i128 {
    if row as u64 % every.max(1) == 0 {
        return row as i128 + 1;
    }
    row as i128
}

/// What a read of the row counts; None where it isn't this number.
fn counted(rt: &HostRuntime, column: &Column, row: usize, number: i128) -> Option<u64>
    requires { IsSound column.now }
{
    let mut steps = Steps::new(rt, CountLedger::new());
    let mut probe = ArrayProbe::once(column);
    let read = probe.execute_scalar(rt.alloc(), row, &mut steps);
    match &read {
        Ok(Some(Value::Int(found))) if *found == number => Some(steps.ledger().count()),
        _ => None,
    }
}

/// What many reads count: the most that one counts, and what all count.
#[derive(Clone, Copy)]
struct Counts {
    greatest: u64,
    total: u64,
}

/// What reads count, of rows all over the column; None where a row is wrong.
fn read_all(rt: &HostRuntime, column: &Column, measure: Measure) -> Option<Counts>
    requires { IsSound column.now }
{
    let len = column.len();
    if len == 0 {
        return None;
    }
    let mut greatest = 0;
    let mut total: u64 = 0;
    let mut row = 0;
    for _ in 0..measure.reads {
        let count = counted(rt, column, row, number_of(row, measure.every))?;
        greatest = count.max(greatest);
        total = total.saturating_add(count);
        row = row.wrapping_add(STRIDE) % len;
    }
    Some(Counts { greatest, total })
}

/// Prints what is measured of one column, and answers whether it could be made and each row was right.
fn measured(rt: &HostRuntime, measure: Measure, is_chunked: bool) -> io::Result<bool> {
    let Ok(column) = column(rt, measure, is_chunked) else {
        println!(rt; "no column")?;
        return Ok(false);
    };
    let Some(counts) = read_all(rt, &column, measure) else {
        println!(rt; "a wrong row")?;
        return Ok(false);
    };
    let hundredths = counts.total.saturating_mul(100) / measure.reads.max(1);
    let offsets = if is_chunked { "with" } else { "without" };
    println!(rt; "{offsets} chunk offsets")?;
    println!(rt; "counted allowed {}", column.point_cost())?;
    println!(rt; "counted at most {}", counts.greatest)?;
    println!(rt; "counted in all {}", counts.total)?;
    println!(rt;
        "counted on average {}.{:02}",
        hundredths / 100,
        hundredths % 100
    )?;
    Ok(true)
}

fn main(rt: HostRuntime) -> io::Result<ExitCode> {
    let Some(measure) = measure_of(&rt)? else {
        eprintln!(rt; "words: [ROWS [EVERY [READS [with | without | both]]]]")?;
        return Ok(ExitCode::from(2));
    };
    println!(rt; "rows {}", measure.rows)?;
    println!(rt; "reads {}", measure.reads)?;
    let is_right = (!measure.has_without || measured(&rt, measure, false)?)
        && (!measure.has_with || measured(&rt, measure, true)?);
    Ok(if is_right {
        ExitCode::SUCCESS
    } else {
        ExitCode::FAILURE
    })
}
