//! Reads of single rows, all over a column in chunks.
ghost use Rattle.std.specs.Prelude.{IfOk};
ghost use Rattle.vx_column.specs.Columns.{IsSound};

use crate::numbers::{Listed, flat};
use crate::{Measure, Outcome};
use std::alloc::Global;
use vx_base::{CountLedger, Res, Row, Steps, Value};
use vx_column::{ChunkedArray, Column};
use vx_probe::{ArrayProbe, RepeatedArrayProbe};

/// How many chunks the column has.
const CHUNKS: u64 = 1000;

/// The elements in chunks.
fn column(alloc: Global, measure: Measure) -> Res<Column>
    ensures { IfOk result IsSound }
{
    let size = measure.count.div_ceil(CHUNKS);
    let mut chunks = Vec::new(alloc);
    for chunk in 0..CHUNKS {
        let first = size.saturating_mul(chunk).min(measure.count);
        let end = first.saturating_add(size).min(measure.count);
        chunks.push(Column::flat(flat(alloc, measure, Listed::Elements, first..end)?))?;
    }
    let array = ChunkedArray::try_new(alloc, chunks, measure.dtype())?;
    Ok(Column::Chunked(array))
}

/// The number that a row is, or whose text it is.
fn number_of(row: &Row) -> u64 {
    match row {
        Some(Value::Int(number)) => u64::try_from(*number).unwrap_or(0),
        Some(Value::Utf8(text)) => text.as_str().parse::<u64>().unwrap_or(0),
        _ => 0,
    }
}

/// The digest with one more row.
fn with_row(digest: u64, read: u64, row: &Row) -> u64 {
    digest.wrapping_add(number_of(row).wrapping_mul(read.wrapping_add(1)))
}

/// Reads rows all over the column through the probe.
fn kept_digest(
    alloc: Global,
    probe: &mut RepeatedArrayProbe,
    measure: Measure,
    steps: &mut Steps<CountLedger>,
) -> Res<u64> {
    let mut digest = 0u64;
    for read in 0..measure.count {
        let row = probe.execute_scalar(alloc, measure.row_at(read), steps)?;
        digest = with_row(digest, read, &row);
    }
    Ok(digest)
}

/// Reads a row by itself.
fn read_once(
    alloc: Global,
    column: &Column,
    index: usize,
    steps: &mut Steps<CountLedger>,
) -> Res<Row>
    requires { IsSound column.now }
{
    let mut probe = ArrayProbe::once(column);
    probe.execute_scalar(alloc, index, steps)
}

/// Reads rows all over the column, each by itself.
fn single_digest(
    alloc: Global,
    column: &Column,
    measure: Measure,
    steps: &mut Steps<CountLedger>,
) -> Res<u64>
    requires { IsSound column.now }
{
    let mut digest = 0u64;
    for read in 0..measure.count {
        let row = read_once(alloc, column, measure.row_at(read), steps)?;
        digest = with_row(digest, read, &row);
    }
    Ok(digest)
}

/// What the reads gave, of which each read a row.
fn all_read(measure: Measure, digest: u64, asked_reads: u64) -> Outcome {
    Outcome {
        found: measure.count,
        made_reads: 0,
        asked_reads,
        digest,
    }
}

/// Reads so often through one probe.
pub(crate) fn read_kept(rt: &HostRuntime, measure: Measure) -> Res<Outcome> {
    let alloc = rt.alloc();
    let mut probe = RepeatedArrayProbe::new(column(alloc, measure)?);
    for _ in 0..measure.asked {
        let mut steps = Steps::new(rt, CountLedger::new());
        let _digest = kept_digest(alloc, &mut probe, measure, &mut steps)?;
    }
    let mut steps = Steps::new(rt, CountLedger::new());
    let digest = kept_digest(alloc, &mut probe, measure, &mut steps)?;
    Ok(all_read(measure, digest, steps.ledger().count()))
}

/// Reads so often, each row by itself.
pub(crate) fn read_singly(rt: &HostRuntime, measure: Measure) -> Res<Outcome> {
    let alloc = rt.alloc();
    let column = column(alloc, measure)?;
    for _ in 0..measure.asked {
        let mut steps = Steps::new(rt, CountLedger::new());
        let _digest = single_digest(alloc, &column, measure, &mut steps)?;
    }
    let mut steps = Steps::new(rt, CountLedger::new());
    let digest = single_digest(alloc, &column, measure, &mut steps)?;
    Ok(all_read(measure, digest, steps.ledger().count()))
}
