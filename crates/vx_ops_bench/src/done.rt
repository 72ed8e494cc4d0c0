//! Calls on columns, each done so often.
ghost use Rattle.std.specs.Prelude.{IfOk};
ghost use Rattle.vx_column.specs.Columns.{IsSound};

use crate::columns::{column, dtype};
use crate::digests::{codes_of, digest_of};
use crate::rows::{FILLING, kept, middle};
use crate::{Measure, Outcome, Way};
use std::alloc::Global;
use vx_base::{ColumnError, CountLedger, Ledger, NoLedger, PType, Res, Steps, Value};
use vx_column::Column;
use vx_ops::{cast, compare, fill, mask, zip};
use vx_scalars::{CompareOperator, Scalar};

fn scalar(alloc: Global, number: i64) -> Res<Scalar> {
    Scalar::try_new(alloc, dtype(PType::I64), Some(Value::Int(number as i128)))
}

fn filled<L: Ledger>(alloc: Global, rows: &Column, steps: &mut Steps<L>) -> Res<Column>
    requires { IsSound rows.now }
    ensures { IfOk result IsSound }
{
    let value = scalar(alloc, FILLING)?;
    if rows.dtype().is_nested() {
        return Err(ColumnError::MismatchedTypes);
    }
    let filled = fill(alloc, rows, &value, steps)?;
    Ok(filled)
}

fn compared<L: Ledger>(
    alloc: Global,
    rows: &Column,
    measure: Measure,
    steps: &mut Steps<L>,
) -> Res<Column>
    requires { IsSound rows.now }
    ensures { IfOk result IsSound }
{
    let value = scalar(alloc, middle(measure.rows))?;
    if rows.dtype().is_nested() {
        return Err(ColumnError::MismatchedTypes);
    }
    let truths = compare(alloc, rows, CompareOperator::Lt, &value, steps)?;
    Ok(truths)
}

fn masked<L: Ledger>(
    alloc: Global,
    rows: &Column,
    bits: &[bool],
    steps: &mut Steps<L>,
) -> Res<Column>
    requires { IsSound rows.now }
    ensures { IfOk result IsSound }
{
    let masked = mask(alloc, rows, bits, steps)?;
    Ok(masked)
}

fn zipped<L: Ledger>(
    alloc: Global,
    rows: &Column,
    others: &Column,
    bits: &[bool],
    steps: &mut Steps<L>,
) -> Res<Column>
    requires rows { IsSound rows.now }
    requires others { IsSound others.now }
    ensures { IfOk result IsSound }
{
    let zipped = zip(alloc, rows, others, bits, steps)?;
    Ok(zipped)
}

fn narrowed<L: Ledger>(alloc: Global, rows: &Column, steps: &mut Steps<L>) -> Res<Column>
    requires { IsSound rows.now }
    ensures { IfOk result IsSound }
{
    let narrowed = cast(alloc, rows, &dtype(PType::I32), steps)?;
    Ok(narrowed)
}

/// What the call gives that is measured.
fn done<L: Ledger>(
    alloc: Global,
    rows: &Column,
    others: &Column,
    bits: &[bool],
    measure: Measure,
    steps: &mut Steps<L>,
) -> Res<Column>
    requires rows { IsSound rows.now }
    requires others { IsSound others.now }
    ensures { IfOk result IsSound }
{
    match measure.way {
        Way::Mask => masked(alloc, rows, bits, steps),
        Way::Zip => zipped(alloc, rows, others, bits, steps),
        Way::Fill => filled(alloc, rows, steps),
        Way::Cast => narrowed(alloc, rows, steps),
        Way::Compare => compared(alloc, rows, measure, steps),
    }
}

/// What a call gave that counted so many reads.
fn told(rt: &HostRuntime, rows: &Column, reads: u64) -> Res<Outcome>
    requires { IsSound rows.now }
{
    let rows = rows.to_buffer(rt.alloc(), &mut Steps::new(rt, NoLedger::new()))?;
    let codes = codes_of(rt.alloc(), &rows)?;
    Ok(Outcome {
        reads,
        rows: codes.len(),
        digest: digest_of(codes.as_slice()),
    })
}

/// Does it so often to the column, and to it and the one that starts a row later where there are two.
pub(crate) fn measured(rt: &HostRuntime, measure: Measure) -> Res<Outcome> {
    let alloc = rt.alloc();
    let rows = column(alloc, measure, 0)?;
    let others = column(alloc, measure, 1)?;
    let bits = kept(alloc, measure.rows)?;
    for _ in 0..measure.times {
        let mut steps = Steps::new(rt, CountLedger::new());
        let _done = done(alloc, &rows, &others, bits.as_slice(), measure, &mut steps)?;
    }
    let mut steps = Steps::new(rt, CountLedger::new());
    let done = done(alloc, &rows, &others, bits.as_slice(), measure, &mut steps)?;
    told(rt, &done, steps.ledger().count())
}
