//! Plans as text, and the rows that they give.
use std::alloc::{AllocError, Global};
use vx_base::Seq;
use vx_chunk_plans::{ChunkFilter, RunsPlan, TakePlan};
use vx_chunks::Boundaries;

/// The first row of a chunk.
fn start_of(boundaries: &Boundaries, chunk: usize) -> usize {
    boundaries.values().get(chunk).copied().unwrap_or(0)
}

/// Adds a number, behind a comma if it isn't the first.
fn push_number(text: &mut String, number: usize) -> Result<(), AllocError> {
    if !text.is_empty() {
        text.push(',')?;
    }
    write!(text, "{number}")
}

fn push_range(text: &mut String, start: usize, end: usize) -> Result<(), AllocError> {
    for row in start..end {
        push_number(text, row)?;
    }
    Ok(())
}

/// Adds the rows that a filter keeps of a chunk from `start` to below `end`.
fn push_kept(
    text: &mut String,
    filter: &ChunkFilter,
    start: usize,
    end: usize,
) -> Result<(), AllocError> {
    match filter {
        ChunkFilter::All => push_range(text, start, end),
        ChunkFilter::None => Ok(()),
        ChunkFilter::Slices(slices) => {
            for (from, to) in slices.as_slice() {
                push_range(text, start.saturating_add(*from), start.saturating_add(*to))?;
            }
            Ok(())
        }
        ChunkFilter::Indices(indices) => {
            for index in indices.as_slice() {
                push_number(text, start.saturating_add(*index))?;
            }
            Ok(())
        }
    }
}

fn filter_text(alloc: Global, filter: &ChunkFilter) -> Result<String, AllocError> {
    match filter {
        ChunkFilter::All => String::from_str(alloc, "all"),
        ChunkFilter::None => String::from_str(alloc, "none"),
        ChunkFilter::Slices(slices) => format!(in alloc; "slices {:?}", slices.as_slice()),
        ChunkFilter::Indices(indices) => format!(in alloc; "indices {:?}", indices.as_slice()),
    }
}

/// The filter of each chunk, and the rows that they keep.
pub(crate) fn filters_text(
    alloc: Global,
    boundaries: &Boundaries,
    filters: &[ChunkFilter],
) -> Result<String, AllocError> {
    let mut text = String::new(alloc);
    let mut rows = String::new(alloc);
    for (chunk, filter) in filters.iter().enumerate() {
        let shown = filter_text(alloc, filter)?;
        text.push_str(shown.as_str())?;
        text.push_str("; ")?;
        let start = start_of(boundaries, chunk);
        let end = start_of(boundaries, chunk.saturating_add(1));
        push_kept(&mut rows, filter, start, end)?;
    }
    text.push_str("rows ")?;
    text.push_str(rows.as_str())?;
    Ok(text)
}

/// The rows of the places of all chunks, end to end.
fn rows_of(
    alloc: Global,
    boundaries: &Boundaries,
    buckets: &[Seq<usize>],
) -> Result<Vec<usize>, AllocError> {
    let mut rows = Vec::new(alloc);
    for (chunk, bucket) in buckets.iter().enumerate() {
        let start = start_of(boundaries, chunk);
        for place in bucket.as_slice() {
            rows.push(start.saturating_add(*place))?;
        }
    }
    Ok(rows)
}

/// Adds the row of an entry of the order, or a dash where it is absent.
fn push_answer(text: &mut String, rows: &[usize], at: Option<usize>) -> Result<(), AllocError> {
    match at.and_then(|at| rows.get(at).copied()) {
        Some(row) => push_number(text, row),
        None => {
            if !text.is_empty() {
                text.push(',')?;
            }
            text.push('-')
        }
    }
}

/// The buckets, the order, and the rows that they give.
pub(crate) fn take_text(
    alloc: Global,
    boundaries: &Boundaries,
    plan: &TakePlan,
) -> Result<String, AllocError> {
    let mut text = String::new(alloc);
    for bucket in plan.buckets.as_slice() {
        write!(text, "{:?}; ", bucket.as_slice())?;
    }
    let rows = rows_of(alloc, boundaries, plan.buckets.as_slice())?;
    let mut answers = String::new(alloc);
    match &plan.order {
        Some(order) => {
            write!(text, "order {:?}, ", order.as_slice())?;
            for at in order.as_slice() {
                push_answer(&mut answers, rows.as_slice(), *at)?;
            }
        }
        None => {
            for row in rows.as_slice() {
                push_number(&mut answers, *row)?;
            }
        }
    }
    write!(text, "rows {answers}")?;
    Ok(text)
}

/// The rows of the runs of all chunks, end to end.
fn rows_of_runs(
    alloc: Global,
    boundaries: &Boundaries,
    pieces: &[Seq<(usize, usize)>],
) -> Result<Vec<usize>, AllocError> {
    let mut rows = Vec::new(alloc);
    for (chunk, piece) in pieces.iter().enumerate() {
        let start = start_of(boundaries, chunk);
        for (place, count) in piece.as_slice() {
            let first = start.saturating_add(*place);
            for row in first..first.saturating_add(*count) {
                rows.push(row)?;
            }
        }
    }
    Ok(rows)
}

/// The runs of each chunk, the order, and the rows that they give.
pub(crate) fn runs_text(
    alloc: Global,
    boundaries: &Boundaries,
    plan: &RunsPlan,
) -> Result<String, AllocError> {
    let mut text = String::new(alloc);
    for piece in plan.pieces.as_slice() {
        write!(text, "{:?}; ", piece.as_slice())?;
    }
    let rows = rows_of_runs(alloc, boundaries, plan.pieces.as_slice())?;
    let mut answers = String::new(alloc);
    match &plan.order {
        Some(order) => {
            write!(text, "order {:?}, ", order.as_slice())?;
            for (start, count) in order.as_slice() {
                for at in *start..start.saturating_add(*count) {
                    push_answer(&mut answers, rows.as_slice(), Some(at))?;
                }
            }
        }
        None => {
            for row in rows.as_slice() {
                push_number(&mut answers, *row)?;
            }
        }
    }
    write!(text, "rows {answers}")?;
    Ok(text)
}
