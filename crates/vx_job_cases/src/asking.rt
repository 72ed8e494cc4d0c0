//! Jobs, and how their runs end.
use std::alloc::{AllocError, Global};
use std::{io, str};
use vx_base::{CountLedger, Seq, Steps};
use vx_cases::Answer;
use vx_tool::{Status, SureSink, SureSource, run_job};

/// The words of a line, between single spaces.
pub(crate) fn words_of(alloc: Global, line: &str) -> Result<Vec<String>, AllocError> {
    let mut words = Vec::new(alloc);
    for word in line.split(' ') {
        words.push(String::from_str(alloc, word)?)?;
    }
    Ok(words)
}

fn spaces(alloc: Global, count: usize) -> Result<Vec<u8>, AllocError> {
    vec![in alloc; b' '; count]
}

/// A job of one part of chunks of so many rows each, row i being i, with this plan.
fn ramp(alloc: Global, chunks: usize, rows: usize, plan: &str) -> Result<String, AllocError> {
    let mut job = String::from_str(alloc, "{\"parts\":[{\"chunked\":\"i32\",\"chunks\":[")?;
    let mut next = 0usize;
    for chunk in 0..chunks {
        job.push_str(if chunk == 0 { "" } else { "]}," })?;
        job.push_str("{\"flat\":\"i32\",\"rows\":[")?;
        push_numbers(&mut job, next, rows)?;
        next = next.saturating_add(rows);
    }
    job.push_str(if chunks == 0 { "" } else { "]}" })?;
    job.push_str("]}],\"plan\":")?;
    job.push_str(plan)?;
    job.push('}')?;
    Ok(job)
}

/// Writes so many numbers from the first on, with commas between them.
fn push_numbers(text: &mut String, first: usize, count: usize) -> Result<(), AllocError> {
    for at in 0..count {
        text.push_str(if at == 0 { "" } else { "," })?;
        write!(text, "{}", first.saturating_add(at))?;
    }
    Ok(())
}

/// The job that a line behind `ramp` says.
fn ramp_of(alloc: Global, line: &str) -> io::Result<Vec<u8>> {
    let mut words = line.splitn(3, ' ');
    let (Some(chunks), Some(rows), Some(plan)) = (words.next(), words.next(), words.next()) else {
        return Err(io::Error::other("a ramp has two numbers and a plan"));
    };
    match (chunks.parse::<usize>(), rows.parse::<usize>()) {
        (Ok(chunks), Ok(rows)) => Ok(ramp(alloc, chunks, rows, plan)?.into_bytes()),
        _ => Err(io::Error::other("a count is no number")),
    }
}

/// The bytes of the job that a line says.
pub(crate) fn job_of(alloc: Global, line: &str) -> io::Result<Vec<u8>> {
    if let Some(line) = line.strip_prefix("ramp ") {
        return ramp_of(alloc, line);
    }
    if let Some(count) = line.strip_prefix("spaces ") {
        return match count.parse::<usize>() {
            Ok(count) => Ok(spaces(alloc, count)?),
            Err(_) => Err(io::Error::other("a count is no number")),
        };
    }
    match line.strip_prefix("hex ") {
        Some(digits) => hex::decode(alloc, digits).map_err(|_| io::Error::other("no hex digits")),
        None => Ok(Vec::from_slice(alloc, line.as_bytes())?),
    }
}

/// What the job is answered, from bytes in memory to bytes in memory.
pub(crate) fn answer(
    rt: &HostRuntime,
    words: &[String],
    job: Vec<u8>,
) -> Result<Answer, AllocError> {
    let alloc = rt.alloc();
    let mut source = SureSource::new(Seq::from_vec(job));
    let mut sink = SureSink::new(alloc);
    let mut steps = Steps::new(rt, CountLedger::new());
    let status = run_job(alloc, words, &mut source, &mut sink, &mut steps);
    Ok(Answer {
        text: text_of(alloc, status, sink.held())?,
        reads: steps.ledger().count(),
    })
}

/// The status's number, and the line that was written.
fn text_of(alloc: Global, status: Status, written: &[u8]) -> Result<String, AllocError> {
    let code = status.code();
    let Ok(text) = str::from_utf8(written) else {
        return format!(in alloc; "{code} no text");
    };
    match text.strip_suffix('\n') {
        Some(line) => format!(in alloc; "{code} {line}"),
        None if text.is_empty() => format!(in alloc; "{code}"),
        None => format!(in alloc; "{code} without a line feed: {text}"),
    }
}
