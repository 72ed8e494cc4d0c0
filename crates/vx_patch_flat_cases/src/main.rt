//! Cases of exceptions that replace rows: what `vx_patch_flat` answers.
//!
//! How a file of cases is written is said in `vx_cases`. A line of what is asked is JSON, in one of three forms:
//!
//! - `{"base":F,"patches":P}`: the rows of the base with the exceptions in them (`flat.rt`);
//! - `{"range":[chunk,offset,len]}`: the rows of a chunk;
//! - `{"chunk":K}`: decoded values with a chunk's exceptions in them (`chunks.rt`).
//!
//! F is a type and rows, as `["u32",[1,5,9]]`, and P is `{"len":n,"offset":n,"indices":F,"values":F,"chunk_offsets":F}`, of
//! which chunk offsets may be `null`.
#![tactic(auto)]

mod chunks;
mod flat;

use serde_json::Value;
use std::io;
use vx_base::{CountLedger, Steps};
use vx_cases::calls::text_of;
use vx_cases::{Answer, Answers, run_cases};

struct FlatCases;

impl Answers for FlatCases {
    fn answers(&self, rt: &HostRuntime, asked: &str) -> io::Result<Vec<Answer>> {
        let mut answers = Vec::new(rt.alloc());
        for line in asked.lines() {
            let Ok(case) = Value::from_str(rt.alloc(), line) else {
                return Err(io::Error::other("a line is no JSON"));
            };
            answers.push(answer_line(rt, &case)?)?;
        }
        Ok(answers)
    }
}

/// The answer to a line, and what it counts.
fn answer_line(rt: &HostRuntime, case: &Value) -> io::Result<Answer> {
    let alloc = rt.alloc();
    let mut steps = Steps::new(rt, CountLedger::new());
    let text = if let Some(range) = case.get("range") {
        chunks::range_text(alloc, range)?
    } else if let Some(chunk) = case.get("chunk") {
        chunks::chunk_text(alloc, chunk)?
    } else {
        text_of(alloc, flat::patched_text(alloc, case, &mut steps)?)?
    };
    Ok(Answer {
        text,
        reads: steps.ledger().count(),
    })
}

fn main(rt: HostRuntime) -> io::Result<()> {
    run_cases(&rt, &FlatCases)
}
