//! Runs cases of chunks: what `vx_chunks` answers to calls on lengths, types and numbers of chunks, and how many reads each
//! call counts.
//!
//! A line of a case is `{"chunks":[n,..],"calls":[CALL,..]}`, the calls of `chunks.rt` on chunks of these lengths;
//! `{"types":[TYPE,..],"calls":[["validate",TYPE]]}`, on the types of chunks; or `{"nchunks":n,"calls":[CALL,..]}`, the calls
//! of `data.rt` on a number of chunks. Types are those of `vx_cases`. Each call has an answer; chunks that are too long
//! have one, the refusal.
#![tactic(auto)]

mod chunks;
mod data;
mod types;

use crate::chunks::chunks_of;
use crate::data::Data;
use crate::types::types_of;
use serde_json::Value;
use std::io;
use vx_cases::columns::{member, number};
use vx_cases::{Answer, Answers, answer_calls, run_cases};

struct ChunkCases;

impl Answers for ChunkCases {
    fn answers(&self, rt: &HostRuntime, lines: &str) -> io::Result<Vec<Answer>> {
        let mut answers = Vec::new(rt.alloc());
        for line in lines.lines() {
            let Ok(case) = Value::from_str(rt.alloc(), line) else {
                return Err(io::Error::other("a line is no JSON"));
            };
            answer_line(rt, &case, &mut answers)?;
        }
        Ok(answers)
    }
}

fn answer_line(rt: &HostRuntime, case: &Value, answers: &mut Vec<Answer>) -> io::Result<()> {
    let calls = member(case, "calls")?;
    if let Some(lens) = case.get("chunks") {
        return answer_calls(rt, chunks_of(rt.alloc(), lens), calls, answers);
    }
    if let Some(types) = case.get("types") {
        return answer_calls(rt, types_of(rt.alloc(), types), calls, answers);
    }
    let nchunks = number(case, "nchunks")?;
    answer_calls(rt, Ok(Data::new(nchunks)), calls, answers)
}

fn main(rt: HostRuntime) -> io::Result<()> {
    run_cases(&rt, &ChunkCases)
}
