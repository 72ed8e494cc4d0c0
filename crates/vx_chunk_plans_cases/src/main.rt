//! Runs cases of plans over chunks: what `vx_chunk_plans` plans for selections of rows of chunks of some lengths, which rows
//! the plans give, and how many reads each call counts.
//!
//! A line of a case is `{"chunks":[n,..],"calls":[CALL,..]}`, the calls of `selections.rt` on chunks of these lengths. Each
//! call has an answer.
#![tactic(auto)]

mod selections;
mod shown;

use crate::selections::chunks_of;
use serde_json::Value;
use std::io;
use vx_cases::columns::member;
use vx_cases::{Answer, Answers, answer_calls, run_cases};

struct PlanCases;

impl Answers for PlanCases {
    fn answers(&self, rt: &HostRuntime, lines: &str) -> io::Result<Vec<Answer>> {
        let mut answers = Vec::new(rt.alloc());
        for line in lines.lines() {
            let Ok(case) = Value::from_str(rt.alloc(), line) else {
                return Err(io::Error::other("a line is no JSON"));
            };
            let chunks = chunks_of(rt.alloc(), member(&case, "chunks")?);
            answer_calls(rt, chunks, member(&case, "calls")?, &mut answers)?;
        }
        Ok(answers)
    }
}

fn main(rt: HostRuntime) -> io::Result<()> {
    run_cases(&rt, &PlanCases)
}
