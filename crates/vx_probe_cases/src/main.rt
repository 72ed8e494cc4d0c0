//! Runs cases of reads: what `vx_probe` answers to reads of columns, by themselves and kept, and of their slots, and how many
//! reads each call counts.
//!
//! A line of a case is a column and calls on it, as `{"flat":F,"calls":[C]}`. F is a type and rows, as `["i32?",[1,null]]`.
//! In place of `flat` stand
//!
//! - `"chunks":[F]`, joined;
//! - `"lanes":{"inner":F,"n_lanes":n,"offset":n,"lane_offsets":F,"indices":F,"values":F}`;
//! - `"excepted":{"base":F,"offset":n,"indices":F,"values":F,"chunk_offsets":F}`, where the last may be null;
//! - `"interleaved":{"values":[F],"array_indices":F,"row_indices":F}`.
//!
//! What can't be made has one answer, the refusal; else each call has one. The calls are the words of `calls.rt`.
#![tactic(auto)]

mod asked;
mod calls;
mod making;

use crate::making::asked_of;
use serde_json::Value;
use std::io;
use vx_cases::columns::member;
use vx_cases::{Answer, Answers, answer_calls, run_cases};

struct ProbeCases;

impl Answers for ProbeCases {
    fn answers(&self, rt: &HostRuntime, asked: &str) -> io::Result<Vec<Answer>> {
        let mut answers = Vec::new(rt.alloc());
        for line in asked.lines() {
            let Ok(case) = Value::from_str(rt.alloc(), line) else {
                return Err(io::Error::other("a line is no JSON"));
            };
            answer_line(rt, &case, &mut answers)?;
        }
        Ok(answers)
    }
}

fn answer_line(rt: &HostRuntime, case: &Value, answers: &mut Vec<Answer>) -> io::Result<()> {
    let calls = member(case, "calls")?;
    let asked = asked_of(rt, case)?;
    answer_calls(rt, asked, calls, answers)
}

fn main(rt: HostRuntime) -> io::Result<()> {
    run_cases(&rt, &ProbeCases)
}
