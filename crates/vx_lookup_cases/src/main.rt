//! Runs cases of lookups: what `vx_lookup` answers to searches of columns and to questions for members, and how many reads
//! each call counts.
//!
//! A line of a case is a column and calls on it, as `{"flat":F,"calls":[C]}` or, of chunks that are joined,
//! `{"chunks":[F],"calls":[C]}`. F is a type and rows, as `["i32?",[1,null]]`. What can't be made has one answer, the
//! refusal; else each call has one. The calls are those of `calls.rt` and `numbers.rt`.
#![tactic(auto)]

mod asked;
mod calls;
mod making;
mod numbers;
mod sorted;

use crate::asked::Asking;
use crate::making::asked_of;
use serde_json::Value;
use std::io;
use vx_cases::columns::member;
use vx_cases::{Answer, Answers, answer_calls, run_cases};

struct LookupCases;

impl Answers for LookupCases {
    fn answers(&self, rt: &HostRuntime, asked: &str) -> io::Result<Vec<Answer>> {
        let mut answers = Vec::new(rt.alloc());
        for line in asked.lines() {
            let Ok(case) = Value::from_str(rt.alloc(), line) else {
                return Err(io::Error::other("a line is no JSON"));
            };
            answer_line(rt, &case, &mut answers)?;
        }
        Ok(answers)
    }
}

fn answer_line(rt: &HostRuntime, case: &Value, answers: &mut Vec<Answer>) -> io::Result<()> {
    let calls = member(case, "calls")?;
    let asked = asked_of(rt.alloc(), case)?;
    let asked = asked.map(|column| Asking { rt, column });
    answer_calls(rt, asked, calls, answers)
}

fn main(rt: HostRuntime) -> io::Result<()> {
    run_cases(&rt, &LookupCases)
}
