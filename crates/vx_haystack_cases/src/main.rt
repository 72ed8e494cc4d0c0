//! Runs cases of haystacks: what `vx_haystack` answers to needles, which sets of integers are bitmaps, and how many reads each call
//! counts.
//!
//! A line of a case is `{"column":F,"calls":[CALL,..]}`, where F is the elements, as in `vx_cases` or as in `columns.rt`, and the calls
//! are those of `haystacks.rt`; or it is `{"integers":T,"values":[N,..],"calls":[CALL,..]}`, with the calls of `integers.rt`. Each call has an
//! answer.
#![tactic(auto)]

mod columns;
mod haystacks;
mod integers;

use crate::columns::any_column;
use crate::haystacks::Elements;
use crate::integers::Integers;
use serde_json::Value;
use std::io;
use vx_cases::columns::member;
use vx_cases::{Answer, Answers, answer_calls, run_cases};

struct HaystackCases;

impl Answers for HaystackCases {
    fn answers(&self, rt: &HostRuntime, lines: &str) -> io::Result<Vec<Answer>> {
        let mut answers = Vec::new(rt.alloc());
        for line in lines.lines() {
            let Ok(case) = Value::from_str(rt.alloc(), line) else {
                return Err(io::Error::other("a line is no JSON"));
            };
            answer_line(rt, &case, &mut answers)?;
        }
        Ok(answers)
    }
}

fn answer_line(rt: &HostRuntime, case: &Value, answers: &mut Vec<Answer>) -> io::Result<()> {
    let calls = member(case, "calls")?;
    match case.get("integers").and_then(Value::as_str) {
        Some(name) => {
            let asked = Integers::new(rt.alloc(), name, member(case, "values")?)?;
            answer_calls(rt, Ok(asked), calls, answers)
        }
        None => {
            let column = any_column(rt.alloc(), member(case, "column")?)?;
            answer_calls(rt, Ok(Elements { column }), calls, answers)
        }
    }
}

fn main(rt: HostRuntime) -> io::Result<()> {
    run_cases(&rt, &HaystackCases)
}
