//! Runs cases of bulk calls: what `vx_bulk` answers to calls on a flat column, and how many reads each counts.
//!
//! A line of a case is `{"column":F,"calls":[CALL,..]}`. F is a type and rows, as `["u32?",[1,null,9]]`, or a type, a row and
//! how often it stands, as `["u16",7,1000]`. The calls are those of `columns.rt`. Each has an answer.
#![tactic(auto)]

mod columns;
mod reading;

use crate::columns::Columns;
use serde_json::Value;
use std::io;
use vx_cases::columns::{column_of, member};
use vx_cases::{Answer, Answers, answer_calls, run_cases};

struct BulkCases;

impl Answers for BulkCases {
    fn answers(&self, rt: &HostRuntime, lines: &str) -> io::Result<Vec<Answer>> {
        let mut answers = Vec::new(rt.alloc());
        for line in lines.lines() {
            let Ok(case) = Value::from_str(rt.alloc(), line) else {
                return Err(io::Error::other("a line is no JSON"));
            };
            answer_line(rt, &case, &mut answers)?;
        }
        Ok(answers)
    }
}

fn answer_line(rt: &HostRuntime, case: &Value, answers: &mut Vec<Answer>) -> io::Result<()> {
    let calls = member(case, "calls")?;
    let column = column_of(rt.alloc(), member(case, "column")?)?;
    answer_calls(rt, Ok(Columns { column }), calls, answers)
}

fn main(rt: HostRuntime) -> io::Result<()> {
    run_cases(&rt, &BulkCases)
}
