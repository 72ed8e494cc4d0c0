//! Runs cases of selections: the rows, the type and the count of `filter`, `take` and `runs` of columns.
//!
//! A line of a case is a column, and calls on it. What can't be made has one answer, the refusal; else each call has one.
//!
//! - `{"part":P,"calls":[C]}` asks the column of a part, which is written as in a job;
//! - `{"ramp":T,"chunks":K,"rows":N,"calls":[C]}` asks K flat chunks of N rows of the type, where row i of the whole is i.
//!
//! `["filter",[true,false]]`, `["take",[1,null]]` and `["runs",[[3,2]],2]` make a column, which later calls ask, and answer
//! its encoding, its type and how many rows it has. `["blocks",N]` is a filter that keeps N rows, drops N, and so on, and
//! `["none"]` one that keeps no row. `["rows"]` answers all rows, `["costs"]` the most reads of a row and of a cut end, and
//! `["constant"]` whether one row is stored for all.
#![tactic(auto)]

mod chosen;
mod opened;
mod ramp;
mod reading;

use crate::opened::opened_of;
use crate::ramp::ramp_of;
use serde_json::Value;
use std::io;
use vx_cases::columns::member;
use vx_cases::{Answer, Answers, answer_calls, run_cases};

struct SelectCases;

impl Answers for SelectCases {
    fn answers(&self, rt: &HostRuntime, asked: &str) -> io::Result<Vec<Answer>> {
        let mut answers = Vec::new(rt.alloc());
        for line in asked.lines() {
            let Ok(case) = Value::from_str(rt.alloc(), line) else {
                return Err(io::Error::other("a line is no JSON"));
            };
            answer_line(rt, &case, &mut answers)?;
        }
        Ok(answers)
    }
}

fn answer_line(rt: &HostRuntime, case: &Value, answers: &mut Vec<Answer>) -> io::Result<()> {
    let calls = member(case, "calls")?;
    if let Some(part) = case.get("part") {
        return answer_calls(rt, opened_of(rt, part)?, calls, answers);
    }
    answer_calls(rt, ramp_of(rt.alloc(), case)?, calls, answers)
}

fn main(rt: HostRuntime) -> io::Result<()> {
    run_cases(&rt, &SelectCases)
}
