//! Runs cases of rows gathered through selectors, and of exceptions laid over some rows of a lane layout: what
//! `vx_interleave_gather` and `vx_lane_select` answer, and how many reads each call counts.
//!
//! A line of a case is one of these, and has one answer:
//!
//! - `{"gather":KIND,"first":F,"second":F,"array_indices":F,"row_indices":F}`, with the kind `bits`, `ints` or `validity`;
//! - `{"lanes":L,"entries":[row],"kept":[n]}`, each entry standing for the row of that number;
//! - `{"lanes":L,"entries":[row],"taken":[n or null]}`, some of them for none.
//!
//! F is a type and rows, as `["u32",[0,1,2]]`, and L is `{"len":n,"n_lanes":n,"offset":n,"lane_offsets":F,"indices":F,
//! "values":F}`, over rows of type `u16`. A call whose condition doesn't hold is answered `not allowed`.
#![tactic(auto)]

mod entries;
mod gathers;
mod reading;

use serde_json::Value;
use std::io;
use vx_base::{CountLedger, Res, Steps};
use vx_cases::calls::text_of;
use vx_cases::{Answer, Answers, run_cases};

struct GatherCases;

impl Answers for GatherCases {
    fn answers(&self, rt: &HostRuntime, asked: &str) -> io::Result<Vec<Answer>> {
        let mut answers = Vec::new(rt.alloc());
        for line in asked.lines() {
            let Ok(case) = Value::from_str(rt.alloc(), line) else {
                return Err(io::Error::other("a line is no JSON"));
            };
            answers.push(answer_line(rt, &case)?)?;
        }
        Ok(answers)
    }
}

fn answer_line(rt: &HostRuntime, case: &Value) -> io::Result<Answer> {
    let mut steps = Steps::new(rt, CountLedger::new());
    let answer = told(rt, case, &mut steps)?;
    let text = text_of(rt.alloc(), answer)?;
    let reads = steps.ledger().count();
    Ok(Answer { text, reads })
}

fn told(rt: &HostRuntime, case: &Value, steps: &mut Steps<CountLedger>) -> io::Result<Res<String>> {
    match case.get("gather").and_then(Value::as_str) {
        Some(kind) => gathers::told(rt, kind, case, steps),
        None => entries::told(rt, case, steps),
    }
}

fn main(rt: HostRuntime) -> io::Result<()> {
    run_cases(&rt, &GatherCases)
}
