//! Runs cases of lane layouts: what `vx_lanes` answers to calls on them, and how many reads each call counts.
//!
//! A line of a case is `{"lanes":L,"calls":[C]}`. L is `{"len":n,"n_lanes":n,"offset":n,"lane_offsets":F,"indices":F,
//! "values":F}`, over rows of type `u16`, or with `"dtype":T` of another type of integers. F is a type and rows, as
//! `["u32",[0,1,2]]`, or a type, a row and how often it stands, as `["u16",7,1000]`. What can't be made has one answer, the
//! refusal; else each call has one.
//!
//! `["slice",start,end]`, `["chunks",start,end]` and `["share"]` answer the shape of what they make, and later calls ask
//! that. The other calls are the words of `lanes.rt`.
#![tactic(auto)]

mod lanes;
mod reading;

use crate::reading::lanes_of;
use serde_json::Value;
use std::io;
use vx_cases::columns::member;
use vx_cases::{Answer, Answers, answer_calls, run_cases};

struct LaneCases;

impl Answers for LaneCases {
    fn answers(&self, rt: &HostRuntime, asked: &str) -> io::Result<Vec<Answer>> {
        let mut answers = Vec::new(rt.alloc());
        for line in asked.lines() {
            let Ok(case) = Value::from_str(rt.alloc(), line) else {
                return Err(io::Error::other("a line is no JSON"));
            };
            answer_line(rt, &case, &mut answers)?;
        }
        Ok(answers)
    }
}

fn answer_line(rt: &HostRuntime, case: &Value, answers: &mut Vec<Answer>) -> io::Result<()> {
    let calls = member(case, "calls")?;
    let lanes = lanes_of(rt, member(case, "lanes")?)?;
    answer_calls(rt, lanes, calls, answers)
}

fn main(rt: HostRuntime) -> io::Result<()> {
    run_cases(&rt, &LaneCases)
}
