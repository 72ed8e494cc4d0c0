//! Cases of selections of exceptions: what `vx_patch_select` answers, and how many reads each call counts.
//!
//! How a file of cases is written is said in `vx_cases`. A line of what is asked is JSON, in one of two forms:
//!
//! - `{"patches":P,"calls":[C]}` asks exceptions (`patches.rt`);
//! - `{"places":P,"calls":[C]}` asks the places of exceptions alone (`places.rt`).
//!
//! P is `{"len":n,"offset":n,"indices":F,"values":F,"chunk_offsets":F}`, without values for places. F is a type and rows,
//! as `["u32",[1,5,9]]`; chunk offsets may be `null`. What can't be made has one answer, the refusal. Else each call has
//! one, and what a call makes is what the calls behind it ask.
#![tactic(auto)]

mod masks;
mod patches;
mod places;
mod takes;

use crate::patches::patches_of;
use crate::places::places_of;
use serde_json::Value;
use std::io;
use vx_cases::columns::member;
use vx_cases::{Answer, Answers, answer_calls, run_cases};

struct SelectCases;

impl Answers for SelectCases {
    fn answers(&self, rt: &HostRuntime, asked: &str) -> io::Result<Vec<Answer>> {
        let mut answers = Vec::new(rt.alloc());
        for line in asked.lines() {
            let Ok(case) = Value::from_str(rt.alloc(), line) else {
                return Err(io::Error::other("a line is no JSON"));
            };
            answer_line(rt, &case, &mut answers)?;
        }
        Ok(answers)
    }
}

/// The answers to the calls of a line.
fn answer_line(rt: &HostRuntime, case: &Value, answers: &mut Vec<Answer>) -> io::Result<()> {
    let calls = member(case, "calls")?;
    match case.get("patches") {
        Some(made) => answer_calls(rt, patches_of(rt.alloc(), made)?, calls, answers),
        None => {
            let places = places_of(rt.alloc(), member(case, "places")?)?;
            answer_calls(rt, places, calls, answers)
        }
    }
}

fn main(rt: HostRuntime) -> io::Result<()> {
    run_cases(&rt, &SelectCases)
}
