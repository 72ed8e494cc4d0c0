//! Runs cases of selectors: what `vx_interleave` answers to calls on them, and how many reads each call counts.
//!
//! A line of a case is `{"selectors":S,"calls":[C]}`. S is `{"array_indices":F,"row_indices":F,"lens":[n]}`, and F a type
//! and rows, as `["u8",[0,1,0]]`. What can't be made has one answer, the refusal; else each call has one. A line
//! `{"check":S}` has one answer, of what tells refusals without making anything.
//!
//! `["window",start,end]` and `["share"]` answer the shape of what they make, and later calls ask that. The other calls are
//! the words of `selectors.rt`.
#![tactic(auto)]

mod reading;
mod selectors;

use crate::reading::{check, selectors_of};
use serde_json::Value;
use std::io;
use vx_cases::columns::member;
use vx_cases::{Answer, Answers, answer_calls, run_cases};

struct SelectorCases;

impl Answers for SelectorCases {
    fn answers(&self, rt: &HostRuntime, asked: &str) -> io::Result<Vec<Answer>> {
        let mut answers = Vec::new(rt.alloc());
        for line in asked.lines() {
            let Ok(case) = Value::from_str(rt.alloc(), line) else {
                return Err(io::Error::other("a line is no JSON"));
            };
            answer_line(rt, &case, &mut answers)?;
        }
        Ok(answers)
    }
}

fn answer_line(rt: &HostRuntime, case: &Value, answers: &mut Vec<Answer>) -> io::Result<()> {
    match case.get("check") {
        Some(parts) => {
            let text = check(rt.alloc(), parts)?;
            answers.push(Answer { text, reads: 0 })?;
            Ok(())
        }
        None => {
            let selectors = selectors_of(rt.alloc(), member(case, "selectors")?)?;
            answer_calls(rt, selectors, member(case, "calls")?, answers)
        }
    }
}

fn main(rt: HostRuntime) -> io::Result<()> {
    run_cases(&rt, &SelectorCases)
}
