//! Cases of exceptions in slots: what `vx_patch_slots` answers, and what `vx_patches` does to take exceptions apart and put
//! them together.
//!
//! How a file of cases is written is said in `vx_cases`. A line of what is asked is JSON, `{"patches":P,"calls":[C]}`, where P
//! is `{"len":n,"offset":n,"indices":F,"values":F,"chunk_offsets":F}`. F is a type and rows, as `["u32",[1,5,9]]`; chunk
//! offsets may be `null`. What can't be made has one answer, the refusal. Else each call has one, and what a call makes is what
//! the calls behind it ask (`slots.rt` lists the calls).
#![tactic(auto)]

mod slots;
mod text;

use crate::slots::patches_of;
use serde_json::Value;
use std::io;
use vx_cases::columns::member;
use vx_cases::{Answer, Answers, answer_calls, run_cases};

struct SlotCases;

impl Answers for SlotCases {
    fn answers(&self, rt: &HostRuntime, asked: &str) -> io::Result<Vec<Answer>> {
        let mut answers = Vec::new(rt.alloc());
        for line in asked.lines() {
            let Ok(case) = Value::from_str(rt.alloc(), line) else {
                return Err(io::Error::other("a line is no JSON"));
            };
            answer_line(rt, &case, &mut answers)?;
        }
        Ok(answers)
    }
}

/// The answers to the calls of a line.
fn answer_line(rt: &HostRuntime, case: &Value, answers: &mut Vec<Answer>) -> io::Result<()> {
    let made = patches_of(rt.alloc(), member(case, "patches")?)?;
    answer_calls(rt, made, member(case, "calls")?, answers)
}

fn main(rt: HostRuntime) -> io::Result<()> {
    run_cases(&rt, &SlotCases)
}
