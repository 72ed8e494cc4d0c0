//! Runs cases of masks and of validity: what `vx_masks` answers to calls on bits.
//!
//! A line of a case is `{"bits":"101","calls":[CALL,..]}`, `{"len":n,"indices":[i,..],"calls":[CALL,..]}` or
//! `{"len":n,"slices":[[start,end],..],"calls":[CALL,..]}`, the calls of `masks.rt` on a mask that is made of these; or
//! `{"validity":[ENTRY,..],"calls":[CALL,..]}`, the calls of `validities.rt` on entries, each `["AllValid",n]` or
//! `["Array","101",n]`, of n rows. Each call has an answer. A mask whose condition doesn't hold is refused
//! as `Unsupported`.
#![tactic(auto)]

mod masks;
mod reading;
mod validities;

use crate::masks::masks_of;
use crate::validities::validities_of;
use serde_json::Value;
use std::io;
use vx_cases::columns::member;
use vx_cases::{Answer, Answers, answer_calls, run_cases};

struct MaskCases;

impl Answers for MaskCases {
    fn answers(&self, rt: &HostRuntime, lines: &str) -> io::Result<Vec<Answer>> {
        let mut answers = Vec::new(rt.alloc());
        for line in lines.lines() {
            let Ok(case) = Value::from_str(rt.alloc(), line) else {
                return Err(io::Error::other("a line is no JSON"));
            };
            answer_line(rt, &case, &mut answers)?;
        }
        Ok(answers)
    }
}

fn answer_line(rt: &HostRuntime, case: &Value, answers: &mut Vec<Answer>) -> io::Result<()> {
    let calls = member(case, "calls")?;
    match case.get("validity") {
        Some(entries) => answer_calls(rt, validities_of(rt.alloc(), entries), calls, answers),
        None => answer_calls(rt, masks_of(rt.alloc(), case), calls, answers),
    }
}

fn main(rt: HostRuntime) -> io::Result<()> {
    run_cases(&rt, &MaskCases)
}
