//! Runs cases of calls on each row of columns: what `vx_ops`, `vx_pairs`, `vx_elementwise`, `vx_lane_compare` and `vx_scalars`
//! answer, and how many reads each call counts.
//!
//! A line of a case is one of these. What can't be made has one answer, the refusal.
//!
//! - `{"part":P,"calls":[C]}` asks the column of a part, which is written as in a job, the calls of `opened.rt`;
//! - `{"ramp":T,"chunks":K,"rows":N,"calls":[C]}` asks K flat chunks of N rows of the type, where row i of the whole is i;
//! - `{"flat":F,"calls":[C]}` asks a flat column of its own crate the calls of `flats.rt`; F is a type and rows, as
//!   `["i32?",[1,null]]`, or a type, a row and how often it stands, as `["u16",7,1000]`;
//! - `{"lengths":[n],"others":[n]}` tells the ranges of rows that lie in one chunk of both columns, by the lengths of chunks;
//! - `{"lanes":L,"op":O,"value":n,"bits":[B]}` rewrites bits, each true, false or null, where there are exceptions; L is
//!   `{"len":n,"n_lanes":n,"offset":n,"lane_offsets":F,"indices":F,"values":F}`;
//! - `{"scalar":S}` and `{"scalar":S,"op":O,"than":S}` tell a scalar, as `["i32",5]`, and whether an operator holds between two.
//!
//! Operators are `=`, `!=`, `>`, `>=`, `<` and `<=`. What a case may not ask is refused as `Unsupported`, or answered `none` or
//! `not allowed`.
#![tactic(auto)]

mod flats;
mod layouts;
mod lengths;
mod made;
mod opened;
mod pairs;
mod ramp;
mod reading;
mod scalars;
mod sums;

use crate::flats::Flats;
use crate::opened::opened_of;
use crate::ramp::ramp_of;
use crate::reading::flat_of;
use serde_json::Value;
use std::io;
use vx_base::{CountLedger, Res, Steps};
use vx_cases::calls::text_of;
use vx_cases::columns::member;
use vx_cases::{Answer, Answers, answer_calls, run_cases};

struct OpsCases;

impl Answers for OpsCases {
    fn answers(&self, rt: &HostRuntime, asked: &str) -> io::Result<Vec<Answer>> {
        let mut answers = Vec::new(rt.alloc());
        for line in asked.lines() {
            let Ok(case) = Value::from_str(rt.alloc(), line) else {
                return Err(io::Error::other("a line is no JSON"));
            };
            answer_line(rt, &case, &mut answers)?;
        }
        Ok(answers)
    }
}

fn answer_line(rt: &HostRuntime, case: &Value, answers: &mut Vec<Answer>) -> io::Result<()> {
    match case.get("calls") {
        Some(calls) => answer_asked(rt, case, calls, answers),
        None => Ok(answers.push(answer_alone(rt, case)?)?),
    }
}

fn answer_asked(
    rt: &HostRuntime,
    case: &Value,
    calls: &Value,
    answers: &mut Vec<Answer>,
) -> io::Result<()> {
    if let Some(part) = case.get("part") {
        return answer_calls(rt, opened_of(rt, part), calls, answers);
    }
    if let Some(flat) = case.get("flat") {
        return answer_calls(rt, flats_of(rt, flat), calls, answers);
    }
    answer_calls(rt, ramp_of(rt.alloc(), case)?, calls, answers)
}

fn flats_of(rt: &HostRuntime, value: &Value) -> Res<Flats> {
    let column = flat_of(rt.alloc(), value)?;
    Ok(Flats { column })
}

fn answer_alone(rt: &HostRuntime, case: &Value) -> io::Result<Answer> {
    let mut steps = Steps::new(rt, CountLedger::new());
    let told = told(rt, case, &mut steps)?;
    let text = text_of(rt.alloc(), told)?;
    let reads = steps.ledger().count();
    Ok(Answer { text, reads })
}

fn told(rt: &HostRuntime, case: &Value, steps: &mut Steps<CountLedger>) -> io::Result<Res<String>> {
    if let Some(scalar) = case.get("scalar") {
        return Ok(scalars::told(rt.alloc(), scalar, case));
    }
    if let Some(lengths) = case.get("lengths") {
        return Ok(lengths::told(rt.alloc(), lengths, member(case, "others")?));
    }
    Ok(layouts::told(rt, member(case, "lanes")?, case, steps))
}

fn main(rt: HostRuntime) -> io::Result<()> {
    run_cases(&rt, &OpsCases)
}
