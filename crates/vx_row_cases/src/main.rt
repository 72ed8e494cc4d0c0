//! Runs cases of rows, types, errors and flat columns: what `vx_rows` and `vx_base` answer to calls on them, and how many
//! reads each call counts.
//!
//! A line of a case is `{"rows":[CALL,..]}`, `{"types":[CALL,..]}` or `{"others":[CALL,..]}`, whose calls are the words of
//! `rows.rt`, `types.rt` and `others.rt`, or `{"column":C,"calls":[CALL,..]}`, whose calls are those of `columns.rt`. Each
//! call has an answer; a column that can't be made has one, the refusal.
//!
//! Types are those of `vx_cases`, `"binary"`, `{"decimal":[precision,scale]}`, `{"list":TYPE}`, `{"fixed":[TYPE,size]}` and
//! `{"struct":[[name,TYPE],..]}`, each with `"null":true` beside it where a row may be null. Rows are those of `vx_cases`,
//! `{"decimal":n}`, `{"bytes":[n,..]}`, `{"list":[ROW,..]}` and `{"struct":[ROW,..]}`. What is within is flat. A column is
//! `{"type":TYPE,"rows":[ROW,..]}`, `{"type":TYPE,"row":ROW,"len":n}` or `{"type":TYPE}`, which is empty.
#![tactic(auto)]

mod checks;
mod columns;
mod others;
mod reading;
mod rows;
mod types;

use crate::columns::asked;
use crate::others::Others;
use crate::rows::Rows;
use crate::types::Types;
use serde_json::Value;
use std::io;
use vx_cases::columns::member;
use vx_cases::{Answer, Answers, answer_calls, run_cases};

struct RowCases;

impl Answers for RowCases {
    fn answers(&self, rt: &HostRuntime, lines: &str) -> io::Result<Vec<Answer>> {
        let mut answers = Vec::new(rt.alloc());
        for line in lines.lines() {
            let Ok(case) = Value::from_str(rt.alloc(), line) else {
                return Err(io::Error::other("a line is no JSON"));
            };
            answer_line(rt, &case, &mut answers)?;
        }
        Ok(answers)
    }
}

fn answer_line(rt: &HostRuntime, case: &Value, answers: &mut Vec<Answer>) -> io::Result<()> {
    if let Some(calls) = case.get("rows") {
        return answer_calls(rt, Ok(Rows), calls, answers);
    }
    if let Some(calls) = case.get("types") {
        return answer_calls(rt, Ok(Types), calls, answers);
    }
    if let Some(calls) = case.get("others") {
        return answer_calls(rt, Ok(Others), calls, answers);
    }
    let column = asked(rt.alloc(), member(case, "column")?);
    answer_calls(rt, column, member(case, "calls")?, answers)
}

fn main(rt: HostRuntime) -> io::Result<()> {
    run_cases(&rt, &RowCases)
}
