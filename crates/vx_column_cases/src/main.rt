//! Runs cases of columns: what `vx_column` and `vx_chunks` answer to calls, and how many reads each call counts.
//!
//! A line of a case is what is made, and calls on it. What can't be made has one answer, the refusal; else each call has
//! one.
//!
//! - `{"part":P,"calls":[C]}` asks the column of a part, which is written as in a job;
//! - `{"chunks":[P],"type":T,"calls":[C]}` asks one of chunks, that are the columns of parts, of this type; without `type` the
//!   first chunk's;
//! - `{"lengths":[n],"calls":[C]}` asks the boundaries of chunks of these lengths;
//! - `{"types":[T],"calls":[C]}` asks what a chunked column says of itself beside its chunks, which are of these types.
//!
//! The calls are the words of `column.rt`, `chunked.rt`, `encodings.rt`, `boundaries.rt` and `types.rt`, with the numbers
//! behind them that they take. Those that make a column answer its encoding and the number of its rows, and later calls
//! ask that column.
#![tactic(auto)]

mod boundaries;
mod chunked;
mod chunks;
mod column;
mod encodings;
mod opened;
mod reading;
mod types;

use crate::boundaries::bounds_of;
use crate::chunks::chunks_of;
use crate::opened::opened_of;
use crate::types::types_of;
use serde_json::Value;
use std::io;
use vx_cases::columns::member;
use vx_cases::{Answer, Answers, answer_calls, run_cases};

struct ColumnCases;

impl Answers for ColumnCases {
    fn answers(&self, rt: &HostRuntime, asked: &str) -> io::Result<Vec<Answer>> {
        let mut answers = Vec::new(rt.alloc());
        for line in asked.lines() {
            let Ok(case) = Value::from_str(rt.alloc(), line) else {
                return Err(io::Error::other("a line is no JSON"));
            };
            answer_line(rt, &case, &mut answers)?;
        }
        Ok(answers)
    }
}

fn answer_line(rt: &HostRuntime, case: &Value, answers: &mut Vec<Answer>) -> io::Result<()> {
    let calls = member(case, "calls")?;
    if let Some(part) = case.get("part") {
        answer_calls(rt, opened_of(rt, part)?, calls, answers)
    } else if let Some(parts) = case.get("chunks") {
        answer_calls(rt, chunks_of(rt, parts, case.get("type"))?, calls, answers)
    } else if let Some(lengths) = case.get("lengths") {
        answer_calls(rt, bounds_of(rt.alloc(), lengths)?, calls, answers)
    } else {
        let types = types_of(rt.alloc(), member(case, "types")?)?;
        answer_calls(rt, Ok(types), calls, answers)
    }
}

fn main(rt: HostRuntime) -> io::Result<()> {
    run_cases(&rt, &ColumnCases)
}
