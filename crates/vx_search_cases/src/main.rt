//! Cases of searches: what `vx_search` answers to calls, and how many comparisons each call counts.
//!
//! How a file of cases is written is said in `vx_cases`. A line of what is asked is JSON, in one of two forms:
//!
//! - `{"over":O,"values":F,"calls":[C]}` asks a searcher over values (`searchers.rt`);
//! - `{"calls":[C]}` asks what needs no searcher (`alone.rt`).
//!
//! F is a type and rows, as `["u32",[1,5,9]]`, or a type, a row and how often it stands, and O says what they are searched through: `slice` for a slice by its
//! elements' own order, `integers`, `reader` and `flat_reader` for the searcher over integers as it is made of a slice, of
//! a reader of a slice and of a reader of a column, and `flat` for the one that is made of a column.
#![tactic(auto)]

mod alone;
mod asking;
mod closures;
mod searchers;
mod sorted;

use crate::alone::Alone;
use crate::searchers::searched_of;
use serde_json::Value;
use std::io;
use vx_cases::columns::member;
use vx_cases::{Answer, Answers, answer_calls, run_cases};

struct SearchCases;

impl Answers for SearchCases {
    fn answers(&self, rt: &HostRuntime, asked: &str) -> io::Result<Vec<Answer>> {
        let mut answers = Vec::new(rt.alloc());
        for line in asked.lines() {
            let Ok(case) = Value::from_str(rt.alloc(), line) else {
                return Err(io::Error::other("a line is no JSON"));
            };
            answer_line(rt, &case, &mut answers)?;
        }
        Ok(answers)
    }
}

/// The answers to the calls of a line.
fn answer_line(rt: &HostRuntime, case: &Value, answers: &mut Vec<Answer>) -> io::Result<()> {
    let calls = member(case, "calls")?;
    match case.get("over").and_then(Value::as_str) {
        Some(over) => answer_calls(rt, Ok(searched_of(rt, over, case)?), calls, answers),
        None => answer_calls(rt, Ok(Alone {}), calls, answers),
    }
}

fn main(rt: HostRuntime) -> io::Result<()> {
    run_cases(&rt, &SearchCases)
}
