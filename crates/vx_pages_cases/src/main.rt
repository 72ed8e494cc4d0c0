//! Runs cases of pages and refusals: the lines that `vx_pages` writes of them.
//!
//! A line of a case is a page or a refusal, and its answer is the line that is written, without its line feed.
//!
//! - `{"type":TYPE,"rows":[ROW,..],"answers":[ANSWER,..]}` is a page. That the rows fit the type isn't asked. An answer is
//!   `[ROW,..]`, `{"found":n}`, `{"not_found":n}`, or `{"bits":[b,..]}` with `null` for a bit that is none.
//! - `{"error":"NAME"}` is a refusal, with its fields beside the name, as `{"error":"BadRange","start":2,"end":1}`; `at` is a
//!   list of numbers, `rule` and `fault` are names, and the number of a fault stands beside it.
//!
//! Types are those of `vx_cases`, `"binary"`, `{"decimal":[precision,scale]}`, `{"list":TYPE}`, `{"fixed":[TYPE,size]}` and
//! `{"struct":[["name",TYPE],..]}`, each with `"null":true` beside it where a row may be null. Rows are those of `vx_cases`,
//! `{"int":"DIGITS"}`, `{"decimal":"DIGITS"}`, `{"bytes":[n,..]}`, `{"list":[ROW,..]}` and `{"struct":[ROW,..]}`. They nest
//! three deep.
#![tactic(auto)]

mod refusals;
mod rows;
mod types;

use crate::refusals::refusal_of;
use crate::rows::rows_of;
use crate::types::dtype_of;
use serde_json::Value;
use std::alloc::Global;
use std::io;
use vx_base::{Res, RowBuffer, Seq};
use vx_cases::{Answer, Answers, run_cases};
use vx_job::{Answer as Answered, Page};
use vx_pages::{page_line, refusal_line};
use vx_search::SearchResult;

struct PageCases;

impl Answers for PageCases {
    fn answers(&self, rt: &HostRuntime, asked: &str) -> io::Result<Vec<Answer>> {
        let mut answers = Vec::new(rt.alloc());
        for line in asked.lines() {
            let Ok(case) = Value::from_str(rt.alloc(), line) else {
                return Err(io::Error::other("a line is no JSON"));
            };
            let Ok(written) = written(rt.alloc(), &case) else {
                return Err(io::Error::other("a line is no page and no refusal"));
            };
            let text = shown(rt.alloc(), written)?;
            answers.push(Answer { text, reads: 0 })?;
        }
        Ok(answers)
    }
}

fn answers_of(alloc: Global, value: &Value) -> Res<Seq<Answered>> {
    let mut answers = Seq::new(alloc);
    if let Some(items) = value.as_array() {
        for item in items {
            answers.push(answer_of(alloc, item)?)?;
        }
    }
    Ok(answers)
}

fn answer_of(alloc: Global, value: &Value) -> Res<Answered> {
    if let Some(place) = value.get("found") {
        return Ok(Answered::Place(SearchResult::Found(whole_of(place))));
    }
    if let Some(place) = value.get("not_found") {
        return Ok(Answered::Place(SearchResult::NotFound(whole_of(place))));
    }
    match value.get("bits") {
        Some(bits) => Ok(Answered::Bits(bits_of(alloc, bits)?)),
        None => Ok(Answered::Rows(rows_of(alloc, value)?)),
    }
}

/// The number, 0 where it is none.
fn whole_of(value: &Value) -> usize {
    value.as_u64().unwrap_or(0) as usize
}

fn bits_of(alloc: Global, value: &Value) -> Res<Seq<Option<bool>>> {
    let mut bits = Seq::new(alloc);
    if let Some(items) = value.as_array() {
        for item in items {
            bits.push(item.as_bool())?;
        }
    }
    Ok(bits)
}

fn page_of(alloc: Global, case: &Value) -> Res<Page> {
    let answers = answers_of(alloc, case.get("answers").unwrap_or(case))?;
    let dtype = dtype_of(alloc, case.get("type").unwrap_or(case))?;
    let rows = rows_of(alloc, case.get("rows").unwrap_or(case))?;
    let rows = RowBuffer::from_rows(alloc, &dtype, rows)?;
    Ok(Page::new(answers, dtype, rows))
}

/// The bytes that are written.
fn written(alloc: Global, case: &Value) -> Res<Vec<u8>> {
    if case.get("error").is_some() {
        let refusal = refusal_of(alloc, case)?;
        return refusal_line(alloc, &refusal);
    }
    let page = page_of(alloc, case)?;
    page_line(alloc, &page)
}

/// A line as text, without its line feed.
fn shown(alloc: Global, bytes: Vec<u8>) -> io::Result<String> {
    let Ok(text) = String::from_utf8(bytes) else {
        return Err(io::Error::other("what is written is no text"));
    };
    match text.as_str().strip_suffix('\n') {
        Some(line) => Ok(String::from_str(alloc, line)?),
        None => Err(io::Error::other("what is written has no line feed")),
    }
}

fn main(rt: HostRuntime) -> io::Result<()> {
    run_cases(&rt, &PageCases)
}
