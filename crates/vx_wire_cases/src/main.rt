//! Runs cases of metadata bytes: what `vx_wire` reads from them and writes.
//!
//! A line of a case is a call, and has an answer. Bytes are in hex.
//!
//! - `read patches BYTES` and `read lanes BYTES` answer the fields of the message, or the fault;
//! - `rewrite patches BYTES` and `rewrite lanes BYTES` answer the bytes of the message that is read;
//! - `is_empty BYTES` answers whether the message that is read is of no patch;
//! - `write patches FIELDS` and `write lanes FIELDS` answer the bytes of a message.
//!
//! The fields of patches are the length, the offset, the type of indices, the number of chunk offsets, their type, and how
//! many patches of the first chunk are cut away, `-` where one is absent. Those of lanes are the numbers of patches and of
//! lanes, and the offset.
#![tactic(auto)]

mod lanes;
mod patches;
mod reading;

use crate::lanes::{read_lanes, rewrite_lanes, write_lanes};
use crate::patches::{is_empty, read_patches, rewrite_patches, write_patches};
use std::alloc::Global;
use std::io;
use vx_cases::{Answer, Answers, run_cases};

struct WireCases;

impl Answers for WireCases {
    fn answers(&self, rt: &HostRuntime, asked: &str) -> io::Result<Vec<Answer>> {
        let mut answers = Vec::new(rt.alloc());
        for line in asked.lines() {
            let text = answer(rt.alloc(), line)?;
            answers.push(Answer { text, reads: 0 })?;
        }
        Ok(answers)
    }
}

fn answer(alloc: Global, line: &str) -> io::Result<String> {
    if let Some(words) = line.strip_prefix("read patches") {
        return read_patches(alloc, words);
    }
    if let Some(words) = line.strip_prefix("read lanes") {
        return read_lanes(alloc, words);
    }
    if let Some(words) = line.strip_prefix("rewrite patches") {
        return rewrite_patches(alloc, words);
    }
    if let Some(words) = line.strip_prefix("rewrite lanes") {
        return rewrite_lanes(alloc, words);
    }
    if let Some(words) = line.strip_prefix("is_empty") {
        return is_empty(alloc, words);
    }
    if let Some(words) = line.strip_prefix("write patches ") {
        return write_patches(alloc, words);
    }
    match line.strip_prefix("write lanes ") {
        Some(words) => write_lanes(alloc, words),
        None => Err(io::Error::other("a line is no call")),
    }
}

fn main(rt: HostRuntime) -> io::Result<()> {
    run_cases(&rt, &WireCases)
}
