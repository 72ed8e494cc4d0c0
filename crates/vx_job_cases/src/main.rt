//! Runs cases of jobs, from bytes to bytes: how `vx_tool::run_job` ends, what it writes, and how many reads it counts.
//!
//! A line of a case is the bytes of a job, and its answer the status's number and, behind it, the line that is written.
//! Other lines begin with a word:
//!
//! - `words WORD ..` gives the words of the command line for the jobs below it in the same case;
//! - `spaces N` is a job of so many spaces, and `hex DIGITS` one of these bytes;
//! - `ramp CHUNKS ROWS PLAN` is a job of one part, so many chunks of so many rows each, where row i is i;
//! - `counts JOB` is answered `the same` where a run of the job counts as many reads as its plan and its page;
//! - `status NAME` is answered by the number and the words of the status of this name.
#![tactic(auto)]

mod asking;
mod counting;
mod statuses;

use crate::asking::{answer, job_of, words_of};
use crate::counting::compared;
use crate::statuses::status_text;
use std::io;
use vx_cases::{Answer, Answers, run_cases};

struct JobCases;

impl Answers for JobCases {
    fn answers(&self, rt: &HostRuntime, asked: &str) -> io::Result<Vec<Answer>> {
        let alloc = rt.alloc();
        let mut words = Vec::new(alloc);
        let mut answers = Vec::new(alloc);
        for line in asked.lines() {
            if let Some(line) = line.strip_prefix("words ") {
                words = words_of(alloc, line)?;
            } else if let Some(name) = line.strip_prefix("status ") {
                let text = status_text(alloc, name)?;
                answers.push(Answer { text, reads: 0 })?;
            } else if let Some(job) = line.strip_prefix("counts ") {
                answers.push(compared(rt, job)?)?;
            } else {
                let job = job_of(alloc, line)?;
                answers.push(answer(rt, words.as_slice(), job)?)?;
            }
        }
        Ok(answers)
    }
}

fn main(rt: HostRuntime) -> io::Result<()> {
    run_cases(&rt, &JobCases)
}
