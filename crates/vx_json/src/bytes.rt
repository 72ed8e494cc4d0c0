//! Jobs out of bytes.
ghost use Rattle.std.specs.Prelude.{IfOk, IsOkUnless, MatchOption, MatchResult};
ghost use Rattle.vx_job.specs.JobView.{job_view};
ghost use Rattle.vx_json.specs.Bytes.{IsJobOf, HasNoJob, IsJsonOf, HasNoJson};
ghost use Rattle.serde_json.specs.View.{view};

use crate::job::{job_of, read_value};
use serde_json::Value;
use std::alloc::Global;
use vx_job::Job;
use vx_json_rows::Reason;
use vx_rows::{ColumnError, Res};

/// The JSON that the bytes are, or why they are none.
fn json_of(alloc: Global, bytes: &[u8]) -> Res<Result<Value, Reason>>
    ensures ok { IfOk result
        (λ read. MatchResult read (λ value. IsJsonOf bytes.now (view value)) (λ _. HasNoJson bytes.now)) }
    ensures err { IsOkUnless result ColumnError.OutOfMemory }
{
    match Value::from_slice(alloc, bytes) {
        Ok(value) => Ok(Ok(value)),
        Err(error) if error.is_memory() => Err(ColumnError::OutOfMemory),
        Err(error) => Ok(Err(Reason::of_bytes(alloc, bytes, &error))),
    }
}

/// The job that the bytes are, or why they are none. The bytes are let go before the job is made of their JSON.
pub fn read_job(alloc: Global, bytes: Vec<u8>) -> Res<Result<Job, Reason>>
    ensures ok { IfOk result
        (λ read. MatchResult read (λ job. IsJobOf bytes.items (job_view job)) (λ _. HasNoJob bytes.items)) }
    ensures err { IsOkUnless result ColumnError.OutOfMemory }
{
    let json = json_of(alloc, &bytes)?;
    drop(bytes);
    match json {
        Ok(value) => read_value(alloc, &value),
        Err(reason) => Ok(Err(reason)),
    }
}

/// The job that the bytes are, if they are one.
pub fn parse_job(alloc: Global, bytes: &[u8]) -> Res<Option<Job>>
    ensures ok { IfOk result
        (λ found. MatchOption found (HasNoJob bytes.now) (λ job. IsJobOf bytes.now (job_view job))) }
    ensures err { IsOkUnless result ColumnError.OutOfMemory }
{
    match json_of(alloc, bytes)? {
        Ok(value) => job_of(alloc, &value),
        Err(_reason) => Ok(None),
    }
}
