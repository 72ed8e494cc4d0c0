//! Pages as JSON.
ghost use Rattle.std.specs.Prelude.{◌≡◌, IfOk, IsOkUnless, map};
ghost use Rattle.serde_json.specs.View.{view};
ghost use Rattle.vx_pages.specs.PageJson as spec;

use crate::row_json::{buffer_json, rows_json};
use crate::type_json::type_json;
use serde_json::{Value, json};
use std::alloc::{AllocError, Global};
use vx_job::{Answer, Page};
use vx_rows::{ColumnError, Res};
use vx_search::SearchResult;

fn place_json(alloc: Global, place: SearchResult) -> Result<Value, AllocError>
    ensures { IfOk result (λ v. view v ≡ spec.place_json place) }
{
    match place {
        SearchResult::Found(place) => json!(in alloc; {"found": place}),
        SearchResult::NotFound(place) => json!(in alloc; {"not_found": place}),
    }
}

fn bit_json(bit: Option<bool>) -> Value
    ensures { view result ≡ spec.bit_json bit }
{
    match bit {
        None => Value::Null,
        Some(bit) => Value::Bool(bit),
    }
}

fn bits_json(alloc: Global, bits: &[Option<bool>]) -> Result<Vec<Value>, AllocError>
    ensures { IfOk result (λ v. map view v.items ≡ map spec.bit_json bits.now) }
{
    let mut values = Vec::with_capacity(alloc, bits.len())?;
    for bit in bits {
        values.push(bit_json(*bit))?;
    }
    Ok(values)
}

fn answer_json(alloc: Global, answer: &Answer) -> Result<Value, AllocError>
    ensures { IfOk result (λ v. view v ≡ spec.answer_json answer.now) }
{
    match answer {
        Answer::Rows(rows) => {
            let rows = Value::Array(rows_json(alloc, rows.as_slice())?);
            json!(in alloc; {"rows": rows})
        }
        Answer::Place(place) => place_json(alloc, *place),
        Answer::Bits(bits) => {
            let bits = Value::Array(bits_json(alloc, bits.as_slice())?);
            json!(in alloc; {"bits": bits})
        }
    }
}

fn answers_json(alloc: Global, answers: &[Answer]) -> Result<Vec<Value>, AllocError>
    ensures { IfOk result (λ v. map view v.items ≡ map spec.answer_json answers.now) }
{
    let mut values = Vec::with_capacity(alloc, answers.len())?;
    for answer in answers {
        values.push(answer_json(alloc, answer)?)?;
    }
    Ok(values)
}

fn page_json(alloc: Global, page: &Page) -> Result<Value, AllocError>
    ensures { IfOk result (λ v. view v ≡ spec.page_json page.now) }
{
    let answers = Value::Array(answers_json(alloc, page.answers())?);
    let rows = Value::Array(buffer_json(alloc, page.rows())?);
    let dtype = type_json(alloc, page.dtype())?;
    json!(in alloc; {"answers": answers, "rows": rows, "type": dtype})
}

/// The JSON of a page.
pub fn page_of(alloc: Global, page: &Page) -> Res<Value>
    ensures ok { IfOk result (λ v. view v ≡ spec.page_json page.now) }
    ensures err { IsOkUnless result ColumnError.OutOfMemory }
{
    Ok(page_json(alloc, page)?)
}
