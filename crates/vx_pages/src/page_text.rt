//! Pages as text.
ghost use Rattle.std.specs.Prelude.{◌≡◌, ◌++◌, OnOk, map};
ghost use Rattle.serde_json.specs.Data.{array};
ghost use Rattle.serde_json.specs.View.{items_of};
ghost use Rattle.vx_pages.specs.PageJson as spec;
ghost use Rattle.vx_pages.specs.Tokens.{tokens_of};

use crate::parts::{end_count, open};
use crate::row_text::{write_buffer, write_rows};
use crate::type_text::write_type;
use json::Writer;
use std::alloc::{AllocError, Global};
use vx_job::{Answer, Page};
use vx_search::SearchResult;

/// Writes an object of one number.
fn write_number_under(out: &mut Writer, key: &str, number: usize) -> Result<(), AllocError>
    ensures ok { OnOk result
        (out.new.tokens ≡ out.old.tokens ++ tokens_of (spec.number_under key.now number)) }
    ensures before { out.new.before ≡ out.old.before }
{
    out.begin_object()?;
    end_count(out, key, number)
}

fn write_place(out: &mut Writer, place: SearchResult) -> Result<(), AllocError>
    ensures ok { OnOk result
        (out.new.tokens ≡ out.old.tokens ++ tokens_of (spec.place_json place)) }
    ensures before { out.new.before ≡ out.old.before }
{
    match place {
        SearchResult::Found(place) => write_number_under(out, "found", place),
        SearchResult::NotFound(place) => write_number_under(out, "not_found", place),
    }
}

fn write_bit(out: &mut Writer, bit: Option<bool>) -> Result<(), AllocError>
    ensures ok { OnOk result (out.new.tokens ≡ out.old.tokens ++ tokens_of (spec.bit_json bit)) }
    ensures before { out.new.before ≡ out.old.before }
{
    match bit {
        None => out.null(),
        Some(bit) => out.boolean(bit),
    }
}

fn write_bits(out: &mut Writer, bits: &[Option<bool>]) -> Result<(), AllocError>
    ensures ok { OnOk result
        (out.new.tokens ≡ out.old.tokens ++ tokens_of (spec.bits_json bits.now)) }
    ensures before { out.new.before ≡ out.old.before }
{
    out.begin_array()?;
    for bit in bits {
        write_bit(out, *bit)?;
    }
    out.end_array()
}

fn write_answer(alloc: Global, out: &mut Writer, answer: &Answer) -> Result<(), AllocError>
    ensures ok { OnOk result
        (out.new.tokens ≡ out.old.tokens ++ tokens_of (spec.answer_json answer.now)) }
    ensures before { out.new.before ≡ out.old.before }
{
    match answer {
        Answer::Rows(rows) => {
            open(out, "rows")?;
            write_rows(alloc, out, rows.as_slice())?;
            out.end_object()
        }
        Answer::Place(place) => write_place(out, *place),
        Answer::Bits(bits) => {
            open(out, "bits")?;
            write_bits(out, bits.as_slice())?;
            out.end_object()
        }
    }
}

fn write_answers(alloc: Global, out: &mut Writer, answers: &[Answer]) -> Result<(), AllocError>
    ensures ok { OnOk result (out.new.tokens ≡ out.old.tokens
        ++ tokens_of (array (items_of (map spec.answer_json answers.now)))) }
    ensures before { out.new.before ≡ out.old.before }
{
    out.begin_array()?;
    for answer in answers {
        write_answer(alloc, out, answer)?;
    }
    out.end_array()
}

/// Writes a page.
pub(crate) fn write_page(alloc: Global, out: &mut Writer, page: &Page) -> Result<(), AllocError>
    ensures ok { OnOk result
        (out.new.tokens ≡ out.old.tokens ++ tokens_of (spec.page_json page.now)) }
    ensures before { out.new.before ≡ out.old.before }
{
    open(out, "answers")?;
    write_answers(alloc, out, page.answers())?;
    out.key("rows")?;
    write_buffer(alloc, out, page.rows())?;
    out.key("type")?;
    write_type(alloc, out, page.dtype())?;
    out.end_object()
}
