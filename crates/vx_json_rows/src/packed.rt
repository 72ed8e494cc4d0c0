//! Rows of booleans and texts out of JSON, packed as they are read.
ghost use Rattle.std.specs.Prelude.{◌≡◌, None};
ghost use Rattle.serde_json.specs.View.{view};
ghost use Rattle.vx_buffers.specs.Stores.{bool_rows, text_rows};
ghost use Rattle.vx_json_rows.specs.Forms.{Gives, list_of};
ghost use Rattle.vx_json_rows.specs.Rows.{Pushes};
ghost use Rattle.vx_json_rows.specs.Packed.{value_or_null, truth_row, text_row};

use crate::forms::{Unread, array_of};
use crate::reason::Trail;
use serde_json::Value;
use std::alloc::Global;
use vx_buffers::RowBuffer;
use vx_buffers::slots::Slots;
use vx_buffers::texts::Texts;

/// Whether a null is a row of a type, and what the type and its values are called.
#[derive(Clone, Copy)]
pub(crate) struct RowKind {
    pub(crate) null_fits: bool,
    pub(crate) type_name: &'static str,
    pub(crate) value_name: &'static str,
}

impl RowKind {
    /// Refuses what is no value of the type, but for `null` where a null fits.
    pub(crate) fn check_null(self, value: &Value, trail: &Trail<'_>) -> Result<(), Unread>
        ensures { Gives (λ _. None) result (value_or_null self.null_fits None (view value.now)) }
    {
        if !value.is_null() {
            return Err(Unread::NoForm(trail.is_no(value, self.value_name)));
        }
        if !self.null_fits {
            return Err(Unread::NoForm(trail.is_no(value, self.type_name)));
        }
        Ok(())
    }
}

/// Puts a row of a type of booleans at the end of the truths, which are the items before it.
fn push_truth(
    kind: RowKind,
    value: &Value,
    trail: &Trail<'_>,
    truths: &mut Slots<bool>,
) -> Result<(), Unread>
    ensures { Pushes result (truth_row kind.null_fits (view value.now)) (bool_rows truths.old) (bool_rows truths.new) }
{
    match value.as_bool() {
        Some(truth) => {
            truths.push(truth)?;
            Ok(())
        }
        None => {
            kind.check_null(value, &Trail::Item(&*trail, truths.len()))?;
            truths.push_null(false)?;
            Ok(())
        }
    }
}

/// Puts a row of a type of texts at the end of the texts, which are the items before it.
fn push_text(
    kind: RowKind,
    value: &Value,
    trail: &Trail<'_>,
    texts: &mut Texts,
) -> Result<(), Unread>
    ensures { Pushes result (text_row kind.null_fits (view value.now)) (text_rows texts.old) (text_rows texts.new) }
{
    match value.as_str() {
        Some(text) => {
            texts.push(text)?;
            Ok(())
        }
        None => {
            kind.check_null(value, &Trail::Item(&*trail, texts.len()))?;
            texts.push_null()?;
            Ok(())
        }
    }
}

/// A list of rows of a type of booleans.
pub(crate) fn truths_of(
    alloc: Global,
    kind: RowKind,
    value: &Value,
    trail: &Trail<'_>,
) -> Result<RowBuffer, Unread>
    ensures { Gives (λ rs. rs) result (list_of (truth_row kind.null_fits) (view value.now)) }
{
    let items = array_of(value, trail)?;
    let mut truths = Slots::with_capacity(alloc, items.len())?;
    for item in items {
        push_truth(kind, item, trail, &mut truths)?;
    }
    Ok(RowBuffer::from_bools(truths))
}

/// A list of rows of a type of texts.
pub(crate) fn texts_of(
    alloc: Global,
    kind: RowKind,
    value: &Value,
    trail: &Trail<'_>,
) -> Result<RowBuffer, Unread>
    ensures { Gives (λ rs. rs) result (list_of (text_row kind.null_fits) (view value.now)) }
{
    let items = array_of(value, trail)?;
    let mut texts = Texts::with_capacity(alloc, items.len())?;
    for item in items {
        push_text(kind, item, trail, &mut texts)?;
    }
    Ok(RowBuffer::from_texts(texts))
}
