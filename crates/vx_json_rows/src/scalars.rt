//! Scalars and operators out of JSON.
ghost use Rattle.std.specs.Prelude.{◌≡◌};
ghost use Rattle.serde_json.specs.View.{view};
ghost use Rattle.vx_json_rows.specs.Forms.{Gives};
ghost use Rattle.vx_json_rows.specs.Scalars as spec;

use crate::forms::{Unread, field, has_keys, text_of};
use crate::reason::Trail;
use crate::rows::{check_row, row_of};
use crate::types::type_of;
use serde_json::Value;
use std::alloc::Global;
use vx_scalars::{CompareOperator, Scalar};

/// A row with its type, which it has to fit.
#[tactic(auto, unfolding(crate::specs::Scalars::scalar_form))]
pub fn scalar_of(alloc: Global, value: &Value, trail: &Trail<'_>) -> Result<Scalar, Unread>
    ensures { Gives (λ s. s) result (spec.scalar_form (view value.now)) }
{
    has_keys(value, &["type", "row"], trail)?;
    let kind = field(value, "type", trail)?;
    let item = field(value, "row", trail)?;
    let dtype = type_of(kind, &Trail::Member(trail, "type"))?;
    let row_trail = Trail::Member(trail, "row");
    let row = row_of(alloc, &dtype, item, &row_trail)?;
    check_row(&dtype, &row, item, &row_trail)?;
    match Scalar::try_new(alloc, dtype, row) {
        Ok(scalar) => Ok(scalar),
        Err(_) => unreachable!(),
    }
}

fn operator_named(text: &str) -> Option<CompareOperator>
    ensures { result ≡ spec.operator_named text.now }
{
    match text {
        "eq" => Some(CompareOperator::Eq),
        "ne" => Some(CompareOperator::NotEq),
        "gt" => Some(CompareOperator::Gt),
        "ge" => Some(CompareOperator::Gte),
        "lt" => Some(CompareOperator::Lt),
        "le" => Some(CompareOperator::Lte),
        _ => None,
    }
}

/// The operator that a text names.
pub fn operator_of(value: &Value, trail: &Trail<'_>) -> Result<CompareOperator, Unread>
    ensures { Gives (λ op. op) result (spec.operator_of (view value.now)) }
{
    let text = text_of(value, trail)?;
    match operator_named(text) {
        Some(operator) => Ok(operator),
        None => Err(Unread::NoForm(trail.no_text(
            text,
            "operator: expected one of \"eq\", \"ne\", \"gt\", \"ge\", \"lt\", \"le\"",
        ))),
    }
}
