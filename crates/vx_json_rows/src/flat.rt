//! Flat rows out of JSON.
ghost use Rattle.std.specs.Prelude.{◌≡◌};
ghost use Rattle.serde_json.specs.View.{view};
ghost use Rattle.vx_json_rows.specs.Forms.{Gives, null_or};
ghost use Rattle.vx_json_rows.specs.Flat as spec;

use crate::forms::{Unread, field, has_keys};
use crate::reason::Trail;
use crate::rows::rows_of;
use crate::types::type_of;
use serde_json::Value;
use std::alloc::Global;
use vx_base::FlatColumn;
use vx_rows::DType;

/// Flat rows of a type, of which each has to fit it.
fn column_of(
    alloc: Global,
    dtype: DType,
    items: &Value,
    trail: &Trail<'_>,
) -> Result<FlatColumn, Unread>
    ensures { Gives (λ c. c) result (spec.fitted_rows dtype (view items.now)) }
{
    let rows = rows_of(alloc, &dtype, items, trail)?;
    match FlatColumn::from_buffer(alloc, dtype, rows) {
        Ok(column) => Ok(column),
        Err(_) => Err(Unread::OutOfMemory),
    }
}

/// Flat rows, of which each has to fit the type.
#[tactic(auto, unfolding(crate::specs::Flat::flat_form))]
pub fn flat_of(alloc: Global, value: &Value, trail: &Trail<'_>) -> Result<FlatColumn, Unread>
    ensures { Gives (λ c. c) result (spec.flat_form (view value.now)) }
{
    has_keys(value, &["flat", "rows"], trail)?;
    let kind = field(value, "flat", trail)?;
    let items = field(value, "rows", trail)?;
    let dtype = type_of(kind, &Trail::Member(trail, "flat"))?;
    column_of(alloc, dtype, items, &Trail::Member(trail, "rows"))
}

/// Flat rows, or `null` where there are none.
pub fn flat_or_null(
    alloc: Global,
    value: &Value,
    trail: &Trail<'_>,
) -> Result<Option<FlatColumn>, Unread>
    ensures { Gives (λ c. c) result (null_or spec.flat_form (view value.now)) }
{
    if value.is_null() {
        return Ok(None);
    }
    Ok(Some(flat_of(alloc, value, trail)?))
}
