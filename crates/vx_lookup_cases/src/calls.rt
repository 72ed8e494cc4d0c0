//! Calls on a column.
//!
//! - `["search",V,SIDE]` searches it for a value, which is a type and a row, as `["i32?",null]`, on the side `left` or
//!   `right`;
//! - `["contains",F]` tells which rows are among those of a column, with `null` for a null;
//! - `["row",V,SIDE]` asks one searcher over the rows, which doesn't look whether they are sorted, and
//!   `["compare",V,i]` how row i stands to the value;
//! - the calls of `numbers.rt` ask a searcher over integers.
ghost use Rattle.std.specs.Prelude.{IfOk, IsFalse};
ghost use Rattle.vx_column.specs.Columns.{IsSound, type_of};
ghost use Rattle.vx_rows.specs.Types.{is_nested};

use crate::making::flat_of;
use crate::numbers::numbers_answer;
use crate::sorted::is_sorted_for;
use serde_json::Value;
use std::alloc::{AllocError, Global};
use vx_base::{ColumnError, Ledger, NoLedger, Path, Res, Row, Steps};
use vx_cases::Call;
use vx_cases::columns::{dtype_of, row_of};
use vx_column::Column;
use vx_lookup::{SearchSortedArray, contains, search};
use vx_scalars::Scalar;
use vx_search::{IndexOrd, SearchSorted, SearchSortedSide};

/// The side of this name.
pub(crate) fn side_of(call: &Call<'_>, at: usize) -> SearchSortedSide {
    match call.argument(at).as_str() {
        Some("right") => SearchSortedSide::Right,
        _ => SearchSortedSide::Left,
    }
}

/// What is answered where a call's condition doesn't hold.
pub(crate) fn not_allowed(alloc: Global) -> Res<String> {
    Ok(String::from_str(alloc, "not allowed")?)
}

/// A value, which is refused as `Unsupported` where it is none.
fn scalar_of(alloc: Global, value: &Value) -> Res<Scalar> {
    let row = row_of(alloc, value.get(1).unwrap_or(value)).map_err(|_| {
        ColumnError::Unsupported {
            at: Path::empty(alloc),
        }
    })?;
    match value.get(0).and_then(Value::as_str).and_then(dtype_of) {
        Some(dtype) => Scalar::try_new(alloc, dtype, row),
        None => Err(ColumnError::Unsupported {
            at: Path::empty(alloc),
        }),
    }
}

/// A set, which is refused as `Unsupported` where it is no column.
fn set_of(alloc: Global, value: &Value) -> Res<Column>
    ensures { IfOk result IsSound }
{
    flat_of(alloc, value).map_err(|_| ColumnError::Unsupported {
        at: Path::empty(alloc),
    })
}

fn bits_text(alloc: Global, bits: &[Option<bool>]) -> Result<String, AllocError> {
    let mut text = String::new(alloc);
    for (i, bit) in bits.iter().enumerate() {
        if i > 0 {
            text.push(',')?;
        }
        text.push_str(match bit {
            Some(true) => "true",
            Some(false) => "false",
            None => "null",
        })?;
    }
    Ok(text)
}

fn members<L: Ledger>(
    alloc: Global,
    column: &Column,
    call: &Call<'_>,
    steps: &mut Steps<L>,
) -> Res<String>
    requires { IsSound column.now }
{
    let set = set_of(alloc, call.argument(1))?;
    let bits = contains(alloc, column, &set, steps)?;
    Ok(bits_text(alloc, bits.as_slice())?)
}

fn searched<L: Ledger>(
    alloc: Global,
    column: &Column,
    call: &Call<'_>,
    steps: &mut Steps<L>,
) -> Res<String>
    requires sound { IsSound column.now }
    requires flat { IsFalse (is_nested (type_of column.now)) }
{
    let value = scalar_of(alloc, call.argument(1))?;
    let place = search(alloc, column, &value, side_of(call, 2), steps)?;
    Ok(format!(in alloc; "{place}")?)
}

/// The place of a value among the elements, where they are sorted for it.
pub(crate) fn place_in<S: IndexOrd<V>, V, L: Ledger>(
    rt: &HostRuntime,
    seq: &mut S,
    value: &V,
    side: SearchSortedSide,
    steps: &mut Steps<L>,
) -> Res<String> {
    let mut free = Steps::new(rt, NoLedger::new());
    if !is_sorted_for(seq, value, &mut free)? {
        return not_allowed(rt.alloc());
    }
    let place = seq.search_sorted(value, side, steps)?;
    Ok(format!(in rt.alloc(); "{place}")?)
}

fn compared<L: Ledger>(
    alloc: Global,
    seq: &mut SearchSortedArray,
    row: &Row,
    at: usize,
    steps: &mut Steps<L>,
) -> Res<String> {
    if at >= seq.index_len() {
        return not_allowed(alloc);
    }
    match seq.index_cmp(at, row, steps)? {
        Some(order) => Ok(format!(in alloc; "{order:?}")?),
        None => Ok(String::from_str(alloc, "none")?),
    }
}

/// Asks one searcher over the rows.
fn row_answer<L: Ledger>(
    rt: &HostRuntime,
    column: &Column,
    call: &Call<'_>,
    steps: &mut Steps<L>,
) -> Res<String>
    requires sound { IsSound column.now }
    requires flat { IsFalse (is_nested (type_of column.now)) }
{
    let alloc = rt.alloc();
    let value = scalar_of(alloc, call.argument(1))?;
    let mut seq = SearchSortedArray::new(alloc, column)?;
    if call.name == "compare" {
        return compared(alloc, &mut seq, value.row(), call.number(2), steps);
    }
    place_in(rt, &mut seq, value.row(), side_of(call, 2), steps)
}

/// What a call answers.
pub(crate) fn answer<L: Ledger>(
    rt: &HostRuntime,
    column: &Column,
    call: &Call<'_>,
    steps: &mut Steps<L>,
) -> Res<String>
    requires { IsSound column.now }
{
    let alloc = rt.alloc();
    if column.dtype().is_nested() {
        return not_allowed(alloc);
    }
    match call.name {
        "search" => searched(alloc, column, call, steps),
        "contains" => members(alloc, column, call, steps),
        "row" | "compare" => row_answer(rt, column, call, steps),
        _ => numbers_answer(rt, column, call, steps),
    }
}
