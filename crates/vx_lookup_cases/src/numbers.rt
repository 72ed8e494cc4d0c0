//! Calls on a searcher over the integers of a column of `i32` or `u64`, as that type or as another one:
//!
//! - `["i32",N,SIDE]` and `["u64",N,SIDE]`, for a number, to which null counts as zero;
//! - `["i32?",N,SIDE]` and `["u64?",N,SIDE]`, for a number or null, to which null comes first;
//! - `["i32 place",N,SIDE]` and `["u64 place",N,SIDE]`, for a place.
ghost use Rattle.std.specs.Prelude.{◌≡◌, true, Some};
ghost use Rattle.vx_column.specs.Columns.{IsSound, type_of};
ghost use Rattle.vx_search.specs.Numbers.{ptype_of};

use crate::calls::{not_allowed, place_in, side_of};
use vx_base::{DType, Ledger, Res, Steps};
use vx_cases::Call;
use vx_column::Column;
use vx_lookup::{ColumnReader, primitive_searcher};
use vx_search::{NativeInt, SearchSortedPrimitiveArray};

/// Whether the column is of these integers.
fn is_of<T: NativeInt>(column: &Column) -> bool
    ensures { result ≡ true → ptype_of (type_of column.now) ≡ Some T.kind }
{
    match column.dtype() {
        DType::Primitive(ptype, _) => *ptype == T::ptype(),
        _ => false,
    }
}

fn small(call: &Call<'_>) -> Option<i32> {
    match call.argument(1).as_i64() {
        Some(number) => i32::try_from(number).ok(),
        None => None,
    }
}

fn long(call: &Call<'_>) -> Option<u64> {
    call.argument(1).as_u64()
}

/// Asks for a number, for a number or null, or for a place.
fn ask<T: NativeInt, L: Ledger>(
    rt: &HostRuntime,
    mut seq: SearchSortedPrimitiveArray<T, ColumnReader>,
    number: Option<T>,
    call: &Call<'_>,
    steps: &mut Steps<L>,
) -> Res<String> {
    let side = side_of(call, 2);
    if call.name.ends_with(" place") {
        return place_in(rt, &mut seq.places(), &call.number(1), side, steps);
    }
    if call.name.ends_with('?') {
        return place_in(rt, &mut seq, &number, side, steps);
    }
    place_in(rt, &mut seq, &number.unwrap_or(T::zero()), side, steps)
}

fn ask_column<T: NativeInt, L: Ledger>(
    rt: &HostRuntime,
    column: &Column,
    number: Option<T>,
    call: &Call<'_>,
    steps: &mut Steps<L>,
) -> Res<String>
    requires { IsSound column.now }
{
    if !is_of::<T>(column) {
        return not_allowed(rt.alloc());
    }
    let seq = primitive_searcher::<T>(rt.alloc(), column)?;
    ask(rt, seq, number, call, steps)
}

/// What a call on integers answers.
pub(crate) fn numbers_answer<L: Ledger>(
    rt: &HostRuntime,
    column: &Column,
    call: &Call<'_>,
    steps: &mut Steps<L>,
) -> Res<String>
    requires { IsSound column.now }
{
    if call.name.starts_with("i32") {
        ask_column::<i32, L>(rt, column, small(call), call, steps)
    } else {
        ask_column::<u64, L>(rt, column, long(call), call, steps)
    }
}
