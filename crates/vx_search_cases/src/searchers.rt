//! Searchers over what a case says.
//!
//! The calls are those of `answer_of` and of `answer_sorted` in `asking.rt`, where V is a number; over integers also
//! `{"option":V}`, `{"option":null}` or `{"place":V}`, a number, a null or a place. Further calls are
//!
//! - `["by",V,SIDE]`, over `slice` and `integers`, by closures that look at the values;
//! - `["read",i]`, over a reader, its entry i, and of how many;
//! - `["type"]`, the type of the integers.
ghost use Rattle.std.specs.Prelude.{◌≡◌, true, Some, IsTrue, length};
ghost use Rattle.vx_base.specs.Numbers.{is_integer};
ghost use Rattle.vx_search.specs.Numbers.{ptype_of};

use crate::asking::{answer_of, not_allowed, side_of};
use crate::closures::{back_of, front_of};
use num_traits::NumCast;
use serde_json::Value;
use std::alloc::{AllocError, Global};
use std::io;
use vx_base::{DType, FlatColumn, Ledger, PType, Res, Steps};
use vx_cases::columns::{column_of, member};
use vx_cases::{Asked, Call};
use vx_search::{
    FlatReader, NativeInt, RowReader, SearchSorted, SearchSortedPrimitiveArray, SearchSortedSide,
    SliceReader, SortedSlice,
};

/// What is searched, and through what.
#[derive(Drop)]
pub(crate) struct Searched<'a> {
    rt: &'a HostRuntime,
    over: &'a str,
    column: FlatColumn,
    rows: &'a Value,
}

/// What the case says.
pub(crate) fn searched_of<'a>(
    rt: &'a HostRuntime,
    over: &'a str,
    case: &'a Value,
) -> io::Result<Searched<'a>> {
    let values = member(case, "values")?;
    Ok(Searched {
        rt,
        over,
        column: column_of(rt.alloc(), values)?,
        rows: values.get(1).unwrap_or(values),
    })
}

/// A number of JSON, if the type has it.
fn number_of<T: NativeInt>(value: &Value) -> Option<T> {
    match value.as_u64() {
        Some(number) => <T as NumCast>::from(number),
        None => <T as NumCast>::from(value.as_i64()?),
    }
}

/// The numbers among the rows.
fn numbers_of<T: NativeInt>(alloc: Global, rows: &Value) -> Result<Vec<T>, AllocError> {
    let mut numbers = Vec::new(alloc);
    if let Some(rows) = rows.as_array() {
        for row in rows {
            if let Some(number) = number_of(row) {
                numbers.push(number)?;
            }
        }
    }
    Ok(numbers)
}

/// Whether the column is of these integers.
fn is_of<T: NativeInt>(column: &FlatColumn) -> bool
    ensures kind { result ≡ true → ptype_of column.now.dtype ≡ Some T.kind }
    ensures integer { result ≡ true → IsTrue (is_integer column.now.dtype) }
{
    match column.dtype() {
        DType::Primitive(ptype, _) => *ptype == T::ptype(),
        _ => false,
    }
}

/// The number of a call's first argument; 0 where it is none, or none of the type.
fn value_of<T: NativeInt>(call: &Call<'_>) -> T {
    number_of(call.argument(1)).unwrap_or(T::zero())
}

/// By closures that look at values.
fn by_values<S: SearchSorted<T>, T: Ord, L: Ledger>(
    alloc: Global,
    seq: &mut S,
    values: &[T],
    value: &T,
    side: SearchSortedSide,
    steps: &mut Steps<L>,
) -> Res<String>
    requires { length values.now ≡ length (S.sequence seq.old) }
{
    let place = match side {
        SearchSortedSide::Left => front_of(seq, values, value, steps)?,
        SearchSortedSide::Right => back_of(seq, values, value, steps)?,
    };
    Ok(format!(in alloc; "{place}")?)
}

fn ask_slice<T: NativeInt, L: Ledger>(
    rt: &HostRuntime,
    numbers: &[T],
    call: &Call<'_>,
    steps: &mut Steps<L>,
) -> Res<String> {
    let mut seq = SortedSlice::new(numbers);
    let value = value_of::<T>(call);
    if call.name == "by" {
        return by_values(
            rt.alloc(),
            &mut seq,
            numbers,
            &value,
            side_of(call, 2),
            steps,
        );
    }
    answer_of(rt, &mut seq, &value, call, steps)
}

fn ask_integers<T: NativeInt, L: Ledger>(
    rt: &HostRuntime,
    numbers: &[T],
    call: &Call<'_>,
    steps: &mut Steps<L>,
) -> Res<String> {
    let mut seq = SearchSortedPrimitiveArray::<T, _>::from_slice(numbers);
    let value = value_of::<T>(call);
    if call.name == "by" {
        return by_values(
            rt.alloc(),
            &mut seq,
            numbers,
            &value,
            side_of(call, 2),
            steps,
        );
    }
    ask_array(rt, seq, call, steps)
}

fn ask_reader<T: NativeInt, L: Ledger>(
    rt: &HostRuntime,
    numbers: &[T],
    call: &Call<'_>,
    steps: &mut Steps<L>,
) -> Res<String> {
    let reader = SliceReader::new(numbers);
    if call.name == "read" {
        return read(rt.alloc(), reader, call.number(1), steps);
    }
    ask_array(
        rt,
        SearchSortedPrimitiveArray::<T, _>::over(reader),
        call,
        steps,
    )
}

fn ask_flat<T: NativeInt, L: Ledger>(
    rt: &HostRuntime,
    column: &FlatColumn,
    call: &Call<'_>,
    steps: &mut Steps<L>,
) -> Res<String> {
    if !is_of::<T>(column) {
        return not_allowed(rt.alloc());
    }
    let seq = SearchSortedPrimitiveArray::<T, _>::from_flat(column);
    ask_array(rt, seq, call, steps)
}

fn ask_flat_reader<T: NativeInt, L: Ledger>(
    rt: &HostRuntime,
    column: &FlatColumn,
    call: &Call<'_>,
    steps: &mut Steps<L>,
) -> Res<String> {
    if !is_of::<T>(column) {
        return not_allowed(rt.alloc());
    }
    let reader = FlatReader::new(column);
    if call.name == "read" {
        return read(rt.alloc(), reader, call.number(1), steps);
    }
    ask_array(
        rt,
        SearchSortedPrimitiveArray::<T, _>::over(reader),
        call,
        steps,
    )
}

/// How many entries the reader has, and one of them.
fn read<R: RowReader + Drop, L: Ledger>(
    alloc: Global,
    mut reader: R,
    i: usize,
    steps: &mut Steps<L>,
) -> Res<String> {
    let len = reader.len();
    if i >= len {
        return not_allowed(alloc);
    }
    let number = reader.int_at(i, steps)?;
    Ok(format!(in alloc; "{number:?} of {len}")?)
}

/// Asks for a number, an option of one, or a place.
fn ask_array<T: NativeInt, R: RowReader + Drop, L: Ledger>(
    rt: &HostRuntime,
    mut seq: SearchSortedPrimitiveArray<T, R>,
    call: &Call<'_>,
    steps: &mut Steps<L>,
) -> Res<String> {
    let said = call.argument(1);
    if let Some(place) = said.get("place").and_then(Value::as_u64) {
        return answer_of(rt, &mut seq.places(), &(place as usize), call, steps);
    }
    if let Some(option) = said.get("option") {
        return answer_of(rt, &mut seq, &number_of::<T>(option), call, steps);
    }
    answer_of(rt, &mut seq, &value_of::<T>(call), call, steps)
}

fn type_text<T: NativeInt>(alloc: Global) -> Result<String, AllocError> {
    format!(in alloc; "{:?}", T::ptype())
}

/// Asks through a slice.
fn ask_numbers<T: NativeInt, L: Ledger>(
    rt: &HostRuntime,
    over: &str,
    numbers: &[T],
    call: &Call<'_>,
    steps: &mut Steps<L>,
) -> Res<String> {
    match over {
        "slice" => ask_slice(rt, numbers, call, steps),
        "integers" => ask_integers(rt, numbers, call, steps),
        "reader" => ask_reader(rt, numbers, call, steps),
        _ => not_allowed(rt.alloc()),
    }
}

impl<'a> Searched<'a> {
    fn ask<T: NativeInt, L: Ledger>(&self, call: &Call<'_>, steps: &mut Steps<L>) -> Res<String> {
        if call.name == "type" {
            return Ok(type_text::<T>(self.rt.alloc())?);
        }
        match self.over {
            "flat" => ask_flat::<T, L>(self.rt, &self.column, call, steps),
            "flat_reader" => ask_flat_reader::<T, L>(self.rt, &self.column, call, steps),
            _ => {
                let numbers = numbers_of::<T>(self.rt.alloc(), self.rows)?;
                ask_numbers(self.rt, self.over, numbers.as_slice(), call, steps)
            }
        }
    }
}

impl<'a> Asked for Searched<'a> {
    fn shape(&self, alloc: Global) -> Result<String, AllocError> {
        Ok(String::new(alloc))
    }

    fn makes(&self, _call: &Call<'_>) -> bool {
        false
    }

    fn made<L: Ledger>(
        &self,
        _alloc: Global,
        _call: &Call<'_>,
        _steps: &mut Steps<L>,
    ) -> Res<Option<Self>> {
        Ok(None)
    }

    fn answer<L: Ledger>(
        &self,
        alloc: Global,
        call: &Call<'_>,
        steps: &mut Steps<L>,
    ) -> Res<String> {
        let DType::Primitive(ptype, _) = self.column.dtype() else {
            return not_allowed(alloc);
        };
        match ptype {
            PType::U8 => self.ask::<u8, L>(call, steps),
            PType::U16 => self.ask::<u16, L>(call, steps),
            PType::U32 => self.ask::<u32, L>(call, steps),
            PType::U64 => self.ask::<u64, L>(call, steps),
            PType::I8 => self.ask::<i8, L>(call, steps),
            PType::I16 => self.ask::<i16, L>(call, steps),
            PType::I32 => self.ask::<i32, L>(call, steps),
            PType::I64 => self.ask::<i64, L>(call, steps),
        }
    }
}
