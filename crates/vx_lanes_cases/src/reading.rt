//! Lane layouts out of the JSON of a case.
ghost use Rattle.std.specs.Prelude.{◌≡◌};
ghost use Rattle.vx_base.specs.Numbers as numbers;

use crate::lanes::AskedLanes;
use serde_json::Value;
use std::alloc::Global;
use std::io;
use vx_base::{DType, NoLedger, Res, Row, Steps};
use vx_cases::columns::{column_of, dtype_of, member, number, row_of};
use vx_lanes::Lanes;

/// The layout that a case says.
pub(crate) fn lanes_of(rt: &HostRuntime, value: &Value) -> io::Result<Res<AskedLanes>> {
    let alloc = rt.alloc();
    let lane_offsets = column_of(alloc, member(value, "lane_offsets")?)?;
    let indices = column_of(alloc, member(value, "indices")?)?;
    let values = column_of(alloc, member(value, "values")?)?;
    let len = number(value, "len")?;
    let n_lanes = number(value, "n_lanes")?;
    let offset = number(value, "offset")?;
    let dtype = named_dtype(value.get("dtype").and_then(Value::as_str).unwrap_or("u16"))?;
    if !is_integer(&dtype) {
        return Err(io::Error::other("lanes are over integers"));
    }
    let mut steps = Steps::new(rt, NoLedger::new());
    let lanes = Lanes::try_new(
        alloc,
        &dtype,
        len,
        n_lanes,
        offset,
        lane_offsets,
        indices,
        values,
        &mut steps,
    );
    Ok(asked(lanes))
}

fn asked(lanes: Res<Lanes>) -> Res<AskedLanes> {
    Ok(AskedLanes { lanes: lanes? })
}

fn named_dtype(name: &str) -> io::Result<DType> {
    dtype_of(name).ok_or(io::Error::other("a type has no such name"))
}

fn is_integer(dtype: &DType) -> bool
    ensures { result ≡ numbers.is_integer dtype.now }
{
    matches!(dtype, DType::Primitive(_, _))
}

/// The rows of a list; none where it is no list.
pub(crate) fn rows_of(alloc: Global, value: &Value) -> io::Result<Vec<Row>> {
    let mut rows = Vec::new(alloc);
    if let Some(values) = value.as_array() {
        for value in values {
            rows.push(row_of(alloc, value)?)?;
        }
    }
    Ok(rows)
}
