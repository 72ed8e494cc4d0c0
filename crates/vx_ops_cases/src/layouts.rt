//! Comparisons of rows under exceptions by lane, as bits.
use crate::reading::{flat_of, operator_of, truths_of, unsupported};
use serde_json::Value;
use std::alloc::{AllocError, Global};
use vx_base::{DType, Ledger, NoLedger, Res, Steps};
use vx_lane_compare::CompareLanes;
use vx_lanes::Lanes;

/// The member of this name; the value itself where there is none.
fn part<'v>(value: &'v Value, name: &str) -> &'v Value {
    value.get(name).unwrap_or(value)
}

fn size(value: &Value, name: &str) -> usize {
    match part(value, name).as_u64() {
        Some(number) => number as usize,
        None => 0,
    }
}

/// The layout that a case says, over integers of the type of its exceptions.
fn lanes_of(rt: &HostRuntime, value: &Value) -> Res<Lanes> {
    let alloc = rt.alloc();
    let lane_offsets = flat_of(alloc, part(value, "lane_offsets"))?;
    let indices = flat_of(alloc, part(value, "indices"))?;
    let values = flat_of(alloc, part(value, "values"))?;
    let DType::Primitive(ptype, nullability) = values.dtype() else {
        return Err(unsupported(alloc));
    };
    let dtype = DType::Primitive(*ptype, *nullability);
    let len = size(value, "len");
    let n_lanes = size(value, "n_lanes");
    let offset = size(value, "offset");
    let mut steps = Steps::new(rt, NoLedger::new());
    Lanes::try_new(
        alloc,
        &dtype,
        len,
        n_lanes,
        offset,
        lane_offsets,
        indices,
        values,
        &mut steps,
    )
}

/// The bits of a case, rewritten where there are exceptions.
pub(crate) fn told<L: Ledger>(
    rt: &HostRuntime,
    lanes: &Value,
    case: &Value,
    steps: &mut Steps<L>,
) -> Res<String> {
    let alloc = rt.alloc();
    let lanes = lanes_of(rt, lanes)?;
    let op = operator_of(alloc, part(case, "op"))?;
    let Some(value) = part(case, "value").as_i64() else {
        return Err(unsupported(alloc));
    };
    let mut bits = truths_of(alloc, part(case, "bits"))?;
    if bits.len() != lanes.len() {
        return Ok(String::from_str(alloc, "not allowed")?);
    }
    lanes.compare_bits(bits.as_mut_slice(), op, value as i128, steps);
    Ok(truths_text(alloc, bits.as_slice())?)
}

/// The bits, with commas between them.
fn truths_text(alloc: Global, bits: &[Option<bool>]) -> Result<String, AllocError> {
    let mut text = String::new(alloc);
    for (i, bit) in bits.iter().enumerate() {
        if i > 0 {
            text.push(',')?;
        }
        push_truth(&mut text, *bit)?;
    }
    Ok(text)
}

fn push_truth(text: &mut String, bit: Option<bool>) -> Result<(), AllocError> {
    match bit {
        Some(truth) => write!(text, "{truth}"),
        None => write!(text, "null"),
    }
}
