//! Parts out of JSON.
ghost use Rattle.std.specs.Prelude.{◌≡◌};
ghost use Rattle.serde_json.specs.View.{view};
ghost use Rattle.vx_json_rows.specs.Forms.{Gives, list_of};
ghost use Rattle.vx_json.specs.Parts as spec;

use serde_json::Value;
use std::alloc::Global;
use vx_job::{Boxed, Part};
use vx_json_rows::flat::{flat_of, flat_or_null};
use vx_json_rows::forms::{array_of, field, has_field, has_keys, whole_of};
use vx_json_rows::rows::{check_row, row_of};
use vx_json_rows::types::type_of;
use vx_json_rows::{Trail, Unread};
use vx_rows::Seq;

/// The forms of parts, each known by a key that no other has.
#[derive(Clone, Copy, Debug, PartialEq, Eq, Drop)]
pub enum Tag {
    Flat,
    Constant,
    Chunked,
    Lanes,
    Excepted,
    Interleaved,
}

fn tag_of(value: &Value) -> Option<Tag>
    ensures { result ≡ spec.tag_of (view value.now) }
{
    if has_field(value, "flat") {
        Some(Tag::Flat)
    } else if has_field(value, "constant") {
        Some(Tag::Constant)
    } else if has_field(value, "chunked") {
        Some(Tag::Chunked)
    } else if has_field(value, "lanes") {
        Some(Tag::Lanes)
    } else if has_field(value, "excepted") {
        Some(Tag::Excepted)
    } else if has_field(value, "interleaved") {
        Some(Tag::Interleaved)
    } else {
        None
    }
}

/// The keys that name the forms of parts.
const TAGS: [&str; 6] = [
    "flat",
    "constant",
    "chunked",
    "lanes",
    "excepted",
    "interleaved",
];

/// The keys that parts may have.
const KEYS: [&str; 18] = [
    "flat",
    "rows",
    "constant",
    "row",
    "len",
    "chunked",
    "chunks",
    "lanes",
    "n_lanes",
    "offset",
    "lane_offsets",
    "indices",
    "values",
    "excepted",
    "chunk_offsets",
    "interleaved",
    "array_indices",
    "row_indices",
];

#[tactic(auto, unfolding(crate::specs::Parts::constant_form))]
fn constant_of(alloc: Global, value: &Value, trail: &Trail<'_>) -> Result<Part, Unread>
    ensures { Gives (λ p. p) result (spec.constant_form (view value.now)) }
{
    has_keys(value, &["constant", "row", "len"], trail)?;
    let kind = field(value, "constant", trail)?;
    let item = field(value, "row", trail)?;
    let count = field(value, "len", trail)?;
    let dtype = type_of(kind, &Trail::Member(trail, "constant"))?;
    let row_trail = Trail::Member(trail, "row");
    let row = row_of(alloc, &dtype, item, &row_trail)?;
    check_row(&dtype, &row, item, &row_trail)?;
    let len = whole_of(count, &Trail::Member(trail, "len"))?;
    Ok(Part::Constant { dtype, row, len })
}

/// The part that the member of this name is.
#[cycle(parts)]
fn part_in(alloc: Global, value: &Value, name: &str, trail: &Trail<'_>) -> Result<Part, Unread>
    ensures { Gives (λ p. p) result (spec.part_under (view value.now) name.now) }
{
    let child = field(value, name, trail)?;
    part_of(alloc, child, &Trail::Member(&*trail, &*name))
}

/// The list of parts that the member of this name is.
#[cycle(parts)]
fn parts_in(
    alloc: Global,
    value: &Value,
    name: &str,
    trail: &Trail<'_>,
) -> Result<Seq<Part>, Unread>
    ensures { Gives (λ ps. ps) result (spec.parts_under (view value.now) name.now) }
{
    let child = field(value, name, trail)?;
    Ok(Seq::from_vec(parts_of(alloc, child, &Trail::Member(&*trail, &*name))?))
}

#[cycle(parts)]
#[tactic(auto, unfolding(crate::specs::Parts::chunked_form))]
fn chunked_of(alloc: Global, value: &Value, trail: &Trail<'_>) -> Result<Part, Unread>
    ensures { Gives (λ p. p) result (spec.chunked_form (spec.parts_under (view value.now)) (view value.now)) }
{
    has_keys(value, &["chunked", "chunks"], trail)?;
    let kind = field(value, "chunked", trail)?;
    let dtype = type_of(kind, &Trail::Member(&*trail, "chunked"))?;
    let chunks = parts_in(alloc, value, "chunks", trail)?;
    Ok(Part::Chunked { dtype, chunks })
}

#[cycle(parts)]
#[tactic(auto, unfolding(crate::specs::Parts::lanes_form))]
fn lanes_of(alloc: Global, value: &Value, trail: &Trail<'_>) -> Result<Part, Unread>
    ensures { Gives (λ p. p) result (spec.lanes_form (spec.part_under (view value.now)) (view value.now)) }
{
    has_keys(
        value,
        &[
            "lanes",
            "n_lanes",
            "offset",
            "lane_offsets",
            "indices",
            "values",
        ],
        trail,
    )?;
    let lane_count = field(value, "n_lanes", trail)?;
    let shift = field(value, "offset", trail)?;
    let offsets_part = field(value, "lane_offsets", trail)?;
    let indices_part = field(value, "indices", trail)?;
    let values_part = field(value, "values", trail)?;
    let n_lanes = whole_of(lane_count, &Trail::Member(&*trail, "n_lanes"))?;
    let offset = whole_of(shift, &Trail::Member(&*trail, "offset"))?;
    let lane_offsets = flat_of(alloc, offsets_part, &Trail::Member(&*trail, "lane_offsets"))?;
    let indices = flat_of(alloc, indices_part, &Trail::Member(&*trail, "indices"))?;
    let values = flat_of(alloc, values_part, &Trail::Member(&*trail, "values"))?;
    let inner = part_in(alloc, value, "lanes", trail)?;
    Ok(Part::Lanes {
        inner: Boxed::new(alloc, inner)?,
        n_lanes,
        offset,
        lane_offsets,
        indices,
        values,
    })
}

#[cycle(parts)]
#[tactic(auto, unfolding(crate::specs::Parts::excepted_form))]
fn excepted_of(alloc: Global, value: &Value, trail: &Trail<'_>) -> Result<Part, Unread>
    ensures { Gives (λ p. p) result (spec.excepted_form (spec.part_under (view value.now)) (view value.now)) }
{
    has_keys(
        value,
        &["excepted", "offset", "indices", "values", "chunk_offsets"],
        trail,
    )?;
    let shift = field(value, "offset", trail)?;
    let indices_part = field(value, "indices", trail)?;
    let offsets_part = field(value, "chunk_offsets", trail)?;
    let offset = whole_of(shift, &Trail::Member(&*trail, "offset"))?;
    let indices = flat_of(alloc, indices_part, &Trail::Member(&*trail, "indices"))?;
    let chunk_offsets = flat_or_null(
        alloc,
        offsets_part,
        &Trail::Member(&*trail, "chunk_offsets"),
    )?;
    let base = part_in(alloc, value, "excepted", trail)?;
    let values = part_in(alloc, value, "values", trail)?;
    Ok(Part::Excepted {
        base: Boxed::new(alloc, base)?,
        offset,
        indices,
        values: Boxed::new(alloc, values)?,
        chunk_offsets,
    })
}

#[cycle(parts)]
#[tactic(auto, unfolding(crate::specs::Parts::interleaved_form))]
fn interleaved_of(alloc: Global, value: &Value, trail: &Trail<'_>) -> Result<Part, Unread>
    ensures { Gives (λ p. p) result (spec.interleaved_form (spec.parts_under (view value.now)) (view value.now)) }
{
    has_keys(
        value,
        &["interleaved", "array_indices", "row_indices"],
        trail,
    )?;
    let arrays_part = field(value, "array_indices", trail)?;
    let rows_part = field(value, "row_indices", trail)?;
    let array_indices = flat_of(alloc, arrays_part, &Trail::Member(&*trail, "array_indices"))?;
    let row_indices = flat_of(alloc, rows_part, &Trail::Member(&*trail, "row_indices"))?;
    let values = parts_in(alloc, value, "interleaved", trail)?;
    Ok(Part::Interleaved {
        values,
        array_indices,
        row_indices,
    })
}

/// A list of parts.
#[cycle(parts)]
pub fn parts_of(alloc: Global, value: &Value, trail: &Trail<'_>) -> Result<Vec<Part>, Unread>
    ensures { Gives (λ v. v.items) result (list_of spec.part_of (view value.now)) }
{
    let items = array_of(value, trail)?;
    let mut parts = Vec::with_capacity(alloc, items.len())?;
    for item in items {
        parts.push(part_of(alloc, item, &Trail::Item(&*trail, parts.len()))?)?;
    }
    Ok(parts)
}

/// A part. Parts nest as deep as the value does.
#[cycle(parts)]
#[tactic(auto, using(crate::proofs::Members::one_level))]
pub fn part_of(alloc: Global, value: &Value, trail: &Trail<'_>) -> Result<Part, Unread>
    ensures { Gives (λ p. p) result (spec.part_of (view value.now)) }
{
    match tag_of(value) {
        None => Err(Unread::NoForm(trail.untagged(value, &TAGS, &KEYS))),
        Some(Tag::Flat) => Ok(Part::Flat(flat_of(alloc, value, trail)?)),
        Some(Tag::Constant) => constant_of(alloc, value, trail),
        Some(Tag::Chunked) => chunked_of(alloc, value, trail),
        Some(Tag::Lanes) => lanes_of(alloc, value, trail),
        Some(Tag::Excepted) => excepted_of(alloc, value, trail),
        Some(Tag::Interleaved) => interleaved_of(alloc, value, trail),
    }
}
