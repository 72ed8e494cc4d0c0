//! Readers of what JSON forms are made of.
ghost use Rattle.std.specs.Prelude.{◌≡◌, length, MatchOption};
ghost use Rattle.std.specs.Prelude.{Option};
ghost use Rattle.serde_json.specs.Data.{Data};
ghost use Rattle.serde_json.specs.Find.{get, as_array, as_str, as_bool};
ghost use Rattle.serde_json.specs.View.{view, items_view};
ghost use Rattle.vx_json_rows.specs.Forms.{Gives, has, object_of, whole_of as whole_spec, integer_of as integer_spec};
ghost use Rattle.vx_json_rows.specs.Forms.{list_of, null_or, pair_of};

use crate::reason::{Reason, Trail};
use serde_json::Value;
use std::alloc::{AllocError, AllocFailed, Global};
use vx_rows::Seq;

/// Why a value was not read.
#[derive(Debug)]
pub enum Unread {
    /// It hasn't the form, for this reason.
    NoForm(Reason),
    /// There was no memory left.
    OutOfMemory,
}

// Written out, so that letting it go is one call at each way out of a form.
impl Drop for Unread {
    fn drop(self) {
        match self {
            Unread::NoForm(_reason) => {}
            Unread::OutOfMemory => {}
        }
    }
}

impl Unread {
    /// The reason why a value hasn't the form. There is none where memory ran out.
    pub fn into_reason(self) -> Option<Reason>
        ensures { MatchOption result (self ≡ Unread.OutOfMemory) (λ reason. self ≡ Unread.NoForm reason) }
    {
        match self {
            Unread::NoForm(reason) => Some(reason),
            Unread::OutOfMemory => None,
        }
    }
}

impl From<AllocError> for Unread {
    ghost use Rattle.std.specs.Prelude.{◌≡◌};
    ghost use Rattle.vx_json_rows.specs.declared.forms.Unread.TheVariants.{OutOfMemory};

    ghost from_gives = { λ _ e. e ≡ OutOfMemory };

    fn from(_refused: AllocError) -> Unread {
        Unread::OutOfMemory
    }
}

impl<T: Drop> From<AllocFailed<T>> for Unread {
    ghost use Rattle.std.specs.Prelude.{◌≡◌};
    ghost use Rattle.vx_json_rows.specs.declared.forms.Unread.TheVariants.{OutOfMemory};

    ghost from_gives = { λ _ e. e ≡ OutOfMemory };

    fn from(_refused: AllocFailed<T>) -> Unread {
        Unread::OutOfMemory
    }
}

/// Refuses all but an object of as many members as there are keys.
pub fn has_keys(value: &Value, keys: &[&str], trail: &Trail<'_>) -> Result<(), Unread>
    ensures { Gives (λ _. tt) result (object_of (length keys.now) (view value.now)) }
{
    match value.as_object() {
        Some(members) => {
            if members.len() == keys.len() {
                Ok(())
            } else {
                Err(Unread::NoForm(trail.other_keys(members, keys)))
            }
        }
        None => Err(Unread::NoForm(trail.is_no(value, "object"))),
    }
}

/// The member of this name.
pub fn field<'v>(value: &'v Value, name: &str, trail: &Trail<'_>) -> Result<&'v Value, Unread>
    ensures { Gives (λ v. view v.now) result (get name.now (view value.now)) }
{
    match value.get(name) {
        Some(member) => Ok(member),
        None => Err(Unread::NoForm(trail.missing_key(name))),
    }
}

/// Whether it is an object with a member of this name.
pub fn has_field(value: &Value, name: &str) -> bool
    ensures { result ≡ has name.now (view value.now) }
{
    value.get(name).is_some()
}

/// A list of any values.
pub fn array_of<'v>(value: &'v Value, trail: &Trail<'_>) -> Result<&'v Vec<Value>, Unread>
    ensures { Gives (λ v. items_view v.now.items) result (as_array (view value.now)) }
{
    match value.as_array() {
        Some(items) => Ok(items),
        None => Err(Unread::NoForm(trail.is_no(value, "list"))),
    }
}

/// A text.
pub fn text_of<'v>(value: &'v Value, trail: &Trail<'_>) -> Result<&'v str, Unread>
    ensures { Gives (λ s. s.now) result (as_str (view value.now)) }
{
    match value.as_str() {
        Some(text) => Ok(text),
        None => Err(Unread::NoForm(trail.is_no(value, "text"))),
    }
}

/// A boolean.
pub fn bool_of(value: &Value, trail: &Trail<'_>) -> Result<bool, Unread>
    ensures { Gives (λ b. b) result (as_bool (view value.now)) }
{
    match value.as_bool() {
        Some(flag) => Ok(flag),
        None => Err(Unread::NoForm(trail.is_no(value, "boolean"))),
    }
}

/// A whole number that isn't negative.
pub fn whole_of(value: &Value, trail: &Trail<'_>) -> Result<usize, Unread>
    ensures { Gives (λ n. n) result (whole_spec (view value.now)) }
{
    match value.as_u64() {
        Some(number) => Ok(number as usize),
        None => Err(Unread::NoForm(trail.is_no(value, "whole number from 0 to 2^64 - 1"))),
    }
}

/// A whole number of either sign.
pub fn integer_of(value: &Value, trail: &Trail<'_>) -> Result<i128, Unread>
    ensures { Gives (λ z. z) result (integer_spec (view value.now)) }
{
    if let Value::Number(number) = value
        && let Some(integer) = number.as_i128()
    {
        return Ok(integer);
    }
    Err(Unread::NoForm(trail.is_no(value, "whole number from -2^63 to 2^64 - 1")))
}

/// Two whole numbers.
pub fn pair_of_wholes(value: &Value, trail: &Trail<'_>) -> Result<(usize, usize), Unread>
    ensures { Gives (λ p. p) result (pair_of whole_spec whole_spec (view value.now)) }
{
    let items = array_of(value, trail)?.as_slice();
    if items.len() != 2 {
        return Err(Unread::NoForm(trail.is_no(value, "list of two whole numbers")));
    }
    match items {
        [first, second] => Ok((
            whole_of(first, &Trail::Item(trail, 0))?,
            whole_of(second, &Trail::Item(trail, 1))?,
        )),
        _ => unreachable!(),
    }
}

/// What a list is made of, each item being read by itself.
pub trait Item: Sized + Drop {
    /// What a value is, where it is an item.
    ghost form: { Data → Option Self };

    fn read(alloc: Global, value: &Value, trail: &Trail<'_>) -> Result<Self, Unread>
        ensures { Gives (λ x. x) result (form (view value.now)) };
}

impl Item for usize {
    ghost form = { whole_spec };

    fn read(_alloc: Global, value: &Value, trail: &Trail<'_>) -> Result<usize, Unread>
        ensures { Gives (λ n. n) result (whole_spec (view value.now)) }
    {
        whole_of(value, trail)
    }
}

impl Item for Option<usize> {
    ghost form = { null_or whole_spec };

    fn read(_alloc: Global, value: &Value, trail: &Trail<'_>) -> Result<Option<usize>, Unread>
        ensures { Gives (λ o. o) result (null_or whole_spec (view value.now)) }
    {
        if value.is_null() {
            return Ok(None);
        }
        Ok(Some(whole_of(value, trail)?))
    }
}

impl Item for bool {
    ghost form = { as_bool };

    fn read(_alloc: Global, value: &Value, trail: &Trail<'_>) -> Result<bool, Unread>
        ensures { Gives (λ b. b) result (as_bool (view value.now)) }
    {
        bool_of(value, trail)
    }
}

impl Item for (usize, usize) {
    ghost form = { pair_of whole_spec whole_spec };

    fn read(_alloc: Global, value: &Value, trail: &Trail<'_>) -> Result<(usize, usize), Unread>
        ensures { Gives (λ p. p) result (pair_of whole_spec whole_spec (view value.now)) }
    {
        pair_of_wholes(value, trail)
    }
}

/// A list of items.
pub fn items_of<T: Item>(alloc: Global, value: &Value, trail: &Trail<'_>) -> Result<Vec<T>, Unread>
    ensures { Gives (λ v. v.items) result (list_of T.form (view value.now)) }
{
    let values = array_of(value, trail)?;
    let mut items = Vec::with_capacity(alloc, values.len())?;
    for item in values {
        items.push(T::read(alloc, item, &Trail::Item(trail, items.len()))?)?;
    }
    Ok(items)
}

/// A list of items, which isn't changed any more.
pub fn seq_of<T: Item>(alloc: Global, value: &Value, trail: &Trail<'_>) -> Result<Seq<T>, Unread>
    ensures { Gives (λ s. s) result (list_of T.form (view value.now)) }
{
    Ok(Seq::from_vec(items_of(alloc, value, trail)?))
}
