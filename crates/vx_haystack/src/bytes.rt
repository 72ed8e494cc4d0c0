//! Sets of texts and of byte strings.
ghost use Rattle.std.specs.Prelude.{◌≡◌, ◌||◌, ℕ, List, [], Some, IfOk, OnOk, IsOkUnless};
ghost use Rattle.std.specs.Option.{option_copied};
ghost use Rattle.std.specs.Ordering.{is_eq, nat_cmp};
ghost use Rattle.std.specs.Cmp.Lexicographic.{slice_cmp};
ghost use Rattle.vx_buffers.specs.Refs.{row_of_ref};
ghost use Rattle.vx_haystack.specs.Keys.{of_key, keys_of, row_bytes, row_text, row_binary, has_bytes};

use std::alloc::Global;
use std::collections::HashSet;
use std::marker::Model;
use vx_buffers::{RowBuffer, RowRef};
use vx_rows::{ColumnError, Res, Value};

/// The bytes of texts or of byte strings, found by their hashes. Contracts see them in some order.
pub struct BytesSet {
    found: HashSet<Vec<u8>>,
}

impl Drop for BytesSet {
    fn drop(self) {
        let BytesSet { found: _ } = self;
    }
}

impl Model for BytesSet {
    ghost use Rattle.std.specs.Prelude.{ℕ, List, map};

    ghost Value = { List (List ℕ) };

    ghost view = { λ s. map (λ k. k.items) s.found.keys };
}

impl BytesSet {
    /// The bytes of the rows that are texts or byte strings.
    pub(crate) fn new(alloc: Global, rows: &RowBuffer) -> Res<BytesSet>
        ensures ok { IfOk result (λ set. (bytes : List ℕ) → has_bytes set bytes ≡ has_bytes (keys_of row_bytes rows.now) bytes) }
        ensures err { IsOkUnless result ColumnError.OutOfMemory }
    {
        let mut set = BytesSet {
            found: HashSet::new(alloc),
        };
        for i in 0..rows.len() {
            insert_some(&mut set, alloc, bytes_of(rows.get(i)))?;
        }
        Ok(set)
    }

    /// Whether the row is a text whose bytes are in the set.
    pub(crate) fn contains_text(&self, row: RowRef<'_>) -> bool
        ensures { result ≡ of_key (has_bytes self.now) (row_text (row_of_ref row.entry)) }
    {
        match text_of(row) {
            None => false,
            Some(bytes) => self.contains(bytes),
        }
    }

    /// Whether the row is a byte string of the set.
    pub(crate) fn contains_binary(&self, row: RowRef<'_>) -> bool
        ensures { result ≡ of_key (has_bytes self.now) (row_binary (row_of_ref row.entry)) }
    {
        match binary_of(row) {
            None => false,
            Some(bytes) => self.contains(bytes),
        }
    }

    fn contains(&self, bytes: &[u8]) -> bool
        ensures { result ≡ has_bytes self.now bytes.now }
    {
        self.found.contains(bytes)
    }

    fn insert(&mut self, bytes: Vec<u8>) -> Res<()>
        ensures ok { OnOk result ((other : List ℕ) →
            has_bytes self.new other ≡ (is_eq (slice_cmp nat_cmp bytes.items other) || has_bytes self.old other)) }
        ensures err { IsOkUnless result ColumnError.OutOfMemory }
    {
        let _ = self.found.insert(bytes)?;
        Ok(())
    }
}

/// Puts a copy of the bytes into the set, where there are some.
fn insert_some(set: &mut BytesSet, alloc: Global, bytes: Option<&[u8]>) -> Res<()>
    ensures ok { OnOk result ((other : List ℕ) →
        has_bytes set.new other ≡ (of_key (λ k. is_eq (slice_cmp nat_cmp k other)) (option_copied bytes.entry) || has_bytes set.old other)) }
    ensures err { IsOkUnless result ColumnError.OutOfMemory }
{
    match bytes {
        None => Ok(()),
        Some(bytes) => {
            let copy = Vec::from_slice(alloc, bytes)?;
            set.insert(copy)
        }
    }
}

/// The bytes of a text or of a byte string.
fn bytes_of<'a>(row: RowRef<'a>) -> Option<&'a [u8]>
    ensures { option_copied result ≡ row_bytes (row_of_ref row.entry) }
{
    match row {
        RowRef::Utf8(text) => Some(text.as_bytes()),
        RowRef::Binary(bytes) => Some(bytes),
        RowRef::Value(value) => value_bytes(value),
        _ => None,
    }
}

fn value_bytes(value: &Value) -> Option<&[u8]>
    ensures { option_copied result ≡ row_bytes (Some value.now) }
{
    match value {
        Value::Utf8(text) => Some(text.as_str().as_bytes()),
        Value::Binary(bytes) => Some(bytes.as_slice()),
        _ => None,
    }
}

/// The bytes of a text.
fn text_of<'a>(row: RowRef<'a>) -> Option<&'a [u8]>
    ensures { option_copied result ≡ row_text (row_of_ref row.entry) }
{
    match row {
        RowRef::Utf8(text) => Some(text.as_bytes()),
        RowRef::Value(value) => value_text(value),
        _ => None,
    }
}

fn value_text(value: &Value) -> Option<&[u8]>
    ensures { option_copied result ≡ row_text (Some value.now) }
{
    match value {
        Value::Utf8(text) => Some(text.as_str().as_bytes()),
        _ => None,
    }
}

/// The bytes of a byte string.
fn binary_of<'a>(row: RowRef<'a>) -> Option<&'a [u8]>
    ensures { option_copied result ≡ row_binary (row_of_ref row.entry) }
{
    match row {
        RowRef::Binary(bytes) => Some(bytes),
        RowRef::Value(value) => value_binary(value),
        _ => None,
    }
}

fn value_binary(value: &Value) -> Option<&[u8]>
    ensures { option_copied result ≡ row_binary (Some value.now) }
{
    match value {
        Value::Binary(bytes) => Some(bytes.as_slice()),
        _ => None,
    }
}
