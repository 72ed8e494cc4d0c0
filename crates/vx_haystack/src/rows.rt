//! Sets of rows of any kind.
ghost use Rattle.std.specs.Prelude.{◌≡◌, ◌++◌, Option, Some, IfOk, OnOk, IsOkUnless, map, refl};
ghost use Rattle.std.specs.Cmp.{on_equiv, on_per, on_po, on_total, partial_equiv_from_equiv, eq_by_cmp_equiv, po};
ghost use Rattle.std.specs.List.{list_any};
ghost use Rattle.std.specs.List.Sorted.{IsStrictlySortedBy};
ghost use Rattle.std.specs.Ordering.{is_eq};
ghost use Rattle.vx_buffers.specs.Refs.{row_of_ref};
ghost use Rattle.vx_haystack.specs.Keys.{has_row, value_of};
ghost use Rattle.vx_rows.specs.Order.{row_cmp};
ghost use Rattle.vx_rows.specs.declared.value.Value.{Value as AnyValue};
ghost use Rattle.vx_scalars.proofs.Total.{row_cmp_total};

use crate::sorted::SortedList;
use std::alloc::Global;
use std::cmp::Ordering;
use std::marker::Model;
use vx_buffers::{RowBuffer, RowRef};
use vx_rows::order::row_cmp;
use vx_rows::{ColumnError, Res, Row};

/// A row, in the order of rows.
#[derive(Drop)]
pub(crate) struct RowKey {
    row: Row,
}

impl PartialEq for RowKey {
    ghost eq = { λ a b. is_eq (row_cmp a.row b.row) };

    ghost laws = { on_per (λ k. k.row) (partial_equiv_from_equiv (eq_by_cmp_equiv row_cmp_total)) };

    fn eq(&self, other: &RowKey) -> bool {
        row_cmp(&self.row, &other.row) == Ordering::Equal
    }
}

impl Eq for RowKey {
    ghost laws = { on_equiv (λ k. k.row) (eq_by_cmp_equiv row_cmp_total) };
}

impl PartialOrd for RowKey {
    ghost partial_cmp = { λ a b. Some (row_cmp a.row b.row) };

    ghost laws = { on_po (λ k. k.row) (po row_cmp_total (λ x y. refl)) };

    fn partial_cmp(&self, other: &RowKey) -> Option<Ordering> {
        Some(row_cmp(&self.row, &other.row))
    }
}

impl Ord for RowKey {
    ghost cmp = { λ a b. row_cmp a.row b.row };

    ghost total = { on_total (λ k. k.row) row_cmp_total };

    ghost matches_partial_cmp = { λ a b. refl };

    ghost matches_eq = { λ a b. refl };

    fn cmp(&self, other: &RowKey) -> Ordering {
        row_cmp(&self.row, &other.row)
    }
}

/// Rows of any kind, sorted. Contracts see them as a list.
pub struct RowSet {
    keys: SortedList<RowKey>,
}

impl Drop for RowSet {
    fn drop(self) {
        let RowSet { keys: _ } = self;
    }
}

impl Model for RowSet {
    ghost use Rattle.std.specs.Prelude.{map};
    ghost use Rattle.vx_buffers.specs.Rows.{RowList, rows_code};

    ghost Value = { RowList };

    ghost coded = { rows_code };

    ghost view = { λ s. map (λ k. k.row) s.keys };
}

impl RowSet {
    /// The rows that are values.
    pub(crate) fn new(alloc: Global, rows: &RowBuffer) -> Res<RowSet>
        ensures ok { IfOk result (λ set. (row : Option AnyValue) → has_row set row ≡ has_row rows.now row) }
        ensures err { IsOkUnless result ColumnError.OutOfMemory }
    {
        let mut keys = Vec::new(alloc);
        for i in 0..rows.len() {
            push_valid(&mut keys, rows.row(alloc, i)?)?;
        }
        Ok(RowSet {
            keys: SortedList::new(keys),
        })
    }

    /// Whether the row is a value that is equal to one of the rows.
    pub(crate) fn contains(&self, row: RowRef<'_>) -> bool
        ensures { result ≡ has_row self.now (row_of_ref row.entry) }
    {
        row.is_valid() && found(self.keys.as_slice(), row)
    }
}

/// Whether the row is equal to one of the keys.
fn found(keys: &[RowKey], row: RowRef<'_>) -> bool
    requires { IsStrictlySortedBy (λ a b. row_cmp a.row b.row) keys.now }
    ensures { result ≡ list_any (λ k. is_eq (row_cmp k.row (row_of_ref row.entry))) keys.now }
{
    keys.binary_search_by(move |key| order_to(key, row)).is_ok()
}

/// How the key stands to the row.
fn order_to(key: &RowKey, row: RowRef<'_>) -> Ordering
    ensures { result ≡ row_cmp key.now.row (row_of_ref row.entry) }
{
    row.cmp(&key.row).reverse()
}

/// Puts a row at the end that is a value.
fn push_valid(keys: &mut Vec<RowKey>, row: Row) -> Res<()>
    ensures ok { OnOk result (map (λ k. k.row) keys.new.items ≡ map (λ k. k.row) keys.old.items ++ value_of row) }
    ensures err { IsOkUnless result ColumnError.OutOfMemory }
{
    if row.is_some() {
        keys.push(RowKey { row })?;
    }
    Ok(())
}
