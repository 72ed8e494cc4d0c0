//! Rows that move from one store to another.
ghost use Rattle.std.specs.Prelude.{◌≡◌, ◌<◌, [], ◌∷◌, ◌++◌, length, vec_len, Option, IfOk, OnOk, OnErr};
ghost use Rattle.vx_rows.specs.declared.value.Value.{Value as AnyValue};
ghost use Rattle.vx_buffers.specs.Rows.{RowList};
ghost use Rattle.vx_buffers.specs.Stores.{rows_of, Moved};

use crate::store::Store;
use std::alloc::AllocError;
use vx_rows::Row;

/// Moves the last row of one store to the end of the other where neither packs it, and says whether it did. A refusal leaves both as
/// they were.
pub(crate) fn move_last(from: &mut Store, to: &mut Store) -> Result<bool, AllocError>
    requires { 0 < length (rows_of from.old) }
    ensures ok { IfOk result (λ moved. Moved moved (rows_of from.old) (rows_of from.new) (rows_of to.old) (rows_of to.new)) }
    ensures err { OnErr result ((rows_of from.new ≡ rows_of from.old) × (rows_of to.new ≡ rows_of to.old)) }
{
    match from {
        Store::Rows(rows) => move_row(rows, to),
        _ => Ok(false),
    }
}

fn move_row(from: &mut Vec<Row>, to: &mut Store) -> Result<bool, AllocError>
    requires { 0 < vec_len from.old }
    ensures ok { IfOk result (λ moved. Moved moved from.old.items from.new.items (rows_of to.old) (rows_of to.new)) }
    ensures err { OnErr result ((from.new.items ≡ from.old.items) × (rows_of to.new ≡ rows_of to.old)) }
{
    match to {
        Store::Rows(rows) => {
            // Room first, since a row that was taken away is not to be lost.
            rows.push(None)?;
            let last = rows.len() - 1;
            rows[last] = pop_row(from);
            Ok(true)
        }
        _ => Ok(false),
    }
}

fn pop_row(rows: &mut Vec<Row>) -> Row
    requires { 0 < vec_len rows.old }
    ensures { rows.old.items ≡ rows.new.items ++ result ∷ [] }
{
    match rows.pop() {
        Some(row) => row,
        None => None,
    }
}
