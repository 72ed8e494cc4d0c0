//! Growable lists of rows, packed by kind.
ghost use Rattle.std.specs.Prelude.{◌≡◌, ◌<◌, ◌≤◌, [], ◌∷◌, ◌++◌, nat_eq, length, take, reverse, replicate, get_or, Some, None, is_some, IfOk, OnOk, OnErr, IsOk, IsOkUnless, IsFalse, Option};
ghost use Rattle.std.specs.List.{slice_range};
ghost use Rattle.vx_rows.specs.Fits.{rows_fit};
ghost use Rattle.vx_rows.specs.Order.{row_cmp};
ghost use Rattle.vx_rows.specs.Sizes.{row_takes_memory};
ghost use Rattle.vx_rows.specs.declared.value.Value.{Value as AnyValue, Bool as BoolValue, Int as IntValue, Decimal as DecimalValue, Utf8 as Utf8Value, Binary as BinaryValue};
ghost use Rattle.vx_buffers.specs.Numbers.{row_int};
ghost use Rattle.vx_buffers.specs.Refs.{row_of_ref};
ghost use Rattle.vx_buffers.specs.Rows.{RowList};
ghost use Rattle.vx_buffers.specs.Stores.{bool_rows, int_rows, long_rows, decimal_rows, text_rows, binary_rows};

use crate::binaries::Binaries;
use crate::fitting::store_fits;
use crate::moves::move_last;
use crate::offers::{offer, offer_range};
use crate::row_ref::RowRef;
use crate::slots::Slots;
use crate::store::Store;
use crate::texts::Texts;
use std::alloc::Global;
use std::cmp::Ordering;
use std::marker::Model;
use std::ops::Range;
use vx_rows::{ColumnError, DType, Res, Row, Seq};

/// A growable list of rows. Booleans, integers, decimals, texts and byte strings are packed, if all values are of one kind: a
/// row of another kind than the buffer packs is taken too, and then none is packed. Contracts see the list of rows.
pub struct RowBuffer {
    store: Store,
}

impl Drop for RowBuffer {
    fn drop(self) {
        let RowBuffer { store: _ } = self;
    }
}

impl Model for RowBuffer {
    ghost use Rattle.vx_buffers.specs.Rows.{RowList, rows_code};

    ghost Value = { RowList };

    ghost coded = { rows_code };

    ghost use Rattle.vx_buffers.specs.Stores.{rows_of};

    ghost view = { λ b. rows_of b.store };
}

impl RowBuffer {
    /// No rows, to be packed as rows of the type.
    pub fn new(alloc: Global, dtype: &DType) -> RowBuffer
        ensures { result ≡ [] }
    {
        RowBuffer {
            store: Store::new(alloc, dtype),
        }
    }

    /// The rows, packed as rows of the type. Where the type isn't packed they are not copied.
    pub fn from_rows(alloc: Global, dtype: &DType, rows: Seq<Row>) -> Res<RowBuffer>
        ensures ok { IfOk result (λ b. b ≡ rows) }
        ensures err { IsOkUnless result ColumnError.OutOfMemory }
    {
        match dtype {
            DType::List(_, _) | DType::FixedSizeList(_, _, _) | DType::Struct(_, _) => Ok(
                RowBuffer {
                    store: Store::Rows(rows.into_vec()),
                },
            ),
            _ => packed(alloc, dtype, rows.as_slice()),
        }
    }

    /// Booleans as rows. This and the five below move the list, and look at none of its elements.
    pub fn from_bools(truths: Slots<bool>) -> RowBuffer
        ensures { result ≡ bool_rows truths }
    {
        RowBuffer {
            store: Store::Bools(truths),
        }
    }

    /// Integers of a type other than `u64` as rows.
    pub fn from_ints(numbers: Slots<i64>) -> RowBuffer
        ensures { result ≡ int_rows numbers }
    {
        RowBuffer {
            store: Store::Ints(numbers),
        }
    }

    /// Integers of type `u64` as rows.
    pub fn from_longs(numbers: Slots<u64>) -> RowBuffer
        ensures { result ≡ long_rows numbers }
    {
        RowBuffer {
            store: Store::Longs(numbers),
        }
    }

    /// The unscaled numbers of decimals as rows.
    pub fn from_decimals(unscaled: Slots<i128>) -> RowBuffer
        ensures { result ≡ decimal_rows unscaled }
    {
        RowBuffer {
            store: Store::Decimals(unscaled),
        }
    }

    /// Texts as rows.
    pub fn from_texts(texts: Texts) -> RowBuffer
        ensures { result ≡ text_rows texts }
    {
        RowBuffer {
            store: Store::Texts(texts),
        }
    }

    /// Byte strings as rows.
    pub fn from_binaries(binaries: Binaries) -> RowBuffer
        ensures { result ≡ binary_rows binaries }
    {
        RowBuffer {
            store: Store::Binaries(binaries),
        }
    }

    /// The number of rows.
    pub fn len(&self) -> usize
        ensures { result ≡ length self.now }
    {
        self.store.len()
    }

    /// Whether there is no row.
    pub fn is_empty(&self) -> bool
        ensures { result ≡ nat_eq (length self.now) 0 }
    {
        self.len() == 0
    }

    /// Row `i`, lent.
    pub fn get(&self, i: usize) -> RowRef<'_>
        requires { i < length self.now }
        ensures { row_of_ref result ≡ get_or self.now i None }
    {
        self.store.get(i)
    }

    /// A copy of row `i`. Nulls, booleans, integers and decimals take no memory.
    pub fn row(&self, alloc: Global, i: usize) -> Res<Row>
        requires { i < length self.now }
        ensures ok { IfOk result (λ r. r ≡ get_or self.now i None) }
        ensures err { IsOkUnless result ColumnError.OutOfMemory }
        ensures free { IsFalse (row_takes_memory (get_or self.now i None)) → IsOk result }
    {
        self.get(i).to_row(alloc)
    }

    /// The number of row `i`, where it is an integer.
    pub fn int(&self, i: usize) -> Option<i128>
        requires { i < length self.now }
        ensures { result ≡ row_int (get_or self.now i None) }
    {
        self.get(i).int()
    }

    /// Whether row `i` is a value.
    pub fn is_valid(&self, i: usize) -> bool
        requires { i < length self.now }
        ensures { result ≡ is_some (get_or self.now i None) }
    {
        self.get(i).is_valid()
    }

    /// How row `i` stands to `elem`. Takes no memory.
    pub fn cmp(&self, i: usize, elem: &Row) -> Ordering
        requires { i < length self.now }
        ensures { result ≡ row_cmp (get_or self.now i None) elem.now }
    {
        self.get(i).cmp(elem)
    }

    /// Copies of the rows of the range.
    pub fn copies(&self, alloc: Global, range: Range<usize>) -> Res<Seq<Row>>
        requires order { range.start ≤ range.end }
        requires inside { range.end ≤ length self.now }
        ensures ok { IfOk result (λ rs. rs ≡ slice_range self.now range.start range.end) }
        ensures err { IsOkUnless result ColumnError.OutOfMemory }
    {
        self.store.copies(alloc, range)
    }

    /// Whether each row fits the type, in one pass over what is packed.
    pub fn fits(&self, dtype: &DType) -> bool
        ensures { result ≡ rows_fit dtype.now self.now }
    {
        store_fits(&self.store, dtype)
    }

    /// Puts a row at the end. Where it isn't of the kind that is packed, the rows are unpacked first. A refusal drops
    /// it, and leaves the others as they were.
    pub fn push(&mut self, alloc: Global, row: Row) -> Res<()>
        ensures ok { OnOk result (self.new ≡ self.old ++ row ∷ []) }
        ensures err { OnErr result (self.new ≡ self.old) }
        ensures refuses { IsOkUnless result ColumnError.OutOfMemory }
    {
        if offer(&mut self.store, &RowRef::new(&row))? {
            return Ok(());
        }
        self.push_unpacked(alloc, row)
    }

    /// Puts a copy of the row at the end, as `push` does. A copy of a row that is packed takes no memory of its own.
    pub fn push_ref(&mut self, alloc: Global, row: RowRef<'_>) -> Res<()>
        ensures ok { OnOk result (self.new ≡ self.old ++ row_of_ref row.entry ∷ []) }
        ensures err { OnErr result (self.new ≡ self.old) }
        ensures refuses { IsOkUnless result ColumnError.OutOfMemory }
    {
        if offer(&mut self.store, &row)? {
            return Ok(());
        }
        let copy = row.to_row(alloc)?;
        self.push_unpacked(alloc, copy)
    }

    /// Puts a row at the end, and packs none.
    fn push_unpacked(&mut self, alloc: Global, row: Row) -> Res<()>
        ensures ok { OnOk result (self.new ≡ self.old ++ row ∷ []) }
        ensures err { OnErr result (self.new ≡ self.old) }
        ensures refuses { IsOkUnless result ColumnError.OutOfMemory }
    {
        if let Store::Rows(rows) = &mut self.store {
            rows.push(row)?;
            return Ok(());
        }
        let mut rows = self.store.unpacked(alloc)?;
        rows.push(row)?;
        self.store = Store::Rows(rows);
        Ok(())
    }

    /// Puts a null at the end, as `push` does.
    pub fn push_null(&mut self, alloc: Global) -> Res<()>
        ensures ok { OnOk result (self.new ≡ self.old ++ None ∷ []) }
        ensures err { OnErr result (self.new ≡ self.old) }
        ensures refuses { IsOkUnless result ColumnError.OutOfMemory }
    {
        self.push_ref(alloc, RowRef::Null)
    }

    /// Puts a boolean at the end, as `push` does.
    pub fn push_bool(&mut self, alloc: Global, truth: bool) -> Res<()>
        ensures ok { OnOk result (self.new ≡ self.old ++ Some (BoolValue truth) ∷ []) }
        ensures err { OnErr result (self.new ≡ self.old) }
        ensures refuses { IsOkUnless result ColumnError.OutOfMemory }
    {
        self.push_ref(alloc, RowRef::Bool(truth))
    }

    /// Puts an integer at the end, as `push` does.
    pub fn push_int(&mut self, alloc: Global, number: i128) -> Res<()>
        ensures ok { OnOk result (self.new ≡ self.old ++ Some (IntValue number) ∷ []) }
        ensures err { OnErr result (self.new ≡ self.old) }
        ensures refuses { IsOkUnless result ColumnError.OutOfMemory }
    {
        self.push_ref(alloc, RowRef::Int(number))
    }

    /// Puts the unscaled number of a decimal at the end, as `push` does.
    pub fn push_decimal(&mut self, alloc: Global, unscaled: i128) -> Res<()>
        ensures ok { OnOk result (self.new ≡ self.old ++ Some (DecimalValue unscaled) ∷ []) }
        ensures err { OnErr result (self.new ≡ self.old) }
        ensures refuses { IsOkUnless result ColumnError.OutOfMemory }
    {
        self.push_ref(alloc, RowRef::Decimal(unscaled))
    }

    /// Puts a copy of the text at the end, as `push` does.
    pub fn push_text(&mut self, alloc: Global, text: &str) -> Res<()>
        ensures ok { OnOk result (self.new ≡ self.old ++ Some (Utf8Value text.now) ∷ []) }
        ensures err { OnErr result (self.new ≡ self.old) }
        ensures refuses { IsOkUnless result ColumnError.OutOfMemory }
    {
        self.push_ref(alloc, RowRef::Utf8(text))
    }

    /// Puts a copy of the bytes at the end, as `push` does.
    pub fn push_bytes(&mut self, alloc: Global, bytes: &[u8]) -> Res<()>
        ensures ok { OnOk result (self.new ≡ self.old ++ Some (BinaryValue bytes.now) ∷ []) }
        ensures err { OnErr result (self.new ≡ self.old) }
        ensures refuses { IsOkUnless result ColumnError.OutOfMemory }
    {
        self.push_ref(alloc, RowRef::Binary(bytes))
    }

    /// Appends a range of the other rows: booleans, integers and decimals at once where both pack the same kind, and else one after
    /// the other. A refusal leaves the rows as they were.
    pub fn extend_from(&mut self, alloc: Global, other: &RowBuffer, range: Range<usize>) -> Res<()>
        requires order { range.start ≤ range.end }
        requires inside { range.end ≤ length other.now }
        ensures ok { OnOk result (self.new ≡ self.old ++ slice_range other.now range.start range.end) }
        ensures err { OnErr result (self.new ≡ self.old) }
        ensures refuses { IsOkUnless result ColumnError.OutOfMemory }
    {
        if offer_range(&mut self.store, &other.store, range.start..range.end)? {
            return Ok(());
        }
        let before = self.len();
        let result = push_range(self, alloc, other, range);
        if result.is_err() {
            self.store.truncate(before);
        }
        result
    }

    /// Appends copies of the row. A refusal leaves the rows as they were.
    pub fn extend_repeated(&mut self, alloc: Global, row: &Row, count: usize) -> Res<()>
        ensures ok { OnOk result (self.new ≡ self.old ++ replicate count row.now) }
        ensures err { OnErr result (self.new ≡ self.old) }
        ensures refuses { IsOkUnless result ColumnError.OutOfMemory }
    {
        let before = self.len();
        let result = push_times(self, alloc, row, count);
        if result.is_err() {
            self.store.truncate(before);
        }
        result
    }

    /// Takes the last row away and puts it at the end of the other rows. It is moved where neither packs it. A refusal
    /// leaves both as they were.
    pub fn move_last_to(&mut self, alloc: Global, other: &mut RowBuffer) -> Res<()>
        requires { 0 < length self.old }
        ensures ok { (front : RowList) (row : Option AnyValue) → self.old ≡ front ++ row ∷ [] →
            OnOk result ((self.new ≡ front) × (other.new ≡ other.old ++ row ∷ [])) }
        ensures err { OnErr result ((self.new ≡ self.old) × (other.new ≡ other.old)) }
        ensures refuses { IsOkUnless result ColumnError.OutOfMemory }
    {
        let last = self.len() - 1;
        if move_last(&mut self.store, &mut other.store)? {
            return Ok(());
        }
        other.push_ref(alloc, self.get(last))?;
        self.store.truncate(last);
        Ok(())
    }

    /// Turns the order round. A refusal leaves the rows as they were.
    pub fn reverse(&mut self) -> Res<()>
        ensures ok { OnOk result (self.new ≡ reverse self.old) }
        ensures err { OnErr result (self.new ≡ self.old) }
        ensures refuses { IsOkUnless result ColumnError.OutOfMemory }
    {
        self.store.reverse()?;
        Ok(())
    }
}

/// Copies of the rows, packed as rows of the type.
fn packed(alloc: Global, dtype: &DType, rows: &[Row]) -> Res<RowBuffer>
    ensures ok { IfOk result (λ b. b ≡ rows.now) }
    ensures err { IsOkUnless result ColumnError.OutOfMemory }
{
    let mut buffer = RowBuffer::new(alloc, dtype);
    for row in rows {
        buffer.push_ref(alloc, RowRef::new(row))?;
    }
    Ok(buffer)
}

/// Appends copies of the row, of which a refusal may leave some.
fn push_times(buffer: &mut RowBuffer, alloc: Global, row: &Row, count: usize) -> Res<()>
    ensures ok { OnOk result (buffer.new ≡ buffer.old ++ replicate count row.now) }
    ensures err { OnErr result (take (length buffer.old) buffer.new ≡ buffer.old) }
    ensures refuses { IsOkUnless result ColumnError.OutOfMemory }
{
    for _done in 0..count {
        buffer.push_ref(alloc, RowRef::new(row))?;
    }
    Ok(())
}

/// Appends a range of the other rows one by one, of which a refusal may leave some.
#[tactic(auto, using(crate::proofs::Rows::range_more))]
fn push_range(
    buffer: &mut RowBuffer,
    alloc: Global,
    other: &RowBuffer,
    range: Range<usize>,
) -> Res<()>
    requires order { range.start ≤ range.end }
    requires inside { range.end ≤ length other.now }
    ensures ok { OnOk result (buffer.new ≡ buffer.old ++ slice_range other.now range.start range.end) }
    ensures err { OnErr result (take (length buffer.old) buffer.new ≡ buffer.old) }
    ensures refuses { IsOkUnless result ColumnError.OutOfMemory }
{
    for i in range.start..range.end {
        buffer.push_ref(alloc, other.get(i))?;
    }
    Ok(())
}
