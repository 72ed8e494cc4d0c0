//! Flat columns and the ledger of reads, over the rows and types of `vx_rows` and the buffers of `vx_buffers`, which
//! it names again.
#![tactic(auto)]

pub mod checks;
pub mod flat;
pub mod steps;
mod tally;

pub use flat::FlatColumn;
pub use steps::{CountLedger, Ledger, NoLedger, Steps};
pub use vx_buffers::{RowBuffer, RowRef};
pub use vx_rows::{
    ColumnError, DType, DecimalDType, Fields, Name, Nullability, PType, Path, Res, Row, Rule, Seq,
    Shared, Text, Value, WireFault, copy, dtype, error, fits, kinds, name, order, path, seq,
    shared, text, value,
};
