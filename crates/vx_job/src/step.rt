//! What is done to a column.
use vx_base::{DType, Seq};
use vx_scalars::{CompareOperator, Scalar};
use vx_search::SearchSortedSide;

/// One step of a plan.
pub enum Step {
    /// Keeps rows `start` to below `end`.
    Slice {
        start: usize,
        end: usize,
    },
    /// Answers the rows of these numbers, and keeps the column. Where `kept` is true they are read through one
    /// `RepeatedArrayProbe`, which keeps what it learned from one row to the next, and else each by itself.
    Points {
        rows: Seq<usize>,
        kept: bool,
    },
    /// Keeps the rows whose bit is true.
    Filter {
        mask: Seq<bool>,
    },
    /// Keeps the rows of these indices, in their order, with a null for each index that is absent.
    Take {
        indices: Seq<Option<usize>>,
    },
    /// Keeps the rows of runs, each of a start and a length, joined in order. They are declared to be `len` rows together.
    Runs {
        runs: Seq<(usize, usize)>,
        len: usize,
    },
    /// Makes the rows whose bit is false null.
    Mask {
        mask: Seq<bool>,
    },
    /// Keeps a row where its bit is true, and takes that of another part where it is false.
    Zip {
        source: usize,
        choice: Seq<bool>,
    },
    /// Puts a value in the place of each null.
    Fill {
        value: Scalar,
    },
    /// Changes the type of integers.
    Cast {
        target: DType,
    },
    /// Compares each row with a value.
    Compare {
        operator: CompareOperator,
        value: Scalar,
    },
    /// Answers the place of a value among the rows, which are sorted, and keeps the column.
    Search {
        value: Scalar,
        side: SearchSortedSide,
    },
    /// Answers for each row whether it is among those of a part, and null for a null, and keeps the column.
    Contains {
        source: usize,
    },
}

impl Drop for Step {
    fn drop(self) {
        match self {
            Step::Slice {
                start: _start,
                end: _end,
            } => {}
            Step::Points {
                rows: _rows,
                kept: _kept,
            } => {}
            Step::Filter { mask: _mask } => {}
            Step::Take { indices: _indices } => {}
            Step::Runs {
                runs: _runs,
                len: _len,
            } => {}
            Step::Mask { mask: _mask } => {}
            Step::Zip {
                source: _source,
                choice: _choice,
            } => {}
            Step::Fill { value: _value } => {}
            Step::Cast { target: _target } => {}
            Step::Compare {
                operator: _operator,
                value: _value,
            } => {}
            Step::Search {
                value: _value,
                side: _side,
            } => {}
            Step::Contains { source: _source } => {}
        }
    }
}
