//! What a plan answers, with the rows that it leaves.
ghost use Rattle.std.specs.Prelude.{◌≡◌};
ghost use Rattle.vx_job.specs.PageView.{page_view};

use std::marker::Model;
use vx_base::{DType, Row, RowBuffer, Seq};
use vx_search::SearchResult;

/// What a step answers.
pub enum Answer {
    /// Rows, in the order that was asked for.
    Rows(Seq<Row>),
    /// Where a value was found, or belongs.
    Place(SearchResult),
    /// A bit for each row, and null for a null.
    Bits(Seq<Option<bool>>),
}

impl Drop for Answer {
    fn drop(self) {
        match self {
            Answer::Rows(_rows) => {}
            Answer::Place(_place) => {}
            Answer::Bits(_bits) => {}
        }
    }
}

/// The answers of a plan in order, and the type and the rows of its last column.
#[derive(Drop)]
pub struct Page {
    answers: Seq<Answer>,
    dtype: DType,
    rows: RowBuffer,
}

impl Model for Page {
    ghost use Rattle.vx_job.specs.PageView.{PageView, page_view, page_code};

    ghost Value = { PageView };

    ghost coded = { page_code };

    ghost view = { λ p. page_view p.answers p.dtype p.rows };
}

impl Page {
    /// A page of these. That the rows fit the type isn't asked.
    pub fn new(answers: Seq<Answer>, dtype: DType, rows: RowBuffer) -> Page
        ensures { result ≡ page_view answers dtype rows }
    {
        Page {
            answers,
            dtype,
            rows,
        }
    }

    /// The answers, one for each step that asked, in order.
    pub fn answers(&self) -> &[Answer]
        ensures { result.now ≡ self.now.answers }
    {
        self.answers.as_slice()
    }

    /// The type of the rows.
    pub fn dtype(&self) -> &DType
        ensures { result.now ≡ self.now.dtype }
    {
        &self.dtype
    }

    /// The rows that the last step left.
    pub fn rows(&self) -> &RowBuffer
        ensures { result.now ≡ self.now.rows }
    {
        &self.rows
    }
}
