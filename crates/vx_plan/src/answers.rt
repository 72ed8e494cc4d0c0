//! What a plan gives to its caller.
ghost use Rattle.std.specs.Prelude.{◌≡◌, ◌+◌, ◌≤◌, IfOk, IsOkUnless};
ghost use Rattle.vx_column.specs.Columns.{IsSound, IsPlain, type_of, rows_of, len_of, select_bound};
ghost use Rattle.vx_plan.specs.AnswersView.{answers_view};
ghost use Rattle.vx_job.specs.PageView.{page_view};

use std::alloc::Global;
use std::marker::Model;
use vx_base::{ColumnError, DType, Ledger, Res, Seq, Steps};
use vx_column::Column;
use vx_job::{Answer, Page};

/// The answers of a plan in order, and its last column.
#[derive(Drop)]
pub struct Answers {
    answers: Seq<Answer>,
    column: Column,
}

impl Model for Answers {
    ghost use Rattle.vx_column.specs.Columns.{IsSound};
    ghost use Rattle.vx_plan.specs.AnswersView.{AnswersView, answers_view, answers_code};

    ghost Value = { AnswersView };

    ghost coded = { answers_code };

    ghost view = { λ a. answers_view a.answers a.column };

    ghost invariant = { λ a. IsSound a.column };
}

impl Answers {
    /// These answers with this last column.
    pub fn new(answers: Seq<Answer>, column: Column) -> Answers
        requires { IsSound column }
        ensures { result ≡ answers_view answers column }
    {
        Answers { answers, column }
    }

    /// The answers in order.
    pub fn answers(&self) -> &[Answer]
        ensures { result.now ≡ self.now.answers }
    {
        self.answers.as_slice()
    }

    /// The type of the last column.
    pub fn dtype(&self) -> &DType
        ensures { result.now ≡ type_of self.now.column }
    {
        self.column.dtype()
    }

    /// The last column.
    pub fn column(&self) -> &Column
        ensures column { result.now ≡ self.now.column }
        ensures sound { IsSound result.now }
    {
        &self.column
    }

    /// The page of these answers, with copies of the last column's rows.
    pub fn into_rows<L: Ledger>(self, alloc: Global, steps: &mut Steps<L>) -> Res<Page>
        ensures ok { IfOk result (λ page. page ≡ page_view self.answers (type_of self.column) (rows_of self.column)) }
        ensures err { IsOkUnless result ColumnError.OutOfMemory }
        ensures rise { IsPlain self.column → steps.new ≤ steps.old + select_bound self.column (len_of self.column) }
        ensures monotone { steps.old ≤ steps.new }
    {
        let Answers { answers, column } = self;
        let dtype = column.dtype().copy()?;
        let rows = column.to_buffer(alloc, steps)?;
        Ok(Page::new(answers, dtype, rows))
    }
}
