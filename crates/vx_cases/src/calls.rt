//! Questions that are calls: what is made, and one call after the other on it.
use crate::run::Answer;
use serde_json::Value;
use std::alloc::{AllocError, Global};
use std::io;
use vx_base::{ColumnError, CountLedger, Ledger, Res, Steps};

/// A call as it stands in a case: `["NAME",ARGUMENT,..]`.
#[derive(Clone, Copy)]
pub struct Call<'v> {
    /// The name of the call.
    pub name: &'v str,
    value: &'v Value,
}

impl<'v> Call<'v> {
    fn new(value: &'v Value) -> io::Result<Self> {
        match value.get(0).and_then(Value::as_str) {
            Some(name) => Ok(Call { name, value }),
            None => Err(io::Error::other("a call has no name")),
        }
    }

    /// Argument `at`, from 1 on, as a number; 0 where it is none.
    pub fn number(&self, at: usize) -> usize {
        match self.value.get(at).and_then(Value::as_u64) {
            Some(number) => number as usize,
            None => 0,
        }
    }

    /// Argument `at`, from 1 on; the call itself where there is none.
    pub fn argument(&self, at: usize) -> &Value {
        self.value.get(at).unwrap_or(self.value)
    }
}

/// What calls ask. A call whose condition doesn't hold is answered `not allowed`.
pub trait Asked: Drop {
    /// What a call makes says of itself.
    fn shape(&self, alloc: Global) -> Result<String, AllocError>;

    /// Whether the call makes another value, which later calls ask.
    fn makes(&self, call: &Call<'_>) -> bool;

    /// What the call makes; None where nothing is left.
    fn made<L: Ledger>(
        &self,
        alloc: Global,
        call: &Call<'_>,
        steps: &mut Steps<L>,
    ) -> Res<Option<Self>>;

    /// What the call answers.
    fn answer<L: Ledger>(
        &self,
        alloc: Global,
        call: &Call<'_>,
        steps: &mut Steps<L>,
    ) -> Res<String>;
}

fn answer<S: Asked, L: Ledger>(
    alloc: Global,
    asked: &mut S,
    call: &Call<'_>,
    steps: &mut Steps<L>,
) -> Res<String> {
    if !asked.makes(call) {
        return asked.answer(alloc, call, steps);
    }
    match asked.made(alloc, call, steps)? {
        Some(made) => {
            *asked = made;
            Ok(asked.shape(alloc)?)
        }
        None => Ok(String::from_str(alloc, "none")?),
    }
}

/// An answer as text: a rule that is broken is told by its name.
pub fn text_of(alloc: Global, answer: Res<String>) -> Result<String, AllocError> {
    match answer {
        Ok(text) => Ok(text),
        Err(error) => refusal(alloc, &error),
    }
}

fn refusal(alloc: Global, error: &ColumnError) -> Result<String, AllocError> {
    match error {
        ColumnError::Malformed { rule, .. } => format!(in alloc; "Malformed {rule:?}"),
        error => format!(in alloc; "{error:?}"),
    }
}

fn answer_call<S: Asked>(rt: &HostRuntime, asked: &mut S, call: &Value) -> io::Result<Answer> {
    let call = Call::new(call)?;
    let mut steps = Steps::new(rt, CountLedger::new());
    let text = text_of(rt.alloc(), answer(rt.alloc(), asked, &call, &mut steps))?;
    let reads = steps.ledger().count();
    Ok(Answer { text, reads })
}

/// The answer to each call, one behind the other.
fn push_answers<S: Asked>(
    rt: &HostRuntime,
    mut asked: S,
    calls: &Value,
    answers: &mut Vec<Answer>,
) -> io::Result<()> {
    let Some(calls) = calls.as_array() else {
        return Err(io::Error::other("the calls are no list"));
    };
    for call in calls {
        answers.push(answer_call(rt, &mut asked, call)?)?;
    }
    Ok(())
}

/// The answer to each call, or the refusal of what is to be asked.
pub fn answer_calls<S: Asked>(
    rt: &HostRuntime,
    made: Res<S>,
    calls: &Value,
    answers: &mut Vec<Answer>,
) -> io::Result<()> {
    match made {
        Ok(asked) => push_answers(rt, asked, calls, answers),
        Err(error) => {
            let text = refusal(rt.alloc(), &error)?;
            Ok(answers.push(Answer { text, reads: 0 })?)
        }
    }
}
