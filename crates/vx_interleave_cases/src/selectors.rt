//! Calls on selectors.
ghost use Rattle.std.specs.Prelude.{◌≤◌, IsTrue};
ghost use Rattle.vx_interleave.specs.Selections.{len_of};

use std::alloc::{AllocError, Global};
use std::hash::{DefaultHasher, Hash, Hasher};
use vx_base::{Ledger, Res, Steps};
use vx_cases::{Asked, Call};
use vx_interleave::{InterleaveData, Selectors};

/// Selectors that calls ask.
#[derive(Drop)]
pub(crate) struct AskedSelectors {
    pub(crate) selectors: Selectors,
}

fn are_rows(selectors: &Selectors, start: usize, end: usize) -> bool
    ensures ordered { IsTrue result → start ≤ end }
    ensures inside { IsTrue result → end ≤ len_of selectors.now }
{
    start <= end && end <= selectors.len()
}

fn not_allowed(alloc: Global) -> Res<String> {
    Ok(String::from_str(alloc, "not allowed")?)
}

/// The two numbers of a row.
fn pair<L: Ledger>(
    alloc: Global,
    selectors: &Selectors,
    row: usize,
    steps: &mut Steps<L>,
) -> Res<String> {
    if row >= selectors.len() {
        return not_allowed(alloc);
    }
    let (array, row) = selectors.pair_at(row, steps);
    Ok(format!(in alloc; "{array}:{row}")?)
}

/// The two numbers of each row.
fn pairs<L: Ledger>(alloc: Global, selectors: &Selectors, steps: &mut Steps<L>) -> Res<String> {
    let mut text = String::new(alloc);
    for i in 0..selectors.len() {
        if i > 0 {
            text.push(' ')?;
        }
        let (array, row) = selectors.pair_at(i, steps);
        write!(text, "{array}:{row}")?;
    }
    Ok(text)
}

/// The selectors of some rows, or all of them where there aren't such rows.
fn window(selectors: &Selectors, start: usize, end: usize) -> Res<Selectors> {
    if are_rows(selectors, start, end) {
        selectors.window(start..end)
    } else {
        selectors.share()
    }
}

/// What a column interleaved of so many values says of itself.
fn data_text(alloc: Global, num_values: usize) -> Res<String> {
    let data = InterleaveData { num_values };
    Ok(format!(in alloc; "{data}")?)
}

fn hash_of(data: &InterleaveData) -> u64 {
    let mut state = DefaultHasher::new();
    data.hash(&mut state);
    state.finish()
}

/// Whether columns interleaved of so many values say the same of themselves, and a copy too; where they do, whether their hashes
/// are the same.
fn same_data(alloc: Global, num_values: usize, other: usize) -> Res<String> {
    let data = InterleaveData { num_values };
    let other = InterleaveData { num_values: other };
    let copy = other.clone()?;
    let same = data == copy;
    Ok(format!(in alloc;
        "{same}, hashes {}",
        same && hash_of(&data) == hash_of(&other)
    )?)
}

impl Asked for AskedSelectors {
    fn shape(&self, alloc: Global) -> Result<String, AllocError> {
        format!(in alloc;
            "rows {}, array numbers {}, row numbers {}",
            self.selectors.len(),
            self.selectors.array_indices().len(),
            self.selectors.row_indices().len()
        )
    }

    fn makes(&self, call: &Call<'_>) -> bool {
        match call.name {
            "share" => true,
            "window" => are_rows(&self.selectors, call.number(1), call.number(2)),
            _ => false,
        }
    }

    fn made<L: Ledger>(
        &self,
        _alloc: Global,
        call: &Call<'_>,
        _steps: &mut Steps<L>,
    ) -> Res<Option<Self>> {
        let selectors = match call.name {
            "window" => window(&self.selectors, call.number(1), call.number(2))?,
            _ => self.selectors.share()?,
        };
        Ok(Some(AskedSelectors { selectors }))
    }

    fn answer<L: Ledger>(
        &self,
        alloc: Global,
        call: &Call<'_>,
        steps: &mut Steps<L>,
    ) -> Res<String> {
        match call.name {
            "shape" => Ok(self.shape(alloc)?),
            "data" => data_text(alloc, call.number(1)),
            "same" => same_data(alloc, call.number(1), call.number(2)),
            "pair" => pair(alloc, &self.selectors, call.number(1), steps),
            "pairs" => pairs(alloc, &self.selectors, steps),
            _ => not_allowed(alloc),
        }
    }
}
