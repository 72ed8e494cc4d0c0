//! A count without bound, for contracts alone.
ghost use Rattle.std.specs.Prelude.{◌≡◌, ℕ, ◌+◌};
ghost use base.Fml.{fsep};
ghost use Rattle.std.specs.Sync.Ledger.{book_owns, share_owns};

use std::marker::{Model, PhantomData};

/// A number that contracts see, and that only `add` changes. It takes no room at run time.
#[derive(Drop)]
pub struct Tally {
    marker: PhantomData<()>,
    ghost name: { ℕ },
    pub ghost total: { ℕ },
}

impl Model for Tally {
    ghost also_owns = { λ t. fsep (book_owns t.name 1 t.total) (share_owns t.name 1 1 t.total) };
}

impl Tally {
    /// A count of 0.
    pub fn new() -> Tally
        ensures { result.total ≡ 0 }
    {
        Tally {
            marker: PhantomData,
        }
    }

    /// Adds to the count.
    pub fn add(&mut self, n: u64)
        ensures { self.new.total ≡ self.old.total + n }
    {}
}
