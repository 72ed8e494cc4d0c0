//! The count of what is read: contracts see a number without bound, and a ledger keeps of it what it can at run time.
ghost use Rattle.std.specs.Prelude.{◌≡◌, ℕ, ◌+◌, min};

use crate::tally::Tally;
use std::marker::Model;

/// What keeps the count at run time.
pub trait Ledger {
    /// What the ledger holds at a count.
    ghost keeps: { Self → ℕ → Type 0 };

    /// Adds to the count.
    fn add(&mut self, n: usize)
        ensures { (count : ℕ) → keeps self.old count → keeps self.new (count + n) };
}

/// A ledger that keeps nothing.
#[derive(Drop)]
pub struct NoLedger {}

impl NoLedger {
    /// The ledger for who doesn't ask.
    pub fn new() -> NoLedger {
        NoLedger {}
    }
}

impl Ledger for NoLedger {
    ghost keeps = { λ _ _. Unit {0} };

    fn add(&mut self, _n: usize) {}
}

/// A ledger that keeps the count, held at the greatest number of 64 bits. Contracts see that number.
#[derive(Drop)]
pub struct CountLedger {
    count: u64,
}

impl Model for CountLedger {
    ghost use Rattle.std.specs.Prelude.{ℕ};

    ghost Value = { ℕ };

    ghost view = { λ ledger. ledger.count };
}

impl CountLedger {
    /// A ledger to which nothing was added.
    pub fn new() -> CountLedger
        ensures { result ≡ 0 }
    {
        CountLedger { count: 0 }
    }

    /// What was added so far.
    pub fn count(&self) -> u64
        ensures { result ≡ self.now }
    {
        self.count
    }
}

impl Ledger for CountLedger {
    ghost keeps = { λ ledger count. ledger ≡ min count 18446744073709551615 };

    fn add(&mut self, n: usize) {
        self.count = self.count.saturating_add(n as u64);
    }
}

/// How much was read. Contracts see a number without bound, and each call that reads raises it. Only `main` and
/// tests can make one, so a call can't count its reads elsewhere than in the steps that it is given.
#[derive(Drop)]
pub struct Steps<L: Ledger> {
    tally: Tally,
    ledger: L,
}

impl<L: Ledger> Model for Steps<L> {
    ghost use Rattle.std.specs.Prelude.{ℕ};

    ghost Value = { ℕ };

    ghost view = { λ s. s.tally.total };

    ghost invariant = { λ s. L.keeps s.ledger s.tally.total };
}

impl<L: Ledger> Steps<L> {
    /// Takes the runtime, which `main` and the tests alone are given, and which no code can make.
    pub fn new(_rt: &HostRuntime, ledger: L) -> Steps<L>
        requires { L.keeps ledger 0 }
        ensures { result ≡ 0 }
    {
        Steps {
            tally: Tally::new(),
            ledger,
        }
    }

    /// Counts one read.
    pub fn tick(&mut self)
        ensures { self.new ≡ self.old + 1 }
    {
        self.add(1);
    }

    /// Counts so many reads.
    pub fn add(&mut self, n: usize)
        ensures { self.new ≡ self.old + n }
    {
        self.tally.add(n as u64);
        self.ledger.add(n);
    }

    /// What the ledger kept.
    pub fn ledger(&self) -> &L
        ensures { L.keeps result.now self.now }
    {
        &self.ledger
    }
}
