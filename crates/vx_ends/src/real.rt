//! The ends of a running program: they pass each call on to a reader or a writer of the system.
//!
//! They keep to their traits, whatever the system does, and count its faults. They tell no bytes: that what
//! they read is what the system holds, and that what they write arrives there, is trusted.
ghost use Rattle.std.specs.Prelude.{◌≡◌, None};

use crate::sink::{Sink, SinkError};
use crate::source::{Failed, Source};
use std::io::{Read, Write};
use std::marker::Model;

/// A reader of the system, as standard input, with a count of its errors. Contracts see it as that count.
#[derive(Drop)]
pub struct StdinSource<R: Read> {
    inner: R,
    faults: u64,
}

impl<R: Read> Model for StdinSource<R> {
    ghost use Rattle.std.specs.Prelude.{ℕ};

    ghost Value = { ℕ };

    ghost view = { λ s. s.faults };
}

impl<R: Read> StdinSource<R> {
    /// A source before this reader, with no fault yet.
    pub fn new(inner: R) -> Self
        ensures faults { result ≡ 0 }
    {
        StdinSource { inner, faults: 0 }
    }

    /// How many reads have failed.
    pub fn faults(&self) -> u64
        ensures { result ≡ self.now }
    {
        self.faults
    }
}

impl<R: Read> Source for StdinSource<R> {
    ghost left = { λ _. None };

    ghost faults = { λ s. s };

    fn read(&mut self, buf: &mut [u8]) -> Result<usize, Failed> {
        match self.inner.read(buf) {
            Ok(count) => Ok(count),
            Err(_) => {
                self.faults = self.faults.saturating_add(1);
                Err(Failed)
            }
        }
    }
}

/// A writer of the system, as standard output, with a count of its errors and of the writes that took no byte
/// of a piece. Contracts see it as that count.
#[derive(Drop)]
pub struct StdoutSink<W: Write> {
    inner: W,
    faults: u64,
}

impl<W: Write> Model for StdoutSink<W> {
    ghost use Rattle.std.specs.Prelude.{ℕ};

    ghost Value = { ℕ };

    ghost view = { λ s. s.faults };
}

impl<W: Write> StdoutSink<W> {
    /// A sink before this writer, with no fault yet.
    pub fn new(inner: W) -> Self
        ensures faults { result ≡ 0 }
    {
        StdoutSink { inner, faults: 0 }
    }

    /// How many writes have failed.
    pub fn faults(&self) -> u64
        ensures { result ≡ self.now }
    {
        self.faults
    }
}

impl<W: Write> Sink for StdoutSink<W> {
    ghost held = { λ _. None };

    ghost faults = { λ s. s };

    fn write(&mut self, piece: &[u8]) -> Result<usize, SinkError> {
        match self.inner.write(piece) {
            Ok(count) if count > 0 || piece.is_empty() => Ok(count),
            _ => {
                self.faults = self.faults.saturating_add(1);
                Err(SinkError::Failed)
            }
        }
    }
}
