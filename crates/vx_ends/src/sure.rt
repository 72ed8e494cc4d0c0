//! Ends in memory that never fail.
ghost use Rattle.std.specs.Prelude.{◌≡◌, [], Some};

use crate::moving::copy_front;
use crate::sink::{Sink, SinkError};
use crate::source::{Failed, Source};
use std::alloc::Global;
use std::marker::Model;
use vx_rows::Seq;

/// A source in memory that never fails. Contracts see it as the bytes left.
#[derive(Debug, Drop)]
pub struct SureSource {
    bytes: Vec<u8>,
    at: usize,
}

impl Model for SureSource {
    ghost use Rattle.std.specs.Prelude.{ℕ, List, ◌≤◌, drop, vec_len};

    ghost Value = { List ℕ };

    ghost view = { λ s. drop s.at s.bytes.items };

    ghost invariant = { λ s. s.at ≤ vec_len s.bytes };
}

impl SureSource {
    /// A source that gives these bytes.
    pub fn new(bytes: Seq<u8>) -> Self
        ensures left { result ≡ bytes }
    {
        SureSource {
            bytes: bytes.into_vec(),
            at: 0,
        }
    }
}

impl Source for SureSource {
    ghost left = { λ s. Some s };

    ghost faults = { λ _. 0 };

    fn read(&mut self, buf: &mut [u8]) -> Result<usize, Failed> {
        let count = copy_front(&self.bytes[self.at..], usize::MAX, buf);
        self.at += count;
        Ok(count)
    }
}

/// A sink in memory that fails only where memory runs out. Contracts see it as the bytes held.
#[derive(Debug, Drop)]
pub struct SureSink {
    bytes: Vec<u8>,
}

impl Model for SureSink {
    ghost use Rattle.std.specs.Prelude.{ℕ, List};

    ghost Value = { List ℕ };

    ghost view = { λ s. s.bytes.items };
}

impl SureSink {
    /// A sink that holds no byte.
    pub fn new(alloc: Global) -> Self
        ensures held { result ≡ [] }
    {
        SureSink {
            bytes: Vec::new(alloc),
        }
    }

    /// What was written so far.
    pub fn held(&self) -> &[u8]
        ensures { result.now ≡ self.now }
    {
        self.bytes.as_slice()
    }
}

impl Sink for SureSink {
    ghost held = { λ s. Some s };

    ghost faults = { λ _. 0 };

    fn write(&mut self, piece: &[u8]) -> Result<usize, SinkError> {
        match self.bytes.extend_from_slice(piece) {
            Ok(()) => Ok(piece.len()),
            Err(_) => Err(SinkError::OutOfMemory),
        }
    }
}
