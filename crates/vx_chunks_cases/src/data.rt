//! Calls on a number of chunks.
use std::alloc::{AllocError, Global};
use vx_base::{Ledger, Res, Steps};
use vx_cases::{Asked, Call};
use vx_chunks::ChunkedData;

/// Whom calls on a number of chunks ask.
#[derive(Drop)]
pub(crate) struct Data {
    chunked: ChunkedData,
}

impl Data {
    pub(crate) fn new(nchunks: usize) -> Self {
        Data {
            chunked: ChunkedData { nchunks },
        }
    }
}

impl Asked for Data {
    fn shape(&self, alloc: Global) -> Result<String, AllocError> {
        format!(in alloc; "{}", self.chunked)
    }

    fn makes(&self, _call: &Call<'_>) -> bool {
        false
    }

    fn made<L: Ledger>(
        &self,
        _alloc: Global,
        _call: &Call<'_>,
        _steps: &mut Steps<L>,
    ) -> Res<Option<Self>> {
        Ok(None)
    }

    fn answer<L: Ledger>(
        &self,
        alloc: Global,
        call: &Call<'_>,
        _steps: &mut Steps<L>,
    ) -> Res<String> {
        if call.name == "shown" {
            return Ok(self.shape(alloc)?);
        }
        let other = ChunkedData {
            nchunks: call.number(1),
        };
        Ok(format!(in alloc; "{}", self.chunked == other)?)
    }
}
