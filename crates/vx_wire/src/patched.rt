//! What describes a lane layout.
ghost use Rattle.std.specs.Prelude.{◌≡◌, Ok, Err, IfOk, IfErr, IsOkUnless};
ghost use Rattle.vx_wire.specs.Faults.{FirstFault};
ghost use Rattle.vx_wire.specs.Messages.{SaysLanes, lanes_bytes};

use crate::field::last_numbers;
use crate::types::low_half;
use crate::writing::push_plain;
use std::alloc::Global;
use vx_base::{ColumnError, Res, Seq, WireFault};

/// How many patches there are, in how many lanes, and how far into the first chunk the view begins.
#[derive(Clone, Copy, Debug, Default, PartialEq, Eq)]
pub struct PatchedMetadata {
    pub n_patches: u32,
    pub n_lanes: u32,
    pub offset: u32,
}

impl PatchedMetadata {
    /// The bytes of the message: each number that isn't 0, in the fewest bytes.
    pub fn encode(&self, alloc: Global) -> Res<Seq<u8>>
        ensures ok { IfOk result (λ bytes. bytes ≡ lanes_bytes self.now) }
        // So `decode` gives the message back.
        ensures says { IfOk result (λ bytes. SaysLanes bytes self.now) }
        ensures err { IsOkUnless result ColumnError.OutOfMemory }
    {
        let mut out = Vec::new(alloc);
        push_plain(&mut out, 1, u64::from(self.n_patches))?;
        push_plain(&mut out, 2, u64::from(self.n_lanes))?;
        push_plain(&mut out, 3, u64::from(self.offset))?;
        Ok(Seq::from_vec(out))
    }

    /// What the bytes say. It takes no memory. More spellings are read than `encode` writes: numbers in more bytes
    /// than they need, fields in any order, fields again, of which the last one stands, zeros, numbers of more than 32
    /// bits, of which the low ones stand, and fields of unknown tags, which are passed over.
    pub fn decode(bytes: &[u8]) -> Result<PatchedMetadata, WireFault>
        ensures ok { IfOk result (SaysLanes bytes.now) }
        // Whatever says a message is read.
        ensures all { (m : PatchedMetadata) → SaysLanes bytes.now m → result ≡ Ok m }

        // The fault is the first one in reading order.
        ensures err { IfErr result (FirstFault 3 bytes.now) }
        ensures first { (fault : WireFault) → FirstFault 3 bytes.now fault → result ≡ Err fault }
    {
        PatchedMetadata::read(bytes)
    }

    /// The last content of each tag, as the message holds it.
    fn read(bytes: &[u8]) -> Result<PatchedMetadata, WireFault>
        ensures ok { IfOk result (SaysLanes bytes.now) }
        ensures err { IfErr result (FirstFault 3 bytes.now) }
    {
        let last = last_numbers(bytes, 3)?;
        Ok(PatchedMetadata {
            n_patches: low_half(last[1].unwrap_or(0)),
            n_lanes: low_half(last[2].unwrap_or(0)),
            offset: low_half(last[3].unwrap_or(0)),
        })
    }
}
