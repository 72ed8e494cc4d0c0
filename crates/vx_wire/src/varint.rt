//! Numbers in base 128, the least group of seven bits first.
ghost use Rattle.std.specs.Prelude.{◌≡◌, ◌++◌, IfOk, IfErr, OnOk};
ghost use Rattle.vx_wire.specs.Varints.{VarintAt, IsVarintFault, varint};

use std::alloc::AllocError;
use vx_base::WireFault;

/// A number of 64 bits takes at most ten bytes: this one is the tenth.
const LAST_PLACE: usize = 9;

/// The number at the front of the bytes, and the bytes after it.
pub(crate) fn read_varint(bytes: &[u8]) -> Result<(u64, &[u8]), WireFault>
    ensures ok { IfOk result (λ found. VarintAt bytes.now found.0 found.1.now) }
    ensures err { IfErr result (IsVarintFault bytes.now) }
{
    let mut number = 0;
    for (i, byte) in bytes.iter().enumerate() {
        if i == LAST_PLACE && *byte >= 2 {
            return Err(WireFault::BadVarint);
        }
        number += u64::from(byte % 128) << (7 * i);
        if *byte < 128 {
            return Ok((number, &bytes[i + 1..]));
        }
    }
    Err(WireFault::Truncated)
}

/// Adds a number in the fewest bytes.
pub(crate) fn push_varint(out: &mut Vec<u8>, number: u64) -> Result<(), AllocError>
    ensures { OnOk result (out.new.items ≡ out.old.items ++ varint number) }
{
    let mut rest = number;
    while rest >= 128 {
        out.push((rest % 128 + 128) as u8)?;
        rest /= 128;
    }
    out.push(rest as u8)?;
    Ok(())
}
