//! Fields: a key of a tag and a wire type, and content.
ghost use Rattle.std.specs.Prelude.{◌≡◌, ◌<◌, ◌≤◌, length, IfOk, IfErr};
ghost use Rattle.vx_wire.specs.Faults as faults;
ghost use Rattle.vx_wire.specs.Parts as parts;

use crate::varint::read_varint;
use vx_base::WireFault;

/// How content is read.
#[derive(Clone, Copy, PartialEq, Eq)]
pub(crate) enum Wire {
    /// A number.
    Varint,
    /// Eight bytes.
    Eight,
    /// As many bytes as a number before them says.
    Sized,
    /// Four bytes.
    Four,
}

/// The greatest tag that a message knows.
pub(crate) const MOST_TAGS: usize = 6;

/// The tag and the wire type at the front of the bytes, and the bytes after them.
fn read_key(bytes: &[u8]) -> Result<(u32, Wire, &[u8]), WireFault>
    ensures ok { IfOk result (λ found. faults.KeyAt bytes.now found.0 found.1 found.2.now) }
    ensures err { IfErr result (faults.IsKeyFault bytes.now) }
{
    let (number, rest) = read_varint(bytes)?;
    let Ok(number) = u32::try_from(number) else {
        return Err(WireFault::BadKey);
    };
    let tag = number / 8;
    if tag == 0 {
        return Err(WireFault::BadKey);
    }
    match number % 8 {
        0 => Ok((tag, Wire::Varint, rest)),
        1 => Ok((tag, Wire::Eight, rest)),
        2 => Ok((tag, Wire::Sized, rest)),
        5 => Ok((tag, Wire::Four, rest)),
        3 | 4 => Err(WireFault::Group { tag }),
        _ => Err(WireFault::BadKey),
    }
}

/// The bytes after the first `count`.
fn skip(bytes: &[u8], count: u64) -> Result<&[u8], WireFault>
    ensures ok { IfOk result (λ rest. parts.Passes bytes.now count rest.now) }
    ensures err { IfErr result (faults.IsShort bytes.now count) }
{
    if count > bytes.len() as u64 {
        return Err(WireFault::Truncated);
    }
    Ok(&bytes[count as usize..])
}

/// The content at the front of the bytes, if it is a number, and the bytes after it.
fn read_content(wire: Wire, bytes: &[u8]) -> Result<(Option<u64>, &[u8]), WireFault>
    ensures ok { IfOk result (λ found. parts.ContentAt bytes.now wire found.0 found.1.now) }
    ensures err { IfErr result (faults.IsContentFault wire bytes.now) }
{
    match wire {
        Wire::Varint => {
            let (number, rest) = read_varint(bytes)?;
            Ok((Some(number), rest))
        }
        Wire::Eight => Ok((None, skip(bytes, 8)?)),
        Wire::Sized => {
            let (size, rest) = read_varint(bytes)?;
            Ok((None, skip(rest, size)?))
        }
        Wire::Four => Ok((None, skip(bytes, 4)?)),
    }
}

/// The field at the front of the bytes: its tag, its content if that is a number, and the bytes after it.
fn read_field(bytes: &[u8], known: u32) -> Result<(u32, Option<u64>, &[u8]), WireFault>
    requires { 1 ≤ length bytes.now }
    ensures ok { IfOk result (λ found. parts.FieldAt known bytes.now found.0 found.1 found.2.now) }
    ensures err { IfErr result (faults.FaultAt known bytes.now) }
{
    let (tag, wire, rest) = read_key(bytes)?;
    if tag <= known && wire != Wire::Varint {
        return Err(WireFault::WrongWireType { tag });
    }
    let (number, rest) = read_content(wire, rest)?;
    Ok((tag, number, rest))
}

/// Puts a number at the place of its tag, over what was there. Unknown tags have no place.
fn keep(numbers: &mut [Option<u64>], known: u32, tag: u32, number: Option<u64>)
    requires { known < length numbers.old }
    ensures { numbers.new ≡ parts.kept known numbers.old tag number }
{
    if tag <= known {
        numbers[tag as usize] = number;
    }
}

/// The last number under each known tag, by tag. All fields are read, and those of other tags passed over.
pub(crate) fn last_numbers(
    bytes: &[u8],
    known: u32,
) -> Result<[Option<u64>; MOST_TAGS + 1], WireFault>
    requires { known ≤ MOST_TAGS }
    ensures ok { IfOk result (parts.AreLastNumbers known bytes.now) }
    ensures err { IfErr result (faults.FirstFault known bytes.now) }
{
    let mut last = [None; MOST_TAGS + 1];
    let mut rest = bytes;
    while !rest.is_empty() {
        let (tag, number, after) = read_field(rest, known)?;
        keep(&mut last, known, tag, number);
        rest = after;
    }
    Ok(last)
}
