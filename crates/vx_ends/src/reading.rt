//! A source, read to its end.
ghost use Rattle.std.specs.Prelude.{◌≡◌, ◌≤◌, ◌<◌, ◌≢◌, Err, IfOk, IsSome, IsErrOf, vec_len};
ghost use Rattle.std.specs.Io.KnownBytes.{IsAtEnd};
ghost use Rattle.vx_ends.specs.Causes.{Rose, TellsAsBefore};
ghost use Rattle.vx_ends.specs.Moved.{taken_len, TakesFront, Tells};

use crate::source::{Failed, Source};
use std::alloc::{AllocError, Global};

/// Why a source was not read to its end.
#[derive(Clone, Copy, Debug, PartialEq, Eq, Drop)]
pub enum ReadError {
    /// A read failed.
    Failed,
    /// The source has more bytes than the limit.
    TooLong,
    /// There was no memory for the bytes.
    OutOfMemory,
}

/// How many bytes one read asks for.
const PIECE: usize = 65536;

/// Reads all that the source has left, at most `limit` bytes. After an error the source has lost what was read
/// until then; what was read is not given back.
pub fn read_all<S: Source>(
    alloc: Global,
    limit: usize,
    source: &mut S,
) -> Result<Vec<u8>, ReadError>
    ensures whole { IfOk result (λ bytes. Tells (S.left source.old) bytes.items) }
    ensures within { IfOk result (λ bytes. vec_len bytes ≤ limit) }
    ensures end { IfOk result (λ _. IsAtEnd (S.left source.new)) }

    // Too long is the answer exactly where more than the limit was taken.
    ensures long { IsErrOf result ReadError.TooLong → IsSome (S.left source.old)
        → limit < taken_len (S.left source.old) (S.left source.new) }
    ensures short { (result ≢ Err ReadError.TooLong)
        → taken_len (S.left source.old) (S.left source.new) ≤ limit }

    ensures fault { IsErrOf result ReadError.Failed → Rose (S.faults source.old) (S.faults source.new) }
    ensures monotone { S.faults source.old ≤ S.faults source.new }
    ensures front { TakesFront (S.left source.old) (S.left source.new) }
    ensures tells { TellsAsBefore (S.left source.old) (S.left source.new) }
{
    let mut bytes = Vec::new(alloc);
    let Ok(mut buf) = buffer_of(alloc, PIECE) else {
        return Err(ReadError::OutOfMemory);
    };
    'turns: loop {
        let count = match source.read(&mut buf) {
            Ok(count) => count,
            Err(Failed) => return Err(ReadError::Failed),
        };
        if count == 0 {
            return Ok(bytes);
        }
        if count > limit - bytes.len() {
            return Err(ReadError::TooLong);
        }
        if bytes.extend_from_slice(&buf[..count]).is_err() {
            return Err(ReadError::OutOfMemory);
        }
    }
}

fn buffer_of(alloc: Global, len: usize) -> Result<Vec<u8>, AllocError>
    ensures { IfOk result (λ buffer. vec_len buffer ≡ len) }
{
    vec![in alloc; 0u8; len]
}
