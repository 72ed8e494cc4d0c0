//! How bytes move from an end in memory into a buffer.
ghost use Rattle.std.specs.Prelude.{◌≡◌, ◌≤◌, ◌<◌, [], length, take};

/// Copies the front of what is left into the front of the buffer, at most `most` bytes, and answers how many.
pub(crate) fn copy_front(rest: &[u8], most: usize, buf: &mut [u8]) -> usize
    ensures bound { result ≤ length buf.new }
    ensures within { result ≤ length rest.now }
    ensures bytes { take result rest.now ≡ take result buf.new }
    ensures end { result ≡ 0 → 0 < length buf.new → 0 < most → rest.now ≡ [] }
{
    let room = buf.len().min(most);
    let count = room.min(rest.len());
    buf[..count].copy_from_slice(&rest[..count]);
    count
}
