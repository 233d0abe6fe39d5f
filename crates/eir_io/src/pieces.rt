//! The piece of bytes that a read of a source in memory hands out.
ghost use Rattle.std.specs.Prelude.{◌≡◌, ◌<◌, ◌≤◌, ◌+◌, ◌-◌, ◌++◌, [], length, min, take, drop};

/// Copies what fits of the bytes from a place on, and at most so many, to the front of the buffer. Says how many.
pub(crate) fn copy_piece(bytes: &[u8], at: usize, most: usize, buf: &mut [u8]) -> usize
    requires within { at ≤ length bytes.now }
    ensures count { result ≡ min (min (length buf.old) most) (length bytes.now - at) }
    ensures filled { buf.new ≡ take result (drop at bytes.now) ++ drop result buf.old }
    ensures left { drop at bytes.now ≡ take result buf.new ++ drop (at + result) bytes.now }
    ensures end { 0 < most → result ≡ 0 → 0 < length buf.new → drop (at + result) bytes.now ≡ [] }
{
    let count = buf.len().min(most).min(bytes.len() - at);
    buf[..count].copy_from_slice(&bytes[at..at + count]);
    count
}
