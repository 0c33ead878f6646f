//! How a source in memory moves its bytes.

ghost use Rattle.std.specs.Prelude.{◌≡◌, ◌+◌, ◌<◌, ◌≤◌, [], ◌++◌, length, take, drop, min};

// Moves at most `most` of the bytes past `at` into the start of `buf`, and answers how many.
pub(crate) fn move_bytes(bytes: &[u8], at: usize, most: usize, buf: &mut [u8]) -> usize
    requires { at ≤ length bytes.now }
    ensures count { result ≡ min most (min (length buf.old) (length (drop at bytes.now))) }
    ensures within { at + result ≤ length bytes.now }
    ensures moved { buf.new ≡ take result (drop at bytes.now) ++ drop result buf.old }
    ensures rest { drop at bytes.now ≡ take result buf.new ++ drop (at + result) bytes.now }
    ensures end { 1 ≤ most → 0 < length buf.old → result ≡ 0 → drop (at + result) bytes.now ≡ [] }
{
    let left = &bytes[at..];
    let count = most.min(buf.len().min(left.len()));
    buf[..count].copy_from_slice(&left[..count]);
    count
}
