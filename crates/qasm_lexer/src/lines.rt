//! The whole lines among bytes.

ghost use Rattle.std.specs.Prelude.{◌≤◌, length, take};
ghost use Rattle.qasm_lexer.specs.Taken.{AreLines};

/// How many bytes stand up to the last line feed, together with it; 0 where there is none.
pub fn whole_lines(bytes: &[u8]) -> usize
    ensures within { result ≤ length bytes.now }
    ensures lines { AreLines (take result bytes.now) }
{
    let mut count = bytes.len();
    while count > 0 && bytes[count - 1] != b'\n' {
        count -= 1;
    }
    count
}
