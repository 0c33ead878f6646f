//! Reading a source piece by piece, so that its bytes needn't be in memory at once.

ghost use Rattle.std.specs.Prelude.{◌≡◌, ◌⊎◌, ℕ, ◌+◌, ◌-◌, ◌^◌, ◌<◌, ◌≤◌, List, [], ◌++◌, length, take, drop, None, Some, OnOk, OnErr, IsErrOf};
ghost use Rattle.zx_io.specs.Causes.{Rose};
ghost use Rattle.zx_io.specs.Handing.{HasRoomFor};

use crate::errors::ReadError;
use crate::streams::{Failed, Source};
use std::alloc::AllocError;

/// What takes bytes piece by piece.
pub trait Pieces {
    // It stands for this list of bytes. How they were cut into pieces doesn't matter.
    ghost stands_for: { Self → List ℕ → Type 0 };

    /// Takes the next bytes. Once there was no memory, nothing is told of what it stands for.
    fn take(&mut self, piece: &[u8]) -> Result<(), AllocError>
        ensures { (bytes : List ℕ) → stands_for self.old bytes
            → length bytes + length piece.now < 2 ^ 64
            → OnOk result (stands_for self.new (bytes ++ piece.now)) };
}

// A list of bytes stands for the bytes that it has.
impl Pieces for Vec<u8> {
    ghost stands_for = { λ taken bytes. taken.items ≡ bytes };

    fn take(&mut self, piece: &[u8]) -> Result<(), AllocError> {
        self.extend_from_slice(piece)
    }
}

// The most bytes that one read asks for.
const LONGEST_PIECE: usize = 4_096;

/// Reads all bytes of the source, up to its end, where they are at most `limit`, and hands them on as they come.
/// It takes at most `limit + 1` bytes, and knows by the last one that they are too many.
///
/// # Errors
///
/// `ReadFault` where a read fails, `TooLong` where there are more bytes, and `NoMemory` where there is no memory for a
/// piece, whichever comes first.
pub fn read_pieces<S: Source, P: Pieces>(
    source: &mut S,
    limit: usize,
    to: &mut P,
) -> Result<(), ReadError>
    requires { limit < 2 ^ 64 - 1 }
    // All bytes are handed on,
    ensures bytes { (before bytes : List ℕ) → P.stands_for to.old before → HasRoomFor before limit
        → S.left source.old ≡ Some bytes → OnOk result (P.stands_for to.new (before ++ bytes)) }
    ensures end { OnOk result ((bytes : List ℕ) → S.left source.old ≡ Some bytes
        → (length bytes ≤ limit) × (S.left source.new ≡ Some [])) }
    ensures within { (before : List ℕ) → P.stands_for to.old before → HasRoomFor before limit
        → OnOk result ((bytes : List ℕ) × (length bytes ≤ limit) × P.stands_for to.new (before ++ bytes)) }
    // and those before a fault too.
    ensures part { (before bytes : List ℕ) → P.stands_for to.old before → HasRoomFor before limit
        → S.left source.old ≡ Some bytes → IsErrOf result ReadError.ReadFault ⊎ IsErrOf result ReadError.TooLong
        → (k : ℕ) × (k ≤ limit) × P.stands_for to.new (before ++ take k bytes) }
    ensures ok { OnOk result (S.faults source.new ≡ S.faults source.old) }
    ensures read_fault { IsErrOf result ReadError.ReadFault
        → Rose (S.faults source.old) (S.faults source.new) }
    ensures too_long { IsErrOf result ReadError.TooLong → (bytes : List ℕ) → S.left source.old ≡ Some bytes
        → (limit < length bytes) × (S.left source.new ≡ Some (drop (limit + 1) bytes)) }
    ensures too_long_ok { IsErrOf result ReadError.TooLong → S.faults source.new ≡ S.faults source.old }
    ensures no_memory { IsErrOf result ReadError.NoMemory → S.faults source.new ≡ S.faults source.old }
    ensures prefix { (bytes : List ℕ) → S.left source.old ≡ Some bytes
        → (k : ℕ) × (k ≤ limit + 1) × (S.left source.new ≡ Some (drop k bytes)) }
    ensures later { S.faults source.old ≤ S.faults source.new }
{
    let mut buffer = [0; LONGEST_PIECE];
    let mut done = 0;
    loop {
        let room = limit + 1 - done;
        let asked = room.min(buffer.len());
        match source.read(&mut buffer[..asked]) {
            Err(Failed) => return Err(ReadError::ReadFault),
            Ok(0) => return Ok(()),
            Ok(count) if count == room => return Err(ReadError::TooLong),
            Ok(count) => {
                to.take(&buffer[..count])?;
                done += count;
            }
        }
    }
}
