//! Reading a source to its end, and writing all of some bytes to a sink.

ghost use Rattle.std.specs.Prelude.{◌≡◌, ℕ, ◌+◌, ◌-◌, ◌^◌, ◌<◌, ◌≤◌, List, [], ◌++◌, length, take, drop, None, Some, IfOk, OnOk, OnErr, IsErrOf};
ghost use Rattle.std.specs.Io.KnownBytes.{Appends};
ghost use Rattle.zx_io.specs.Causes.{Rose};

use crate::errors::{ReadError, WriteFault};
use crate::pieces::read_pieces;
use crate::streams::{Failed, Sink, Source};
use std::alloc::Global;

/// Reads all bytes of the source, up to its end, where they are at most `limit`.
/// It takes at most `limit + 1` bytes, and knows by the last one that they are too many.
pub fn read_all<S: Source>(
    alloc: Global,
    source: &mut S,
    limit: usize,
) -> Result<Vec<u8>, ReadError>
    requires { limit < 2 ^ 64 - 1 }
    ensures bytes { IfOk result (λ v. (bytes : List ℕ) → S.left source.old ≡ Some bytes
        → (v.items ≡ bytes) × (S.left source.new ≡ Some [])) }
    ensures within { IfOk result (λ v. length v.items ≤ limit) }
    ensures ok { OnOk result (S.faults source.new ≡ S.faults source.old) }
    ensures read_fault { IsErrOf result ReadError.ReadFault
        → Rose (S.faults source.old) (S.faults source.new) }
    ensures too_long { IsErrOf result ReadError.TooLong → (bytes : List ℕ) → S.left source.old ≡ Some bytes
        → (limit < length bytes) × (S.left source.new ≡ Some (drop (limit + 1) bytes)) }
    ensures too_long_ok { IsErrOf result ReadError.TooLong → S.faults source.new ≡ S.faults source.old }
    ensures no_memory { IsErrOf result ReadError.NoMemory → S.faults source.new ≡ S.faults source.old }
    ensures prefix { (bytes : List ℕ) → S.left source.old ≡ Some bytes
        → (k : ℕ) × (k ≤ limit + 1) × (S.left source.new ≡ Some (drop k bytes)) }
    ensures later { S.faults source.old ≤ S.faults source.new }
{
    let mut bytes = Vec::new(alloc);
    read_pieces(source, limit, &mut bytes)?;
    Ok(bytes)
}

/// Writes all bytes to the sink, and flushes it.
pub fn write_all<K: Sink>(sink: &mut K, bytes: &[u8]) -> Result<(), WriteFault>
    ensures ok { OnOk result (K.faults sink.new ≡ K.faults sink.old) }
    ensures all { OnOk result (Appends (K.taken sink.old) (K.taken sink.new) bytes.now) }
    ensures flushed { OnOk result (K.pending sink.new ≡ 0) }
    ensures write_fault { OnErr result (Rose (K.faults sink.old) (K.faults sink.new)) }
    ensures prefix { OnErr result ((taken : List ℕ) → K.taken sink.old ≡ Some taken
        → (k : ℕ) × (k ≤ length bytes.now) × (K.taken sink.new ≡ Some (taken ++ take k bytes.now))) }
    ensures later { K.faults sink.old ≤ K.faults sink.new }
{
    let mut done = 0;
    while done < bytes.len() {
        match sink.write(&bytes[done..]) {
            Ok(count) => done += count,
            Err(Failed) => return Err(WriteFault),
        }
    }
    match sink.flush() {
        Ok(()) => Ok(()),
        Err(Failed) => Err(WriteFault),
    }
}
