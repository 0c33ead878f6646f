//! Reading: from a source to all of its bytes.

ghost use Rattle.std.specs.Prelude.{◌≡◌, ◌≤◌, List, ℕ, [], Some, length, IfOk, IfErr, OnOk};
ghost use Rattle.zx_run.specs.FirstFault.{most_bytes};
ghost use Rattle.zx_run.specs.Answers.{told_source};
ghost use Rattle.zx_run.specs.Internal.Parts.{IsReadFailure};
ghost use Rattle.zx_run.specs.Internal.Refusals.{IsTooLong};

use crate::status::Status;
use std::alloc::Global;
use zx_io::{Source, read_all};

/// The most bytes that are read.
pub const MOST_BYTES: usize = 16_777_216;

/// All bytes that a source gives.
///
/// # Errors
///
/// `ReadFault` where a read fails; `Refused` with `TooLong` where there are too many; `NoMemory` where memory runs out.
pub fn read_bytes<S: Source>(alloc: Global, source: &mut S) -> Result<Vec<u8>, Status>
    ensures text { (text : List ℕ) → S.left source.old ≡ Some text
        → IfOk result (λ bytes. bytes.items ≡ text) }
    ensures short { IfOk result (λ bytes. length bytes.items ≤ most_bytes) }
    ensures reads_well { OnOk result (S.faults source.new ≡ S.faults source.old) }
    ensures end { (text : List ℕ) → S.left source.old ≡ Some text
        → OnOk result (S.left source.new ≡ Some []) }
    ensures failure { IfErr result (IsReadFailure IsTooLong
        (told_source S.left S.faults source.old) (told_source S.left S.faults source.new)) }
{
    Ok(read_all(alloc, source, MOST_BYTES)?)
}
