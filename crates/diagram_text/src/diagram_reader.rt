//! Diagram files that are read.

ghost use Rattle.std.specs.Prelude.{◌<◌, ◌≤◌, ◌⊎◌, ℕ, length, IfOk, IsOk, IsErrOf};
ghost use Rattle.zx_diagram.specs.Diagram as zx;
ghost use Rattle.zx_text.specs.Reading.{most_bytes};
ghost use Rattle.zx_text.specs.declared.error.TextError.TheVariants.{BadLine, TooLong, NoMemory};
ghost use Rattle.diagram_text.specs.Reading.{SpellsDiagram, IsBadLine};

use crate::reader::Reader;
use std::alloc::Global;
use zx_diagram::Diagram;
use zx_text::{TextError, read_file};

/// The diagram that a file spells.
///
/// # Errors
///
/// `TooLong` where there are more than 16,777,216 bytes; else `BadLine` with the number of the
/// first line that doesn't fit, where the bytes aren't a file; `NoMemory` where memory runs out.
pub fn read_diagram(alloc: Global, bytes: &[u8]) -> Result<Diagram, TextError>
    ensures ok { IfOk result (λ d. SpellsDiagram bytes.now d) }
    ensures short { IsOk result → length bytes.now ≤ most_bytes }
    ensures accepted { (d : zx.Diagram) → SpellsDiagram bytes.now d →
        length bytes.now ≤ most_bytes → IsOk result ⊎ IsErrOf result NoMemory }
    ensures too_long { IsErrOf result TooLong → most_bytes < length bytes.now }
    ensures is_too_long { most_bytes < length bytes.now → IsErrOf result TooLong }
    ensures bad_line { (line : ℕ) → IsErrOf result (BadLine line) →
        (length bytes.now ≤ most_bytes) × IsBadLine bytes.now line }
    ensures refused { (line : ℕ) → IsBadLine bytes.now line →
        length bytes.now ≤ most_bytes → IsErrOf result (BadLine line) ⊎ IsErrOf result NoMemory }
{
    match read_file::<Reader>(alloc, bytes)? {
        Reader::Over(diagram) => Ok(diagram),
        Reader::Open(_diagram) => unreachable!(),
    }
}
