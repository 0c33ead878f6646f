//! Files of any kind, read line by line.

ghost use Rattle.std.specs.Prelude.{◌≡◌, ◌≢◌, ◌⊎◌, ℕ, ◌<◌, ◌≤◌, ◌^◌, length, IfOk, IsOk, IsErrOf, IfNone, IfSome};
ghost use Rattle.zx_text.specs.BadLines.{IsFirstBad};
ghost use Rattle.zx_text.specs.Files.{Version as Written};
ghost use Rattle.zx_text.specs.Formats.{Format, IsFormat, IsTaken, IsRefused, IsHeaded};
ghost use Rattle.zx_text.specs.Reading.{most_bytes};
ghost use Rattle.zx_text.specs.Versions.{version_named};
ghost use Rattle.zx_text.specs.Internal.Answers.{IsLinesAnswer, IsTextAnswer};
ghost use Rattle.zx_text.specs.declared.error.TextError.TheVariants.{BadLine, TooLong, NoMemory};

use crate::error::TextError;
use crate::pieces::cut;
use crate::version::Version;
use std::alloc::{AllocError, Global};

/// What the lines so far of a file say. Files of one kind are read by one such type.
pub trait LineReader: Drop {
    // The kind of files.
    ghost format: { Format };

    // What the lines so far say.
    ghost state: { Self → format.State };

    /// Before the first line behind that of the version.
    fn new(alloc: Global) -> Self
        ensures { state result ≡ format.begun };

    /// The version that has this first line, here without its line feed.
    fn version_of(line: &[u8]) -> Option<Version>
        ensures some { IfSome result (λ version. format.word (version_named version) ≡ line.now) }
        ensures none { IfNone result ((version : Written) → format.word version ≢ line.now) };

    /// Whether the last line of a file is read.
    fn is_over(&self) -> bool
        ensures { result ≡ format.is_over (state self.now) };

    /// What one more line leads to, here without its line feed, if it fits.
    fn taken(self, alloc: Global, version: Version, line: &[u8]) -> Result<Option<Self>, AllocError>
        requires room { format.size (state self) < 2 ^ 32 }
        ensures taken { IfOk result (λ found. IfSome found (λ next.
            IsTaken format (version_named version) (state self) line.now (state next))) }
        ensures none { IfOk result (λ found. IfNone found
            (IsRefused format (version_named version) (state self) line.now)) };
}

/// What the lines of a file say, up to its end.
///
/// # Errors
///
/// `TooLong` where there are more than 16,777,216 bytes; else `BadLine` with the number of the first
/// line that doesn't fit, where the bytes aren't a file; `NoMemory` where memory runs out.
pub fn read_file<R: LineReader>(alloc: Global, bytes: &[u8]) -> Result<R, TextError>
    requires by_lines { IsFormat R.format }
    ensures ok { IfOk result (λ reader. IsHeaded R.format bytes.now (R.state reader)) }
    ensures short { IsOk result → length bytes.now ≤ most_bytes }
    ensures accepted { R.format.IsFile bytes.now → length bytes.now ≤ most_bytes →
        IsOk result ⊎ IsErrOf result NoMemory }
    ensures too_long { IsErrOf result TooLong → most_bytes < length bytes.now }
    ensures is_too_long { most_bytes < length bytes.now → IsErrOf result TooLong }
    ensures bad_line { (line : ℕ) → IsErrOf result (BadLine line) →
        (length bytes.now ≤ most_bytes) × IsFirstBad R.format.IsFile bytes.now line }
    ensures refused { (line : ℕ) → IsFirstBad R.format.IsFile bytes.now line →
        length bytes.now ≤ most_bytes → IsErrOf result (BadLine line) ⊎ IsErrOf result NoMemory }
{
    if bytes.len() > MOST_BYTES {
        return Err(TextError::TooLong);
    }
    read_text(alloc, bytes)
}

// The same of a text that isn't too long.
fn read_text<R: LineReader>(alloc: Global, bytes: &[u8]) -> Result<R, TextError>
    requires by_lines { IsFormat R.format }
    requires short { length bytes.now ≤ most_bytes }
    ensures { IsTextAnswer R.format R.state bytes.now result }
{
    let Some((first, rest)) = cut(bytes, b'\n') else {
        return Err(TextError::BadLine { line: 1 });
    };
    match R::version_of(first) {
        Some(version) => read_lines(alloc, version, rest),
        None => Err(TextError::BadLine { line: 1 }),
    }
}

// The same of the lines behind the first one.
fn read_lines<R: LineReader>(alloc: Global, version: Version, text: &[u8]) -> Result<R, TextError>
    requires by_lines { IsFormat R.format }
    requires short { length text.now ≤ most_bytes }
    ensures { IsLinesAnswer R.format R.state (version_named version) text.now result }
{
    let mut reader = R::new(alloc);
    let mut rest = text;
    let mut line = 2;
    while let Some((found, further)) = cut(rest, b'\n') {
        match reader.taken(alloc, version, found)? {
            Some(next) => reader = next,
            None => return Err(TextError::BadLine { line }),
        }
        rest = further;
        line += 1;
    }
    if rest.is_empty() && reader.is_over() {
        Ok(reader)
    } else {
        Err(TextError::BadLine { line })
    }
}

/// The most bytes that a file may have.
pub const MOST_BYTES: usize = 16_777_216;
