//! The versions of graph files.

ghost use Rattle.std.specs.Prelude.{◌≡◌, ◌≢◌, ◌*◌, true, false, ltb, IfNone, IfSome};
ghost use Rattle.zx_model.specs.Phase.{turn};
ghost use Rattle.zx_text.specs.Files.{unit, Version as Written};
ghost use Rattle.zx_text.specs.Versions.{version_named};
ghost use Rattle.zx_text.specs.Internal.Said.{word};

use zx_model::Sixteenth;

/// A version of the files.
#[derive(Clone, Copy, Debug, PartialEq, Eq)]
pub enum Version {
    /// Phases are in eighth turns.
    One,
    /// Phases are in sixteenth turns.
    Two,
}

impl Version {
    // The version that has this first line, here without its line feed.
    pub(crate) fn of_header(line: &[u8]) -> Option<Version>
        ensures some { IfSome result (λ version. word (version_named version) ≡ line.now) }
        ensures none { IfNone result ((version : Written) → word version ≢ line.now) }
    {
        if line == b"zxg 1".as_slice() {
            Some(Version::One)
        } else if line == b"zxg 2".as_slice() {
            Some(Version::Two)
        } else {
            None
        }
    }

    /// The phase that is written as this number, if it is below a whole turn.
    pub fn phase(self, written: usize) -> Option<Sixteenth>
        ensures some { IfSome result (λ phase. phase ≡ written * unit (version_named self)) }
        ensures below { IfSome result (λ phase. ltb (written * unit (version_named self)) turn ≡ true) }
        ensures none { IfNone result (ltb (written * unit (version_named self)) turn ≡ false) }
    {
        match self {
            Version::One if written < 8 => Some(Sixteenth::new(written as u8 * 2)),
            Version::Two if written < 16 => Some(Sixteenth::new(written as u8)),
            _ => None,
        }
    }
}
