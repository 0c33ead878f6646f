//! A text in memory as a source.

ghost use Rattle.std.specs.Prelude.{◌≡◌, ℕ, List, Some};

use std::marker::Model;
use zx_io::{Failed, Source};

/// A text that isn't copied, of which each read moves as many bytes as there is room for. No read fails.
#[derive(Drop)]
pub struct Text<'a> {
    left: &'a [u8],
}

// A clause sees the bytes that are left.
impl<'a> Model for Text<'a> {
    ghost Value = { List ℕ };

    ghost view = { λ text. text.left.now };
}

impl<'a> Text<'a> {
    /// A text of these bytes.
    pub fn new(bytes: &'a [u8]) -> Text<'a>
        ensures { result ≡ bytes.entry.now }
    {
        Text { left: bytes }
    }
}

impl<'a> Source for Text<'a> {
    ghost left = { λ text. Some text };

    ghost faults = { λ _. 0 };

    fn read(&mut self, buf: &mut [u8]) -> Result<usize, Failed> {
        let count = buf.len().min(self.left.len());
        let (moved, left) = self.left.split_at(count);
        buf[..count].copy_from_slice(moved);
        self.left = left;
        Ok(count)
    }
}
