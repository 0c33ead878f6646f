//! The numbers of a set, one after the other.

ghost use Rattle.std.specs.Prelude.{◌≡◌, ◌<◌, ◌≤◌, ◌^◌, ℕ, length, get_or};
ghost use Rattle.std.specs.Iterator.{YieldsFirst, item_count};
ghost use Rattle.zx_bits.specs.Internal.Windows.{end_of, places_of};

use crate::window::{WORD, Window};
use std::marker::Model;

/// The numbers of a set by rising size, seen as the list of those that are left.
#[derive(Drop)]
pub struct Numbers<'a> {
    words: &'a [u64],
    // how many words of the row come before these
    offset: usize,
    // which of them is read
    index: usize,
    // its bits that weren't told yet
    rest: u64,
}

impl<'a> Model for Numbers<'a> {
    ghost use Rattle.std.specs.Prelude.{◌<◌, ◌≤◌, ◌+◌, ◌^◌, ℕ, List, length};
    ghost use Rattle.zx_bits.specs.Internal.Windows.{left_of};

    ghost Value = { List ℕ };

    ghost view = { λ it. left_of it.offset it.words.now it.index it.rest };

    ghost invariant = { λ it. (it.offset + length it.words.now < 2 ^ 58)
        × (it.index ≤ length it.words.now) × (0 < it.rest → it.index < length it.words.now) };
}

impl<'a> Numbers<'a> {
    pub(crate) fn of_window(window: &'a Window) -> Numbers<'a>
        requires { end_of window.now < 2 ^ 58 }
        ensures { result ≡ places_of window.now }
    {
        Numbers {
            words: window.words.as_slice(),
            offset: window.offset,
            index: 0,
            rest: window.word(window.offset),
        }
    }
}

impl<'a> Iterator for Numbers<'a> {
    type Item = usize;

    ghost next_gives = { YieldsFirst (λ rest. rest) };

    ghost remaining = { item_count (λ rest. rest) };

    fn next(&mut self) -> Option<usize> {
        if self.rest == 0 {
            let index = next_used(self.words, self.index);
            if index >= self.words.len() {
                return None;
            }
            self.index = index;
            self.rest = self.words[index];
        }
        let bit = self.rest.trailing_zeros();
        self.rest ^= 1 << bit;
        Some((self.offset + self.index) * WORD + bit as usize)
    }
}

// The index of the first word behind one that has a bit set, or how many words there are.
fn next_used(words: &[u64], index: usize) -> usize
    requires { index ≤ length words.now }
    ensures within { result ≤ length words.now }
    ensures behind { result < length words.now → index < result }
    ensures zeros { (i : ℕ) → index < i → i < result → get_or words.now i 0 ≡ 0 }
    ensures some { result < length words.now → 0 < get_or words.now result 0 }
{
    for next in index + 1..words.len() {
        if words[next] != 0 {
            return next;
        }
    }
    words.len()
}
