//! Sets of numbers.

ghost use Rattle.std.specs.Prelude.{◌≡◌, ◌↔◌, ◌<◌, ◌≤◌, ◌+◌, ◌*◌, ◌==◌, ◌&&◌, ℕ, [], true, not, length};
ghost use Rattle.std.specs.Prelude.{count_by, IfSome, IsOk, OnOk, OnErr};
ghost use Rattle.std.specs.Int.{bit_at};
ghost use Rattle.zx_model.specs.Bits.{xor, member};
ghost use Rattle.zx_bits.specs.Rows.{IsFirstFrom};
ghost use Rattle.zx_bits.specs.Sets.{IsRising, IsBelow};

use crate::numbers::Numbers;
use crate::window::Window;
use std::alloc::{AllocError, Global};
use std::marker::Model;

/// A set of numbers, seen as these by rising size, and a bound below which any number can be added
/// without memory. It takes memory for the words from that of the least number to that of the
/// greatest, not for those before them, so it needs no length.
#[derive(Drop)]
pub struct BitSet {
    window: Window,
}

impl Model for BitSet {
    ghost use Rattle.std.specs.Prelude.{◌<◌, ◌^◌};
    ghost use Rattle.zx_bits.specs.Sets as sets;

    ghost Value = { sets.BitSet };

    ghost use Rattle.zx_bits.specs.Internal.Windows.{end_of, set_of};

    ghost view = { λ set. set_of set.window };

    ghost invariant = { λ set. end_of set.window < 2 ^ 58 };
}

impl Clone for BitSet {
    ghost is_clone = { λ set copy. copy.numbers ≡ set.numbers };

    fn clone(&self) -> Result<BitSet, AllocError> {
        Ok(BitSet {
            window: self.window.copy()?,
        })
    }
}

impl BitSet {
    /// The set without numbers. It takes no memory.
    pub fn new(alloc: Global) -> BitSet
        ensures { result.numbers ≡ [] }
    {
        BitSet {
            window: Window::new(alloc),
        }
    }

    /// How many numbers it has.
    pub fn len(&self) -> usize
        ensures value { result ≡ length self.now.numbers }
        ensures rising { IsRising self.now.numbers }
    {
        self.window.count()
    }

    /// Whether a number is in the set.
    pub fn contains(&self, number: usize) -> bool
        ensures { result ≡ member number self.now.numbers }
    {
        self.window.is_set(number)
    }

    /// The least number of the set that isn't below `start`.
    pub fn first_from(&self, start: usize) -> Option<usize>
        ensures first { IsFirstFrom (λ number. member number self.now.numbers) start result }
        ensures bounded { IfSome result (λ first. first < usize.MAX) }
    {
        self.window.first_from(start)
    }

    /// Which of the 64 numbers from `64 * index` on are in the set, as the bits of a word.
    pub fn word(&self, index: usize) -> u64
        ensures { (k : ℕ) → k < 64 → (bit_at result k == 1) ≡ member (64 * index + k) self.now.numbers }
    {
        self.window.word(index)
    }

    /// The numbers, by rising size.
    pub fn iter(&self) -> Numbers<'_>
        ensures value { result ≡ self.now.numbers }
        ensures rising { IsRising self.now.numbers }
    {
        Numbers::of_window(&self.window)
    }

    /// Adds a number that isn't in the set, and takes out one that is. The greatest 64 numbers of
    /// their type are refused as where memory runs out; the set is as it was.
    pub fn toggle(&mut self, number: usize) -> Result<(), AllocError>
        ensures ok { OnOk result ((other : ℕ) →
            member other self.new.numbers ≡ xor (member other self.old.numbers) (other == number)) }
        ensures err { OnErr result (self.new ≡ self.old) }
        ensures rising { IsRising self.new.numbers }
        ensures has_room { number < self.old.room → IsOk result }
        ensures keeps_room { number < self.old.room → self.old.room ≤ self.new.room }
    {
        let window = &mut self.window;
        if number >= usize::MAX - 63 {
            return Err(AllocError);
        }
        window.flip(number)
    }

    /// Takes a number out. It takes no memory.
    pub fn remove(&mut self, number: usize)
        ensures members { (other : ℕ) →
            member other self.new.numbers ≡ (member other self.old.numbers && not (other == number)) }
        ensures rising { IsRising self.new.numbers }
        ensures keeps_room { self.old.room ≤ self.new.room }
    {
        self.window.unset(number);
    }

    /// Adds the numbers of another set that aren't in this one, and takes out those that are. Where
    /// memory runs out, the set is as it was.
    pub fn xor(&mut self, other: &BitSet) -> Result<(), AllocError>
        ensures ok { OnOk result ((number : ℕ) →
            member number self.new.numbers ≡ xor (member number self.old.numbers) (member number other.now.numbers)) }
        ensures err { OnErr result (self.new ≡ self.old) }
        ensures rising { IsRising self.new.numbers }
        ensures has_room { IsBelow self.old.room other.now.numbers → IsOk result }
        ensures keeps_room { IsBelow self.old.room other.now.numbers →
            self.old.room ≤ self.new.room }
    {
        self.window.xor(&other.window)
    }

    /// Takes the numbers out that aren't in another set. It takes no memory.
    pub fn keep(&mut self, other: &BitSet)
        ensures members { (number : ℕ) →
            member number self.new.numbers ≡ (member number self.old.numbers && member number other.now.numbers) }
        ensures rising { IsRising self.new.numbers }
        ensures keeps_room { self.old.room ≤ self.new.room }
    {
        self.window.keep(&other.window);
    }

    /// Takes all numbers out. It takes no memory, and gives none back.
    pub fn clear(&mut self)
        ensures numbers { self.new.numbers ≡ [] }
        ensures keeps_room { self.old.room ≤ self.new.room }
    {
        self.window.clear();
    }

    /// Takes the memory for all numbers below one. Where it runs out, and at one of the greatest 63,
    /// the set is as it was.
    pub fn reserve(&mut self, numbers: usize) -> Result<(), AllocError>
        ensures numbers { self.new.numbers ≡ self.old.numbers }
        ensures ok { OnOk result (numbers ≤ self.new.room) }
        ensures err { OnErr result (self.new ≡ self.old) }
        ensures keeps_room { self.old.room ≤ self.new.room }
    {
        let window = &mut self.window;
        if numbers > usize::MAX - 63 {
            return Err(AllocError);
        }
        let words = numbers.div_ceil(64).max(window.end());
        window.reserve(words)
    }

    /// How many numbers two sets have in common.
    pub fn common_with(&self, other: &BitSet) -> usize
        ensures { result ≡ count_by (λ number. member number other.now.numbers) self.now.numbers }
    {
        self.window.count_common(&other.window)
    }

    /// Whether two sets have the same numbers.
    pub fn is_same(&self, other: &BitSet) -> bool
        ensures { (result ≡ true) ↔ (self.now.numbers ≡ other.now.numbers) }
    {
        self.window.is_same(&other.window)
    }
}
