//! Rows of bits.

ghost use Rattle.std.specs.Prelude.{◌≡◌, ◌<◌, ◌≤◌, ◌+◌, ◌++◌, [], false, length, replicate};
ghost use Rattle.std.specs.Prelude.{IfOk, OnOk, OnErr};
ghost use Rattle.zx_model.specs.Bits.{bit};
ghost use Rattle.zx_bits.specs.Rows.{flipped, xor_lists, parity_of, IsFirstFrom};

use crate::window::Window;
use std::alloc::{AllocError, Global};
use std::marker::Model;

/// A row of bits, seen as their list. It has the memory for all of them, whichever are set.
#[derive(Drop)]
pub struct BitRow {
    len: usize,
    window: Window,
}

impl Model for BitRow {
    ghost use Rattle.zx_bits.specs.Rows as rows;

    ghost Value = { rows.BitRow };

    ghost use Rattle.zx_bits.specs.Internal.Windows.{row_of, IsWithin};

    ghost view = { λ row. row_of row.len row.window };

    ghost invariant = { λ row. IsWithin row.len row.window };
}

impl Clone for BitRow {
    ghost is_clone = { λ row copy. copy.bits ≡ row.bits };

    fn clone(&self) -> Result<BitRow, AllocError> {
        let mut window = self.window.copy()?;
        window.reserve(self.len.div_ceil(64))?;
        Ok(BitRow {
            len: self.len,
            window,
        })
    }
}

impl BitRow {
    /// A row of so many bits, none of them set.
    ///
    /// # Errors
    ///
    /// Where memory runs out.
    pub fn new(alloc: Global, bits: usize) -> Result<BitRow, AllocError>
        ensures { IfOk result (λ row. row.bits ≡ replicate bits false) }
    {
        let mut row = BitRow::empty(alloc);
        row.grow(bits)?;
        Ok(row)
    }

    /// The row without bits. It takes no memory.
    pub fn empty(alloc: Global) -> BitRow
        ensures { result.bits ≡ [] }
    {
        BitRow {
            len: 0,
            window: Window::new(alloc),
        }
    }

    /// How many bits it has.
    pub fn len(&self) -> usize
        ensures { result ≡ length self.now.bits }
    {
        self.len
    }

    /// Whether a bit is set.
    pub fn get(&self, i: usize) -> bool
        requires { i < length self.now.bits }
        ensures { result ≡ bit self.now.bits i }
    {
        self.window.is_set(i)
    }

    /// Negates a bit. It takes no memory.
    pub fn flip(&mut self, i: usize)
        requires { i < length self.old.bits }
        ensures { self.new.bits ≡ flipped self.old.bits i }
    {
        self.window.flip(i).unwrap()
    }

    /// Adds a row of the same length. It takes no memory.
    pub fn xor(&mut self, other: &BitRow)
        requires { length other.now.bits ≡ length self.old.bits }
        ensures { self.new.bits ≡ xor_lists self.old.bits other.now.bits }
    {
        self.window.xor(&other.window).unwrap()
    }

    /// Unsets each bit. It takes no memory.
    pub fn clear(&mut self)
        ensures { self.new.bits ≡ replicate (length self.old.bits) false }
    {
        self.window.clear();
    }

    /// Whether an odd number of places are set in both rows, which have the same length.
    pub fn parity_with(&self, other: &BitRow) -> bool
        requires { length other.now.bits ≡ length self.now.bits }
        ensures { result ≡ parity_of self.now.bits other.now.bits }
    {
        self.window.parity_with(&other.window)
    }

    /// The first set bit that isn't below `i`.
    pub fn bit_from(&self, i: usize) -> Option<usize>
        ensures { IsFirstFrom (bit self.now.bits) i result }
    {
        self.window.first_from(i)
    }

    /// Adds bits at the end, none of them set.
    ///
    /// # Errors
    ///
    /// Where memory runs out, and where their number would leave its type: the row is as it was.
    pub fn grow(&mut self, bits: usize) -> Result<(), AllocError>
        ensures ok { OnOk result (self.new.bits ≡ self.old.bits ++ replicate bits false) }
        ensures err { OnErr result (self.new ≡ self.old) }
    {
        match self.len.checked_add(bits) {
            Some(len) => {
                self.window.reserve(len.div_ceil(64))?;
                self.len = len;
                Ok(())
            }
            None => Err(AllocError),
        }
    }
}
