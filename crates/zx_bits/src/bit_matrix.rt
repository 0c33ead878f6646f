//! Matrices of bits.

ghost use Rattle.std.specs.Prelude.{◌≡◌, ◌<◌, ◌++◌, ℕ, [], ◌∷◌, false, length, replicate};
ghost use Rattle.std.specs.Prelude.{OnOk, OnErr};
ghost use Rattle.zx_model.specs.Bits.{bit};
ghost use Rattle.zx_bits.specs.Rows.{row_at, with_row, flipped, xor_lists};

use crate::bit_row::BitRow;
use std::alloc::{AllocError, Global};
use std::marker::Model;
use std::mem;

/// A matrix of bits, seen as how many columns it has and the list of its rows.
#[derive(Drop)]
pub struct BitMatrix {
    alloc: Global,
    columns: usize,
    rows: Vec<BitRow>,
}

impl Model for BitMatrix {
    ghost use Rattle.std.specs.Prelude.{◌≡◌, map, length};
    ghost use Rattle.std.specs.List.{All};
    ghost use Rattle.zx_bits.specs.Rows as spec;

    ghost Value = { spec.BitMatrix };

    ghost view = { λ m. record { columns = m.columns; rows = map (λ row. row.bits) m.rows.items } };

    ghost invariant = { λ m. All (λ row. length row.bits ≡ m.columns) m.rows.items };
}

impl BitMatrix {
    /// A matrix without rows.
    pub fn new(alloc: Global, columns: usize) -> BitMatrix
        ensures columns { result.columns ≡ columns }
        ensures rows { result.rows ≡ [] }
    {
        BitMatrix {
            alloc,
            columns,
            rows: Vec::new(alloc),
        }
    }

    /// How many bits each row has.
    pub fn columns(&self) -> usize
        ensures { result ≡ self.now.columns }
    {
        self.columns
    }

    /// How many rows it has.
    pub fn height(&self) -> usize
        ensures value { result ≡ length self.now.rows }
        ensures each { (r : ℕ) → r < result → length (row_at self.now r) ≡ self.now.columns }
    {
        self.rows.len()
    }

    /// A row.
    pub fn row(&self, r: usize) -> &BitRow
        requires { r < length self.now.rows }
        ensures bits { result.now.bits ≡ row_at self.now r }
        ensures length { length result.now.bits ≡ self.now.columns }
    {
        &self.rows[r]
    }

    /// Takes the memory for so many more rows.
    pub fn reserve(&mut self, rows: usize) -> Result<(), AllocError>
        ensures { self.new ≡ self.old }
    {
        self.rows.reserve(rows)
    }

    /// Adds a row at the end, with no bit set.
    pub fn push_row(&mut self) -> Result<(), AllocError>
        ensures ok { OnOk result (self.new ≡ record self.old
            { rows = self.old.rows ++ replicate self.old.columns false ∷ [] }) }
        ensures err { OnErr result (self.new ≡ self.old) }
    {
        self.rows.push(BitRow::new(self.alloc, self.columns)?)?;
        Ok(())
    }

    /// Whether a bit is set.
    pub fn get(&self, r: usize, c: usize) -> bool
        requires row { r < length self.now.rows }
        requires column { c < self.now.columns }
        ensures { result ≡ bit (row_at self.now r) c }
    {
        self.row(r).get(c)
    }

    /// Negates a bit. It takes no memory.
    pub fn flip(&mut self, r: usize, c: usize)
        requires row { r < length self.old.rows }
        requires column { c < self.old.columns }
        ensures { self.new ≡ with_row self.old r (flipped (row_at self.old r) c) }
    {
        self.rows[r].flip(c);
    }

    /// Adds one row to another. It takes no memory.
    pub fn add_row(&mut self, from: usize, to: usize)
        requires from { from < length self.old.rows }
        requires to { to < length self.old.rows }
        ensures { self.new ≡
            with_row self.old to (xor_lists (row_at self.old to) (row_at self.old from)) }
    {
        if from == to {
            self.rows[to].clear();
            return;
        }
        let mut row = mem::replace(&mut self.rows[to], BitRow::empty(self.alloc));
        row.xor(&self.rows[from]);
        self.rows[to] = row;
    }
}
