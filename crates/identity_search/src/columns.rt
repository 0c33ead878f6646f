//! Sets of columns: of the parities that phases are about.

use crate::drawing::Drawing;
use std::alloc::{AllocError, Global};

// The most columns of a set.
const MOST_COLUMNS: usize = 4_096;

// How many bits of a key tell the slot in which its column is looked for.
const SLOT_BITS: u32 = 14;

/// How many slots there are.
pub(crate) const SLOTS: usize = 1 << SLOT_BITS;

// The number of no column.
const NONE: u16 = u16::MAX;

/// A column, as bits, and its key.
#[derive(Clone, Copy, PartialEq, Eq)]
pub(crate) struct Column {
    /// The bits.
    pub(crate) bits: u64,
    /// The key: keys of sums are sums of keys.
    pub(crate) key: u32,
}

impl Column {
    /// The column of no bits.
    pub(crate) const ZERO: Column = Column { bits: 0, key: 0 };

    /// The sum of two columns.
    #[inline(always)]
    pub(crate) fn plus(self, other: Column) -> Column {
        Column {
            bits: self.bits ^ other.bits,
            key: self.key ^ other.key,
        }
    }

    /// The column itself where the other one has a bit, else 0.
    #[inline(always)]
    pub(crate) fn where_bit(self, other: u64, bit: u32) -> Column {
        let is_set = other.wrapping_shr(bit) & 1;
        let mask = if is_set == 1 { u32::MAX } else { 0 };
        Column {
            bits: self.bits & 0_u64.wrapping_sub(is_set),
            key: self.key & mask,
        }
    }

    /// The slot of the column's key.
    #[inline(always)]
    pub(crate) fn slot(self) -> usize {
        self.key as usize % SLOTS
    }
}

/// A drawn linear map from columns to keys.
#[derive(Drop)]
pub(crate) struct Keys {
    // The keys of the 256 columns with bits in one byte alone, byte by byte.
    bytes: Vec<u32>,
}

impl Keys {
    /// Keys of so many bits, at most 32.
    pub(crate) fn new(
        alloc: Global,
        width: u32,
        drawing: &mut Drawing,
    ) -> Result<Keys, AllocError> {
        let mask = u32::MAX.wrapping_shr(32_u32.wrapping_sub(width));
        let mut bytes: Vec<u32> = Vec::with_capacity(alloc, 2_048)?;
        for _ in 0..8 {
            let start = bytes.len();
            bytes.push(0)?;
            for bit in 0..8_u32 {
                let key = drawing.word() & mask;
                for low in 0..1_usize.wrapping_shl(bit) {
                    let other = bytes.get(start.wrapping_add(low)).copied().unwrap_or(0);
                    bytes.push(other ^ key)?;
                }
            }
        }
        Ok(Keys { bytes })
    }

    /// A column with its key.
    pub(crate) fn column(&self, bits: u64) -> Column {
        let mut key = 0;
        for byte in 0..8_u32 {
            let value = bits.wrapping_shr(byte.wrapping_mul(8)) as usize % 256;
            let place = (byte as usize).wrapping_mul(256).wrapping_add(value);
            key ^= self.bytes.get(place).copied().unwrap_or(0);
        }
        Column { bits, key }
    }
}

/// A set of columns with their keys.
#[derive(Drop)]
pub(crate) struct ColumnSet {
    columns: Vec<Column>,
    // The number of the column that is looked at first in each slot.
    first: Vec<u16>,
    // The number of the one that is looked at behind each column.
    next: Vec<u16>,
}

impl ColumnSet {
    /// No columns.
    pub(crate) fn new(alloc: Global) -> Result<ColumnSet, AllocError> {
        let mut first = Vec::new(alloc);
        first.resize(SLOTS, NONE)?;
        Ok(ColumnSet {
            columns: Vec::new(alloc),
            first,
            next: Vec::new(alloc),
        })
    }

    /// The columns, in the order of their numbers.
    #[inline(always)]
    pub(crate) fn columns(&self) -> &[Column] {
        &self.columns
    }

    /// How many columns there are.
    #[inline(always)]
    pub(crate) fn count(&self) -> usize {
        self.columns.len()
    }

    /// A column by its number, 0 where there is none.
    #[inline(always)]
    pub(crate) fn at(&self, number: usize) -> Column {
        self.columns.get(number).copied().unwrap_or(Column::ZERO)
    }

    /// The number of a column, where it is there.
    #[inline(always)]
    pub(crate) fn number_of(&self, column: Column) -> Option<usize> {
        let mut number = self.first.get(column.slot()).copied().unwrap_or(NONE);
        for _ in 0..self.columns.len() {
            let there = self.columns.get(usize::from(number))?;
            if there.bits == column.bits {
                return Some(usize::from(number));
            }
            number = self.behind(number);
        }
        None
    }

    fn behind(&self, number: u16) -> u16 {
        self.next.get(usize::from(number)).copied().unwrap_or(NONE)
    }

    /// Whether a column is there.
    #[inline(always)]
    pub(crate) fn contains(&self, column: Column) -> bool {
        self.number_of(column).is_some()
    }

    /// Puts in a column that isn't there, if there is room. Tells whether there was.
    pub(crate) fn put_in(&mut self, column: Column) -> Result<bool, AllocError> {
        let count = self.columns.len();
        if count >= MOST_COLUMNS {
            return Ok(false);
        }
        self.columns.push(column)?;
        let slot = column.slot();
        let old = self.first.get(slot).copied().unwrap_or(NONE);
        self.next.push(old)?;
        self.set_first(slot, count as u16);
        Ok(true)
    }

    /// Takes out the column of a number; the last one gets that number.
    pub(crate) fn take_out(&mut self, number: usize) {
        let last = self.columns.len().saturating_sub(1);
        let behind = self.behind(name_of(number));
        self.relink(number, behind);
        if number != last {
            self.relink(last, name_of(number));
            let behind = self.behind(name_of(last));
            if let Some(entry) = self.next.get_mut(number) {
                *entry = behind;
            }
            let moved = self.at(last);
            if let Some(entry) = self.columns.get_mut(number) {
                *entry = moved;
            }
        }
        self.columns.pop();
        self.next.pop();
    }

    // What is looked at in front of the column of a number leads to another one.
    fn relink(&mut self, number: usize, to: u16) {
        let slot = self.at(number).slot();
        let mut before = self.first.get(slot).copied().unwrap_or(NONE);
        if usize::from(before) == number {
            self.set_first(slot, to);
            return;
        }
        for _ in 0..self.columns.len() {
            let behind = self.behind(before);
            if usize::from(behind) == number {
                if let Some(entry) = self.next.get_mut(usize::from(before)) {
                    *entry = to;
                }
                return;
            }
            before = behind;
        }
    }

    fn set_first(&mut self, slot: usize, number: u16) {
        if let Some(entry) = self.first.get_mut(slot) {
            *entry = number;
        }
    }
}

// A number as it is kept.
fn name_of(number: usize) -> u16 {
    u16::try_from(number).unwrap_or(NONE)
}
