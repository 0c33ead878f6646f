//! How many planes a set of columns has: four columns with sum 0.

use crate::columns::Column;
use std::alloc::{AllocError, Global};

/// Of each key, how many pairs of columns have a sum with it, and how many pairs of such pairs there are.
#[derive(Drop)]
pub(crate) struct Planes {
    pairs: Vec<u16>,
    planes: u64,
}

impl Planes {
    /// No pairs, for keys of so many bits, at most 24.
    pub(crate) fn new(alloc: Global, width: u32) -> Result<Planes, AllocError> {
        let mut pairs = Vec::new(alloc);
        pairs.resize(1_usize.wrapping_shl(width.min(24)), 0)?;
        Ok(Planes { pairs, planes: 0 })
    }

    /// How many planes there are, as far as keys tell.
    pub(crate) fn count(&self) -> u64 {
        self.planes
    }

    /// How many pairs have a sum with the key of this column.
    #[inline(always)]
    pub(crate) fn pairs_of(&self, sum: Column) -> u16 {
        self.pairs.get(sum.key as usize).copied().unwrap_or(0)
    }

    /// A column comes beside others.
    pub(crate) fn add(&mut self, columns: &[Column], column: Column) {
        let mut more = 0_u64;
        for other in columns {
            if let Some(count) = self.pairs.get_mut((other.key ^ column.key) as usize) {
                more = more.wrapping_add(u64::from(*count));
                *count = count.wrapping_add(1);
            }
        }
        self.planes = self.planes.wrapping_add(more);
    }

    /// A column goes away from beside others.
    pub(crate) fn remove(&mut self, columns: &[Column], column: Column) {
        let mut fewer = 0_u64;
        for other in columns {
            if let Some(count) = self.pairs.get_mut((other.key ^ column.key) as usize) {
                *count = count.wrapping_sub(1);
                fewer = fewer.wrapping_add(u64::from(*count));
            }
        }
        self.planes = self.planes.wrapping_sub(fewer);
    }
}
