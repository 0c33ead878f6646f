//! What is drawn for a search.

use rand_core::utils::NextWord;
use rand_pcg::Lcg64Xsh32;

/// A generator of what a search tries.
#[derive(Drop)]
pub(crate) struct Drawing {
    generator: Lcg64Xsh32,
}

impl Drawing {
    /// The generator of a seed. Equal seeds give equal numbers.
    pub(crate) fn new(seed: u64) -> Drawing {
        Drawing {
            generator: Lcg64Xsh32::new(seed, 2),
        }
    }

    /// Any number of 32 bits.
    #[inline(always)]
    pub(crate) fn word(&mut self) -> u32 {
        self.generator.next_word()
    }

    /// A number below a limit, which is at most 2^32; 0 where that is 0.
    #[inline(always)]
    pub(crate) fn below(&mut self, limit: usize) -> usize {
        let word = u64::from(self.generator.next_word());
        word.wrapping_mul(limit as u64).wrapping_shr(32) as usize
    }

    /// A number below a limit of any size; 0 where that is 0.
    pub(crate) fn below_wide(&mut self, limit: u64) -> u64 {
        let high = u64::from(self.generator.next_word());
        let low = u64::from(self.generator.next_word());
        (high.wrapping_shl(32) | low)
            .checked_rem(limit)
            .unwrap_or(0)
    }

    /// Yes with so many chances in 2^32.
    pub(crate) fn is_met(&mut self, chance: u64) -> bool {
        u64::from(self.generator.next_word()) < chance
    }
}
