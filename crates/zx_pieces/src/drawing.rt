//! What is drawn for a search.

use rand_core::utils::NextWord;
use rand_pcg::Lcg64Xsh32;

// On how many qubits a part may be.
const WIDTHS: [u32; 7] = [2, 3, 4, 5, 6, 8, 12];

// A part has at least so many gates, where there are as many, and at most `SPREAD` more.
const FEWEST: usize = 8;

const SPREAD: usize = 200;

/// A generator of what a search tries.
#[derive(Drop)]
pub(crate) struct Drawing {
    generator: Lcg64Xsh32,
}

impl Drawing {
    /// The generator of a seed.
    pub(crate) fn new(seed: u64) -> Drawing {
        Drawing {
            generator: Lcg64Xsh32::new(seed, 1),
        }
    }

    /// A seed for what is drawn elsewhere.
    pub(crate) fn seed(&mut self) -> u64 {
        u64::from(self.generator.next_word())
    }

    /// A place in a list of so many; 0 where there is none.
    pub(crate) fn place(&mut self, count: usize) -> usize {
        self.below(count)
    }

    /// On how many qubits a part may be.
    pub(crate) fn width(&mut self) -> u32 {
        let number = self.below(WIDTHS.len());
        WIDTHS.get(number).copied().unwrap_or(2)
    }

    /// How many gates a part may have.
    pub(crate) fn size(&mut self) -> usize {
        self.below(SPREAD).saturating_add(FEWEST)
    }

    // A number below a limit; 0 where that is 0.
    fn below(&mut self, limit: usize) -> usize {
        let word = self.generator.next_word() as usize;
        word.checked_rem(limit).unwrap_or(0)
    }
}
