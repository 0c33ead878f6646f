//! Noise on scores, from a seed.

use rand_core::utils::NextWord;
use rand_pcg::Lcg64Xsh32;

/// Numbers that are added to scores: below `UNIT` / 64 each, or 0 always.
#[derive(Drop)]
pub(crate) struct Noise {
    generator: Lcg64Xsh32,
    is_on: bool,
}

impl Noise {
    /// No noise.
    pub(crate) fn none() -> Noise {
        Noise {
            generator: Lcg64Xsh32::new(0, 0),
            is_on: false,
        }
    }

    /// The noise of a seed. Equal seeds give equal noise.
    pub(crate) fn of_seed(seed: u64) -> Noise {
        Noise {
            generator: Lcg64Xsh32::new(seed, 0),
            is_on: true,
        }
    }

    /// Noise of its own for one choice.
    pub(crate) fn for_choice(&mut self) -> Noise {
        if self.is_on {
            Noise::of_seed(u64::from(self.generator.next_word()))
        } else {
            Noise::none()
        }
    }

    /// The next number.
    pub(crate) fn next(&mut self) -> u64 {
        if self.is_on {
            u64::from(self.generator.next_word()).wrapping_mul(4)
        } else {
            0
        }
    }
}
