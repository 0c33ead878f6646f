//! With which odds a flat is turned.

use crate::drawing::Drawing;

/// How many weights a flat may have: twice the number of its columns, at most 32, and 0.
pub(crate) const WEIGHTS: usize = 33;

// The odds of staying where equal moves are taken.
const UNIT: u64 = 1 << 20;

// The odds of weights from 14 on, e^(4 * (weight - 16)) times `UNIT`; those behind them have the last one.
const STEEP: [u64; 7] = [
    352,
    19_205,
    1 << 20,
    57_250_468,
    3_125_768_857,
    170_663_800_000,
    9_317_900_000_000,
];

/// The odds of turning a flat of each weight, and of turning none.
#[derive(Clone, Copy)]
pub(crate) struct Odds {
    of: [u64; WEIGHTS],
    staying: u64,
    /// The least weight that is looked for.
    pub(crate) least: u32,
}

impl Odds {
    /// Flats of this weight or more alone, heavy ones above all: one is always turned.
    pub(crate) fn gains(least: u32) -> Odds {
        let mut of = [0; WEIGHTS];
        for weight in least..WEIGHTS as u32 {
            if let Some(odds) = of.get_mut(weight as usize) {
                *odds = 1_u64.wrapping_shl(weight);
            }
        }
        Odds {
            of,
            staying: 0,
            least,
        }
    }

    /// Gains, and flats that change the number of columns by nothing.
    pub(crate) fn equal() -> Odds {
        Odds {
            of: steep(0, 0),
            staying: UNIT,
            least: 16,
        }
    }

    /// The same, and some that make it greater.
    pub(crate) fn worse() -> Odds {
        Odds {
            of: steep(352 * 32, 19_205 * 32),
            staying: UNIT,
            least: 14,
        }
    }

    /// The weight of a flat that is turned, where so many of each weight may be; or none.
    pub(crate) fn draw(&self, counts: &[u32; WEIGHTS], drawing: &mut Drawing) -> Option<usize> {
        let mut total = self.staying;
        for weight in 0..WEIGHTS {
            total = total.saturating_add(self.share(counts, weight));
        }
        let mut left = drawing.below_wide(total);
        for weight in (0..WEIGHTS).rev() {
            let share = self.share(counts, weight);
            if left < share {
                return Some(weight);
            }
            left = left.wrapping_sub(share);
        }
        None
    }

    // The odds of all flats of a weight, where there are so many of each.
    fn share(&self, counts: &[u32; WEIGHTS], weight: usize) -> u64 {
        let count = counts.get(weight).copied().unwrap_or(0);
        let odds = self.of.get(weight).copied().unwrap_or(0);
        u64::from(count).saturating_mul(odds)
    }
}

// The odds by `STEEP`, but for those of the weights 14 and 15.
fn steep(of_fourteen: u64, of_fifteen: u64) -> [u64; WEIGHTS] {
    let mut of = [0; WEIGHTS];
    for weight in 14..WEIGHTS {
        let last = STEEP.len().saturating_sub(1);
        let number = weight.saturating_sub(14).min(last);
        of[weight] = STEEP.get(number).copied().unwrap_or(0);
    }
    of[14] = of_fourteen;
    of[15] = of_fifteen;
    of
}
