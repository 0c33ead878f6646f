//! Many walks, of which those that fall are copied and the others dropped.

use crate::drawing::Drawing;
use crate::walk::{SURE, Walk};
use std::alloc::{AllocError, Global};

// A move that leaves one plane fewer is taken with this chance in 2^32 less than surely, on the first level.
const FIRST_LOSS: u64 = SURE / 10;

// How many ends are told at most, and of few walks.
const MOST_ENDS: usize = 3;

const FEW_WALKS: usize = 24;

// For sets of how many columns most is done.
const MIDDLE: usize = 150;

/// How much is done in a search.
#[derive(Clone, Copy)]
pub(crate) struct Effort {
    // How many walks begin.
    walks: usize,
    // How many steps there are in all.
    steps: usize,
}

impl Effort {
    // That for a set of `MIDDLE` columns.
    const MOST: Effort = Effort {
        walks: 96,
        steps: 2_200_000,
    };

    /// That for a set of so many columns: with more than `MIDDLE` less in proportion; with fewer less too, steps by the
    /// square.
    pub(crate) fn for_columns(columns: usize) -> Effort {
        let Effort { walks, steps } = Effort::MOST;
        if columns > MIDDLE {
            return Effort {
                walks: part(walks, MIDDLE, columns),
                steps: part(steps, MIDDLE, columns),
            };
        }
        Effort {
            walks: part(walks, columns, MIDDLE).max(1),
            steps: part(part(steps, columns, MIDDLE), columns, MIDDLE),
        }
    }

    /// So many hundredths of it.
    pub(crate) fn part(self, percent: u64) -> Effort {
        let percent = percent as usize;
        Effort {
            walks: (self.walks.saturating_mul(percent) / 100).max(1),
            steps: self.steps.saturating_mul(percent) / 100,
        }
    }
}

fn part(all: usize, of: usize, whole: usize) -> usize {
    all.saturating_mul(of).checked_div(whole).unwrap_or(0)
}

// Where a walk stands.
#[derive(Drop)]
struct Parked {
    columns: Vec<u64>,
    best: Vec<u64>,
}

/// Sets with few columns that stand for the same as these, up to Clifford gates; the smallest first.
///
/// # Errors
///
/// Only where memory runs out.
pub(crate) fn search(
    alloc: Global,
    columns: &[u64],
    effort: Effort,
    seed: u64,
) -> Result<Vec<Vec<u64>>, AllocError> {
    let mut drawing = Drawing::new(seed);
    let mut walk = Walk::new(alloc, columns, u64::from(drawing.word()))?;
    let mut population = Population {
        parked: Vec::new(alloc),
        ends: Vec::new(alloc),
        most_ends: if effort.walks < FEW_WALKS {
            1
        } else {
            MOST_ENDS
        },
    };
    for _ in 0..effort.walks {
        population.begin(alloc, &mut walk, columns)?;
    }
    let levels = levels_of(effort.walks);
    for level in 0..levels {
        population.run(
            alloc,
            &mut walk,
            effort.steps / levels.max(1),
            loss_of(level, levels),
        )?;
        population.select(alloc)?;
    }
    Ok(population.ends)
}

/// The set to which one short walk leads.
///
/// # Errors
///
/// Only where memory runs out.
pub(crate) fn search_shortly(
    alloc: Global,
    walk: &mut Walk,
    columns: &[u64],
    steps: usize,
) -> Result<Vec<u64>, AllocError> {
    walk.restart(columns)?;
    walk.descend()?;
    walk.run(steps, SURE)?;
    let mut made = Vec::new(alloc);
    made.extend_from_slice(walk.best())?;
    Ok(made)
}

// How many levels there are until three quarters of the walks, again and again, are one.
fn levels_of(walks: usize) -> usize {
    let mut levels = 1_usize;
    let mut left = walks;
    for _ in 0..64 {
        if left <= 1 {
            break;
        }
        left = fewer(left);
        levels = levels.saturating_add(1);
    }
    levels
}

fn fewer(walks: usize) -> usize {
    walks.saturating_sub(walks.div_ceil(4)).max(1)
}

// By how much the chance is less than sure on a level: from `FIRST_LOSS` down to nothing.
fn loss_of(level: usize, levels: usize) -> u64 {
    let last = levels.saturating_sub(1);
    let left = last.saturating_sub(level) as u64;
    FIRST_LOSS
        .saturating_mul(left)
        .checked_div(last as u64)
        .unwrap_or(FIRST_LOSS)
}

#[derive(Drop)]
struct Population {
    parked: Vec<Parked>,
    // The smallest sets so far, the smallest first.
    ends: Vec<Vec<u64>>,
    most_ends: usize,
}

impl Population {
    // One walk more, as far as gains alone lead.
    fn begin(&mut self, alloc: Global, walk: &mut Walk, columns: &[u64]) -> Result<(), AllocError> {
        walk.load(columns, columns)?;
        walk.descend()?;
        self.parked.push(place_of(alloc, walk)?)?;
        Ok(())
    }

    // Each walk goes on, with so many steps in all.
    fn run(
        &mut self,
        alloc: Global,
        walk: &mut Walk,
        steps: usize,
        loss: u64,
    ) -> Result<(), AllocError> {
        let each = steps.checked_div(self.parked.len()).unwrap_or(0);
        for place in &mut self.parked {
            walk.load(&place.columns, &place.best)?;
            walk.run(each, SURE.saturating_sub(loss))?;
            *place = place_of(alloc, walk)?;
        }
        Ok(())
    }

    // Three quarters as many walks go on, in three copies each.
    fn select(&mut self, alloc: Global) -> Result<(), AllocError> {
        self.keep_ends(alloc)?;
        let next = fewer(self.parked.len());
        let kept = (next / 3).max(1);
        for _ in kept..self.parked.len() {
            let worst = self.worst();
            if worst < self.parked.len() {
                self.parked.swap_remove(worst);
            }
        }
        for number in kept..next {
            let copy = match self.parked.get(number.checked_rem(kept).unwrap_or(0)) {
                Some(place) => copy_of(place)?,
                None => break,
            };
            self.parked.push(copy)?;
        }
        Ok(())
    }

    // The number of a walk whose best set is largest.
    fn worst(&self) -> usize {
        let mut found = 0;
        let mut most = 0;
        for (number, place) in self.parked.iter().enumerate() {
            if place.best.len() >= most {
                found = number;
                most = place.best.len();
            }
        }
        found
    }

    // Keeps some of the smallest sets so far.
    fn keep_ends(&mut self, alloc: Global) -> Result<(), AllocError> {
        for place in &self.parked {
            let is_new = !self.ends.iter().any(|end| end[..] == place.best[..]);
            let size = place.best.len();
            let number = self.ends.iter().filter(|end| end.len() <= size).count();
            if is_new && number < self.most_ends {
                let mut end = Vec::new(alloc);
                end.extend_from_slice(&place.best)?;
                let last = self.ends.len();
                self.ends.insert(number.min(last), end)?;
                self.ends.truncate(self.most_ends);
            }
        }
        Ok(())
    }
}

// Where a walk stands now.
fn place_of(alloc: Global, walk: &Walk) -> Result<Parked, AllocError> {
    let mut best = Vec::new(alloc);
    best.extend_from_slice(walk.best())?;
    Ok(Parked {
        columns: walk.columns(alloc)?,
        best,
    })
}

fn copy_of(place: &Parked) -> Result<Parked, AllocError> {
    Ok(Parked {
        columns: place.columns.clone()?,
        best: place.best.clone()?,
    })
}
