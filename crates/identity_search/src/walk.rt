//! A walk over sets of columns that stand for one another.

use crate::columns::{Column, ColumnSet, Keys, SLOTS};
use crate::drawing::Drawing;
use crate::flats::{Found, Plane};
use crate::odds::Odds;
use crate::planes::Planes;
use std::alloc::{AllocError, Global};

// How many bits of keys there are at least and at most.
const FEWEST_BITS: u32 = 14;

const MOST_BITS: u32 = 22;

// After how many steps in turn that do nothing a phase of gains ends.
const IDLE: usize = 400;

// The most steps of such a phase.
const MOST_STEPS: usize = 1_000_000;

// How often a pair is drawn until it has the sum of another one.
const DRAWS: usize = 200;

/// That of staying sure: a chance of 2^32 in 2^32.
pub(crate) const SURE: u64 = 1 << 32;

/// Sets of columns, from each of which the next one comes by turning a flat: those of its sixteen points that were
/// there go, the others come. What they stand for stays the same, up to Clifford gates.
#[derive(Drop)]
pub(crate) struct Walk {
    set: ColumnSet,
    planes: Planes,
    keys: Keys,
    // Whether 0 is a column as the others are, since all of them may be moved by one of them. Else it costs nothing, is
    // always there, and counts half.
    is_affine: bool,
    // The classes modulo a plane, and by slot twice how many columns they have.
    classes: Vec<Column>,
    weights: Vec<u8>,
    best: Vec<u64>,
    // With which chance in 2^32 a move that leaves one plane fewer is taken.
    kept: u64,
    drawing: Drawing,
}

impl Walk {
    /// A walk that begins from these columns.
    pub(crate) fn new(alloc: Global, columns: &[u64], seed: u64) -> Result<Walk, AllocError> {
        let mut drawing = Drawing::new(seed);
        let length = 64_u32.saturating_sub((columns.len().max(128) as u64).leading_zeros());
        let width = length
            .saturating_mul(2)
            .saturating_add(3)
            .clamp(FEWEST_BITS, MOST_BITS);
        let mut weights = Vec::new(alloc);
        weights.resize(SLOTS, 0)?;
        let mut walk = Walk {
            set: ColumnSet::new(alloc)?,
            planes: Planes::new(alloc, width)?,
            keys: Keys::new(alloc, width, &mut drawing)?,
            is_affine: may_be_moved(columns),
            classes: Vec::new(alloc),
            weights,
            best: Vec::new(alloc),
            kept: SURE,
            drawing,
        };
        walk.load(columns, columns)?;
        Ok(walk)
    }

    /// Goes on from another set, whose best one was this.
    pub(crate) fn load(&mut self, columns: &[u64], best: &[u64]) -> Result<(), AllocError> {
        for _ in 0..self.set.count() {
            let last = self.set.at(self.set.count().saturating_sub(1));
            self.turn(last)?;
        }
        if !self.is_affine && self.set.count() == 0 {
            self.put_in(Column::ZERO)?;
        }
        for bits in columns {
            let column = self.keys.column(*bits);
            self.turn(column)?;
        }
        if self.is_affine && self.set.count() % 2 == 1 {
            self.turn(Column::ZERO)?;
        }
        self.best.clear();
        self.best.extend_from_slice(best)?;
        self.keep_best()
    }

    /// Goes on from these columns as a new walk does, with other odds where they may be moved or not.
    pub(crate) fn restart(&mut self, columns: &[u64]) -> Result<(), AllocError> {
        for _ in 0..self.set.count() {
            let last = self.set.at(self.set.count().saturating_sub(1));
            self.take_out(last);
        }
        self.is_affine = may_be_moved(columns);
        self.load(columns, columns)
    }

    /// The best set so far.
    pub(crate) fn best(&self) -> &[u64] {
        &self.best
    }

    /// The set without 0, moved so that 0 is among its columns where they may be moved.
    pub(crate) fn columns(&self, alloc: Global) -> Result<Vec<u64>, AllocError> {
        let mut made = Vec::with_capacity(alloc, self.set.count())?;
        let by = self.offset();
        for column in self.set.columns() {
            if column.bits != by {
                made.push(column.bits ^ by)?;
            }
        }
        Ok(made)
    }

    fn offset(&self) -> u64 {
        if self.set.contains(Column::ZERO) {
            0
        } else {
            self.set.at(0).bits
        }
    }

    // Puts a column in, or takes it out. A 0 that costs nothing stays.
    fn turn(&mut self, column: Column) -> Result<(), AllocError> {
        match self.set.number_of(column) {
            Some(_) if column.bits == 0 && !self.is_affine => {}
            Some(_) => self.take_out(column),
            None => self.put_in(column)?,
        }
        Ok(())
    }

    fn take_out(&mut self, column: Column) {
        if let Some(number) = self.set.number_of(column) {
            self.set.take_out(number);
            self.planes.remove(self.set.columns(), column);
        }
    }

    fn put_in(&mut self, column: Column) -> Result<(), AllocError> {
        self.planes.add(self.set.columns(), column);
        if !self.set.put_in(column)? {
            self.planes.remove(self.set.columns(), column);
        }
        Ok(())
    }

    // Keeps the set where it is the best so far.
    fn keep_best(&mut self) -> Result<(), AllocError> {
        if self.set.count().saturating_sub(1) >= self.best.len() {
            return Ok(());
        }
        let by = self.offset();
        self.best.clear();
        for column in self.set.columns() {
            if column.bits != by {
                self.best.push(column.bits ^ by)?;
            }
        }
        Ok(())
    }

    /// Takes flats with most columns first, as long as they make the set smaller.
    pub(crate) fn descend(&mut self) -> Result<(), AllocError> {
        for least in [20, 19, 18, 17] {
            if self.is_affine && least % 2 == 1 {
                continue;
            }
            self.gain(&Odds::gains(least))?;
        }
        Ok(())
    }

    // Steps with these odds until so many in turn do nothing.
    fn gain(&mut self, odds: &Odds) -> Result<(), AllocError> {
        let mut idle = 0_usize;
        for _ in 0..MOST_STEPS {
            idle = if self.step(odds)? {
                0
            } else {
                idle.saturating_add(1)
            };
            if idle >= IDLE {
                break;
            }
        }
        Ok(())
    }

    /// So many steps, in which a move that leaves one plane fewer is taken with this chance in 2^32.
    pub(crate) fn run(&mut self, steps: usize, kept: u64) -> Result<(), AllocError> {
        let (equal, worse) = (Odds::equal(), Odds::worse());
        self.kept = kept;
        for _ in 0..steps {
            if self.drawing.word() % 32 == 0 {
                self.step(&worse)?;
            } else {
                self.step(&equal)?;
            }
        }
        self.kept = SURE;
        Ok(())
    }

    // Of the flats through a drawn plane one is turned. Tells whether one was.
    fn step(&mut self, odds: &Odds) -> Result<bool, AllocError> {
        if self.set.count() < 8 {
            return Ok(false);
        }
        let Some(plane) = self.draw_plane() else {
            return Ok(false);
        };
        self.fill_classes(&plane)?;
        let found = self.flats(odds.least);
        self.clear_classes();
        if !found.is_any {
            return Ok(false);
        }
        let Some(weight) = odds.draw(&found.counts, &mut self.drawing) else {
            return Ok(false);
        };
        let (third, fourth) = found.pair(weight);
        self.turn_flat(&plane.points(third, fourth), weight)
    }

    // A plane through three columns, and a fourth one most often.
    fn draw_plane(&mut self) -> Option<Plane> {
        let (p, q) = self.draw_pair()?;
        let side = p.plus(q);
        let count = self.set.count();
        let from = self.drawing.below(count);
        for step in 0..count {
            let number = from.wrapping_add(step);
            let column = self.set.at(if number >= count {
                number.wrapping_sub(count)
            } else {
                number
            });
            if column != p && column != q && self.set.contains(column.plus(side)) {
                return Plane::new(p, side, column.plus(p));
            }
        }
        if self.drawing.below(16) > 0 {
            return None;
        }
        Plane::new(p, side, self.set.at(from).plus(p))
    }

    // Two columns, with the sum of two others most often.
    fn draw_pair(&mut self) -> Option<(Column, Column)> {
        let count = self.set.count();
        let mut last = None;
        for _ in 0..DRAWS {
            let p = self.set.at(self.drawing.below(count));
            let q = self.set.at(self.drawing.below(count));
            if p.bits != q.bits {
                last = Some((p, q));
                if self.planes.pairs_of(p.plus(q)) > 1 {
                    return last;
                }
            }
        }
        last
    }

    // The classes of all columns modulo a plane, and their weights.
    fn fill_classes(&mut self, plane: &Plane) -> Result<(), AllocError> {
        self.classes.clear();
        for column in self.set.columns() {
            let class = plane.class_of(*column);
            let weight = weight_of(*column, self.is_affine);
            if let Some(entry) = self.weights.get_mut(class.slot()) {
                if *entry == 0 {
                    self.classes.push(class)?;
                }
                *entry = entry.saturating_add(weight);
            }
        }
        Ok(())
    }

    fn clear_classes(&mut self) {
        for class in &self.classes {
            if let Some(entry) = self.weights.get_mut(class.slot()) {
                *entry = 0;
            }
        }
    }

    // The flats with at least this weight that a class of two columns or more and another one make of the plane.
    fn flats(&mut self, least: u32) -> Found {
        let mut found = Found::new();
        let own = weight_in(&self.weights, Column::ZERO);
        for (number, third) in self.classes.iter().enumerate() {
            let weight = weight_in(&self.weights, *third);
            if weight < 4 || third.bits == 0 {
                continue;
            }
            let start = own.wrapping_add(weight);
            for (place, fourth) in self.classes.iter().enumerate() {
                let other = weight_in(&self.weights, *fourth);
                let sum = weight_in(&self.weights, third.plus(*fourth));
                let weight = start.wrapping_add(other).wrapping_add(sum);
                let is_new = other < 4 || place > number;
                if weight >= least && is_new && fourth.bits != 0 && fourth.bits != third.bits {
                    found.add(weight as usize, (*third, *fourth), &mut self.drawing);
                }
            }
        }
        found
    }

    // Turns a flat, where it has this weight. It is turned back by chance where it makes the set no smaller and leaves
    // fewer planes. Tells whether it stays turned.
    fn turn_flat(&mut self, points: &[Column; 16], weight: usize) -> Result<bool, AllocError> {
        if self.weight_on(points) != weight {
            return Ok(false);
        }
        let before = self.planes.count();
        self.turn_all(points)?;
        if weight <= 16 {
            let fewer = before.saturating_sub(self.planes.count());
            if fewer > 0 && !self.drawing.is_met(power(self.kept, fewer)) {
                self.turn_all(points)?;
                return Ok(false);
            }
        }
        self.keep_best()?;
        Ok(true)
    }

    fn turn_all(&mut self, points: &[Column; 16]) -> Result<(), AllocError> {
        for point in points {
            self.turn(*point)?;
        }
        Ok(())
    }

    fn weight_on(&self, points: &[Column; 16]) -> usize {
        let mut weight = 0_usize;
        for point in points {
            if self.set.contains(*point) {
                weight = weight.wrapping_add(usize::from(weight_of(*point, self.is_affine)));
            }
        }
        weight
    }
}

// Twice what a column costs, where 0 isn't a column as the others are; that counts 1.
#[inline(always)]
fn weight_of(column: Column, is_affine: bool) -> u8 {
    if column.bits == 0 && !is_affine { 1 } else { 2 }
}

#[inline(always)]
fn weight_in(weights: &[u8], class: Column) -> u32 {
    u32::from(weights.get(class.slot()).copied().unwrap_or(0))
}

// Whether the phases about these columns have no term of degree one or two, up to Clifford gates: then all of them and
// 0 may be moved by one column.
fn may_be_moved(columns: &[u64]) -> bool {
    for bit in 0..64_u32 {
        let mut sum = 0;
        for column in columns {
            if column.wrapping_shr(bit) % 2 == 1 {
                sum ^= *column;
            }
        }
        if sum != 0 {
            return false;
        }
    }
    true
}

// A chance in 2^32, so many times.
fn power(chance: u64, times: u64) -> u64 {
    let mut result = SURE;
    let mut base = chance.min(SURE);
    let mut left = times;
    for _ in 0..64 {
        if left == 0 {
            break;
        }
        if left % 2 == 1 {
            result = product(result, base);
        }
        base = product(base, base);
        left /= 2;
    }
    result
}

// The product of two chances in 2^32.
fn product(a: u64, b: u64) -> u64 {
    if a >= SURE {
        b
    } else if b >= SURE {
        a
    } else {
        a.wrapping_mul(b).wrapping_shr(32)
    }
}
