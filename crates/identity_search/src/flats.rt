//! Flats of sixteen points that hold many columns.

use crate::columns::Column;
use crate::drawing::Drawing;
use crate::odds::WEIGHTS;

/// A plane: a point and two directions, where neither has the other one's leading bit.
#[derive(Clone, Copy)]
pub(crate) struct Plane {
    point: Column,
    first: Column,
    second: Column,
    first_bit: u32,
    second_bit: u32,
}

impl Plane {
    /// The plane through a point in two directions, where these and their sum aren't 0.
    pub(crate) fn new(point: Column, first: Column, second: Column) -> Option<Plane> {
        let first_bit = leading_bit(first)?;
        let second = second.plus(first.where_bit(second.bits, first_bit));
        let second_bit = leading_bit(second)?;
        Some(Plane {
            point,
            first: first.plus(second.where_bit(first.bits, second_bit)),
            second,
            first_bit,
            second_bit,
        })
    }

    /// The class of a column: what is left of it, seen from the point, modulo the two directions.
    #[inline(always)]
    pub(crate) fn class_of(&self, column: Column) -> Column {
        let seen = column.plus(self.point);
        let seen = seen.plus(self.first.where_bit(seen.bits, self.first_bit));
        seen.plus(self.second.where_bit(seen.bits, self.second_bit))
    }

    /// The points of the flat that two classes more make of the plane.
    pub(crate) fn points(&self, third: Column, fourth: Column) -> [Column; 16] {
        let mut points = [self.point; 16];
        for (number, point) in points.iter_mut().enumerate() {
            let directions = [self.first, self.second, third, fourth];
            for (bit, direction) in directions.iter().enumerate() {
                if number.wrapping_shr(bit as u32) % 2 == 1 {
                    *point = point.plus(*direction);
                }
            }
        }
        points
    }
}

fn leading_bit(column: Column) -> Option<u32> {
    63_u32.checked_sub(column.bits.leading_zeros())
}

/// The flats that were found, by their weight: how many, and two classes that make one of them, which is drawn.
#[derive(Clone, Copy)]
pub(crate) struct Found {
    /// How many of each weight.
    pub(crate) counts: [u32; WEIGHTS],
    pairs: [(Column, Column); WEIGHTS],
    /// Whether there are any.
    pub(crate) is_any: bool,
}

impl Found {
    /// None.
    pub(crate) fn new() -> Found {
        Found {
            counts: [0; WEIGHTS],
            pairs: [(Column::ZERO, Column::ZERO); WEIGHTS],
            is_any: false,
        }
    }

    /// One flat more, of this weight.
    pub(crate) fn add(&mut self, weight: usize, pair: (Column, Column), drawing: &mut Drawing) {
        let Some(count) = self.counts.get_mut(weight) else {
            return;
        };
        self.is_any = true;
        *count = count.saturating_add(1);
        if *count == 1 || drawing.below(*count as usize) == 0 {
            if let Some(kept) = self.pairs.get_mut(weight) {
                *kept = pair;
            }
        }
    }

    /// The two classes of the one that is kept of a weight.
    pub(crate) fn pair(&self, weight: usize) -> (Column, Column) {
        self.pairs
            .get(weight)
            .copied()
            .unwrap_or((Column::ZERO, Column::ZERO))
    }
}
