//! Rows of bits, sets of numbers, matrices, and which rows sum to a target.
//!
//! A row and a set keep the words from that of their first set bit to that of their last, and at
//! either end some that have none, which go before memory is taken. Four words take no allocation.
//! So a set takes any numbers but the greatest 64, and needs no length.
//!
//! Proved: each call reads its list of bits or makes its one named change of it. A row takes the
//! memory for all its bits when it is made, grown or added to a matrix; what changes them then takes
//! none. Where memory runs out, a row or a matrix is as it was. A set is the
//! rising list of its numbers: each call reads that list or changes which numbers are in it as it
//! says, and want of memory leaves the set as it was. A set also tells its room, a bound below which
//! any number goes in without memory: `reserve` raises it, and changes below it don't lower it.
//! `solve` answers with rows that sum to the target, of which no smaller part does, or with a list
//! of bits that shows that no rows do; a law says that not both can be right.
//!
//! ```rust
//! let mut m = BitMatrix::new(alloc, 2);
//! m.push_row()?;
//! m.flip(0, 1);                     // its bit 1 is set, and its bit 0 isn't
//! let mut target = BitRow::new(alloc, 2)?;
//! target.flip(1);
//! let answer = solve(alloc, &m, &target)?;      // Solved::Rows, the first row alone
//!
//! let mut set = BitSet::new(alloc);
//! set.toggle(7)?;
//! set.toggle(300)?;
//! let next = set.first_from(8);     // Some(300)
//! ```
#![tactic(auto)]

mod bit_matrix;
mod bit_row;
mod bit_set;
mod numbers;
mod solving;
mod window;

pub use bit_matrix::BitMatrix;
pub use bit_row::BitRow;
pub use bit_set::BitSet;
pub use numbers::Numbers;
pub use solving::{Solved, a_dual_leaves_no_sum, solve};
