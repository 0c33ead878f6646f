//! A value for each vertex, by its number, also for those to which none was given.
//!
//! Proved: each vertex has the value that it was given last, else, or where that was taken away, the one
//! that the kind of values has for its number. Where memory runs out, all have the values that they had.
//!
//! ```rust
//! let mut ranks = VertexMap::<Rank>::new(alloc);
//! ranks.set(3, 17)?;
//! let rank = ranks.get(3);          // 17
//! let other = ranks.get(1000);      // Rank::absent(1000), and no memory was taken for it
//! ranks.remove(3);                  // Rank::absent(3) from now on
//! ```
#![tactic(auto)]

mod vertex_map;

pub use vertex_map::{Values, VertexMap};
