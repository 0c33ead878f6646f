//! What becomes of the phases of gates while the graph of their circuit is rewritten.
//!
//! There is no running code: the definitions stand in `specs/`, and the functions do nothing: their
//! contracts are the laws. Rewrites are the same whatever phases are added at the vertices, but for
//! those that are deleted, and carry the added phases along, some of them negated. So the phases of
//! gates that end up at one vertex may be exchanged for others of the same sum: the first gate gets
//! all. Then at most as many phases are odd as in the graph at the end.
//!
//! ```rust
//! runs_carry_phases_along();        // a caller has the law for its own graphs
//! ```
#![tactic(auto)]

mod groups;
mod shifts;

pub use groups::groups_are_joined;
pub use shifts::{runs_carry_phases_along, steps_carry_phases_along};
