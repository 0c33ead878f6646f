//! Which gates hold their phases together while the graph of their circuit is rewritten.
//!
//! Of each vertex it is kept which gate is the first of those whose phases it holds, and whether negated; of each gate
//! the phase that it has by now. A gate comes to the vertex to which it adds its phase. A step of rewriting then negates
//! what vertices hold, and takes a group away or puts two together, of which the first gate gets the phases of both.
//!
//! Proved: with each gate that comes and each step that is done, first gates, signs and phases stay those of the gates at
//! the spots to which the steps carry their phases (`Agrees`), so at the end each gate has the phase that it gets where
//! phases are put together.
//!
//! ```rust
//! let mut groups = PhaseGroups::new(alloc, gates)?;
//! groups.add(17, v, phase)?;            // gate 17 adds its phase at the vertex v
//! groups.follow(&graph, &step)?;        // before the step is done in the graph
//! let phase = groups.phase(17);
//! ```
//!
//! Inside:
//!
//! - `notes`: which phases a step negates, and where that of a vertex goes which goes itself.
//! - `groups`: the groups, and what gates and steps do to them.
#![tactic(auto)]

mod groups;
mod notes;

pub use groups::{Group, PhaseGroups};
