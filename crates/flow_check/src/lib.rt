//! Whether a table of corrections is a generalised flow of a graph.
//!
//! Proved: the verdict is `Flow` exactly where the table is a flow of the graph, and it names a
//! vertex and a condition exactly where this vertex is the first of the order at which a condition
//! fails, and this condition the first that fails there; want of memory is the only error. The laws
//! stand beside it: no condition fails exactly where the table is a flow, and there is one first
//! failure at most.
//!
//! Inside:
//!
//! - `verdict`: `Verdict` and `Condition`.
//! - `conditions`: the first condition that fails at one vertex, each test being whether two sets
//!   of ids have a vertex in common.
//! - `checking`: `check`, vertex by vertex.
//! - `laws`: there is one first failure at most, and none in a flow.
//!
//! ```rust
//! match check(alloc, &graph, &table)? {
//!     Verdict::Flow => println!(rt; "flow")?,
//!     Verdict::Fails { vertex, condition } => ..,
//! }
//! ```
#![tactic(auto)]

mod checking;
mod conditions;
mod laws;
mod verdict;

pub use checking::check;
pub use laws::a_first_failure_is_alone;
pub use verdict::{Condition, Verdict};
