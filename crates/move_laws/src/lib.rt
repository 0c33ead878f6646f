//! What rewrites do to the order of a flow, and to how many ids a graph needs.
//!
//! There is no running code: definitions, and functions whose contracts are the laws. A rewrite
//! leaves the order along which a graph has a flow as it was, or takes one vertex out, or puts one
//! first or last; so vertices by rank serve as well, where a vertex that went may keep its rank.
//! How many ids a graph needs, splits to come included, never
//! rises but by one over a split.
//!
//! ```rust
//! each_rewrite_keeps_a_flow_along();
//! ```
#![tactic(auto)]

mod demands;
mod orders;

pub use demands::{
    each_rewrite_changes_the_demand, each_rewrite_stays_below_a_bound, runs_change_the_demand,
};
pub use orders::{each_rewrite_keeps_a_flow_along, each_rewrite_keeps_a_flow_by_rank};
