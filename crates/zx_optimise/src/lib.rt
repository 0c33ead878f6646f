//! Circuits through the graph and back, and the best of what can be had.
//!
//! Proved of `optimise`: the circuit has the read one's linear map up to the scalar that is told, no more odd phases, and
//! few gates for these and its qubits; no gates in it cancel or merge. Rewrites lead from the read circuit's graph to
//! a reduced one with at least as many odd phases. With `best` it is no dearer than the plain one, than the read one
//! after cleanup, and than the one whose phases alone are changed, where these are within the bound.
//!
//! It is proved from what `simplify_circuit`, `teleport`, `tidy`, `shrink` and `with_fewer_odd_phases` promise, with no
//! word of vertices and edges.
//!
//! Proved of `with_fewer_odd_phases`, which puts phases in that do nothing together: the map of the circuit is exactly
//! the scalar times that of the one that is found, which has fewer odd phases and is tidy. Whatever proposes such phases,
//! `zx_identities` puts them in only where it shows that they do nothing. That a circuit is found, and how few odd phases
//! it has, is only tested.
//!
//! Inside:
//!
//! - `optimiser`: `optimise`, and what it chooses among.
//! - `putting_in`: phases put in, and put together with others.
//! - `rounds`: that again and again, as long as fewer odd phases are left.
//! - `long_lists`: that for long circuits, piece by piece.
//! - `finishing`: `with_fewer_odd_phases`.
//!
//! ```rust
//! let made = optimise(alloc, &read, true)?;
//! let found = with_fewer_odd_phases(alloc, &circuit)?;
//! ```
#![tactic(auto)]

mod finishing;
mod limits;
mod long_lists;
mod optimiser;
mod putting_in;
mod rounds;

pub use finishing::with_fewer_odd_phases;
pub use optimiser::optimise;
