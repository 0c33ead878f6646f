//! Phases about strings of Pauli letters that do nothing together, where putting them in leaves fewer odd ones.
//!
//! Nothing is proved of what is proposed: `zx_identities` puts it in only where it is shown to do nothing.
//!
//! Phases of an odd number of eighth turns that can be brought together at a place in a circuit are phases about
//! parities, behind Clifford gates. They are a sum of cubes up to Clifford gates, so that other parities, perhaps
//! fewer, may stand for them: so does TODD (Heyfron and Campbell, arXiv 1712.01557). Here sets of parities are changed
//! by flats of sixteen points, the phases about which do nothing together: those of the points that were in the set
//! go, the others come. Walks over such sets begin with the flats that hold most, and go on by those that hold half,
//! towards sets with many planes, four parities with sum 0. Of many walks the better ones are copied.
//!
//! Seeds and numbers of steps decide what is found: equal arguments give equal ones.
//!
//! ```rust
//! let found = propose_shortly(alloc, &circuit, 200, 1)?;      // tries, seed
//! ```
#![tactic(auto)]

mod arrivals;
mod columns;
mod drawing;
mod flats;
mod groups;
mod idle;
mod odds;
mod planes;
mod populations;
mod proposing;
mod walk;

pub use proposing::{propose_at_length, propose_shortly, propose_vanishing};
