//! Parts of circuits that are brought together and replaced.
//!
//! There is no running code: the definitions stand in `specs/`, and the functions do nothing:
//! their contracts are the laws. Lists with the same gates on each qubit, in the same order, have
//! one map. A part of a list may be replaced by one whose map is the same up to a number other than
//! 0, which may be shown on the part's own qubits alone; a known scalar between the parts' maps is
//! the one between the lists' maps too. A walk that takes gates on a few qubits, none of which shares
//! a qubit with a gate that was passed over, brings them together in front of those.
//!
//! ```rust
//! walks_gather_pieces();        // a caller has the law for its own lists
//! ```
#![tactic(auto)]

mod orders;
mod placing;
mod replacing;
mod walks;

pub use orders::{exchanges_reorder, reorderings_keep_maps};
pub use placing::replacements_are_placed;
pub use replacing::{parts_are_replaced, replacements_add_up, scalars_of_parts_are_kept};
pub use walks::{walks_gather_pieces, worked_walk};
