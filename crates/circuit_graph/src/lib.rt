//! The open graph of a circuit, with its flow.
//!
//! Proved of `translate`: the graph is well-formed, and the one that the definition makes of the
//! circuit, whose vertices have the ids 0, 1, 2 and so on; its sum is the circuit's map times two
//! for each Cx and Not, entry by entry, which the scalar tells the other way round; it has a
//! spider for each qubit and each H, and two for each Cx and Not, all XY, no more odd phases than
//! the circuit, and an input and an output for each qubit, all plain; the flow is one of it: each
//! spider but the last of a wire is corrected by the next one alone, in the order in which the wires
//! leave them. All that is proved of `translate_placed` too, which answers in place of the scalar to
//! which vertex each phase gate adds its phase.
//!
//! Inside:
//!
//! - `behind`: one gate put behind the outputs of a graph, also where the graph is simplified meanwhile.
//! - `wires`: the translation under way, gate by gate; each method ensures that it takes the one
//!   step of its gate.
//! - `translation`: `translate`.
//! - `laws`: worked graphs.
//!
//! ```rust
//! let made = translate(alloc, &circuit)?;
//! ```
#![tactic(auto)]

mod behind;
mod laws;
mod translation;
mod wires;

pub use behind::{last_spider, put_edge, put_hadamard, put_phase};
pub use laws::worked_translations;
pub use translation::{Placed, Translation, scalar_of, translate, translate_placed};
pub use wires::wires_alone;
