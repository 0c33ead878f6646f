//! Two-coloured diagrams made graph-like: a vertex for each class of spiders that plain edges join.
//!
//! Proved: `graph_like` makes the graph-like form of a diagram, whose linear map is the diagram's up
//! to a nonzero scalar; a diagram has one such form; `least_spiders` names the classes, each by its
//! smallest spider.
//!
//! Inside:
//!
//! - `marks`: the change of colour.
//! - `near`: a spider's neighbours along plain edges.
//! - `classes`: plain edges contracted one at a time, the classes that they leave.
//! - `homes`: the vertex of each spider's class.
//! - `phases`: the phases of classes.
//! - `vertices`: their vertices and the edges between them.
//! - `ends`: inputs and outputs, each further one at a new vertex.
//! - `form`: the call.
//! - `laws`: the form keeps the map.
//!
//! ```rust
//! let least = least_spiders(alloc, &diagram)?;
//! let fused = least[u] == least[v];              // whether two spiders are of one class
//! let graph = graph_like(alloc, diagram)?;
//! ```
#![tactic(auto)]

mod classes;
mod ends;
mod form;
mod homes;
mod laws;
mod marks;
mod near;
mod phases;
mod vertices;

pub use classes::least_spiders;
pub use form::graph_like;
pub use laws::{diagrams_have_one_like_form, like_form_keeps_sum};
