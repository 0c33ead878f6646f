//! What OpenQASM 2.0 programs mean: what their names stand for, the header, calls, broadcasts, and
//! what may be wrong with each statement.
//!
//! There is no running code: the definitions stand in `specs/`, and the functions do nothing: their
//! contracts are the laws. A text is one program at most; the gates that the header's texts declare
//! are those of given trees, and each of them is without fault.
//!
//! Inside:
//!
//! - `causes`: what may be wrong with a statement.
//! - `laws`: the laws of the header.
//!
//! ```rust
//! the_header_is_faultless();
//! ```
#![tactic(auto)]

mod causes;
mod laws;

pub use causes::Cause;
pub use laws::{
    a_text_declares_one_list_of_gates, the_header_declares_its_gates, the_header_is_faultless,
};
