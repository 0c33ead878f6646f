//! The lines that report how many gates two circuits have, and the line of a scalar: exactly
//! `report_lines` and `scalar_line`, byte by byte.
//!
//! ```rust
//! let lines = report(alloc, &counts(&read), &counts(&written))?;
//! let line = scalar_line(alloc, &scalar)?;
//! ```
#![tactic(auto)]

mod lines;

pub use lines::{report, scalar_line};
