//! Tests of lists of gates: how circuits are lowered, counted, generated, cleaned up, told and written, and which gates are
//! the identity. There is no running code: what is tested here stands in crates below, which aren't proved once more for it.
#![tactic(auto)]

#[cfg(test)]
mod tests;
