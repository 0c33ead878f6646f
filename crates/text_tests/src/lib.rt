//! Tests of how OpenQASM 2.0 texts are read: tokens, statements, angles and circuits of worked texts. There is no running
//! code: what is tested here stands in crates below, which aren't proved once more for it.
#![tactic(auto)]

#[cfg(test)]
mod tests;
