//! Tests of rows of bits and of graphs in memory. There is no running code: what is tested here stands in crates below,
//! which aren't proved once more for it.
#![tactic(auto)]

#[cfg(test)]
mod tests;
