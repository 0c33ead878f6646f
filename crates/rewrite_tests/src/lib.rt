//! Tests of rewrites, of the search for the next move and of simplification, on graphs drawn by hand. There is no running
//! code: what is tested here stands in crates below, which aren't proved once more for it.
#![tactic(auto)]

#[cfg(test)]
mod tests;
