//! Tests of flows in memory, of the search for flows and of the check of flows. There is no running code: what is
//! tested here stands in crates below, which aren't proved once more for it.
#![tactic(auto)]

#[cfg(test)]
mod tests;
