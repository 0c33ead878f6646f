//! Tests of graph files and diagram files. There is no running code.
#![tactic(auto)]

#[cfg(test)]
mod tests;
