//! Runs of the program over streams in memory. There is no running code: tests alone, of what no clause says.
#![tactic(auto)]

#[cfg(test)]
mod tests;
