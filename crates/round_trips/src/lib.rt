//! Circuits into graphs, through rewrites, and back into gates. There is no running code: tests alone, of what several
//! crates make of one circuit, and of teleported phases by themselves.
#![tactic(auto)]

#[cfg(test)]
mod tests;
