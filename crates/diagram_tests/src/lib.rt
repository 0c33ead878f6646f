//! Tests of what lies between diagrams, graphs and circuits: diagrams with their graph-like forms and circuits, circuits made
//! into graphs, and what extraction makes of graphs by itself. There is no running code.
#![tactic(auto)]

#[cfg(test)]
mod tests;
