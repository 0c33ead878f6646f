mod drawing;
mod finding;
mod flows;
mod small_graphs;
mod tables;
mod verdicts;
