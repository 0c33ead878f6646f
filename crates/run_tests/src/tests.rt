mod adapters;
mod failing_streams;
mod pieces;
mod streams;
mod words;
mod worked_runs;
