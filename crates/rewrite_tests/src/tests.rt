mod drawings;
mod moves;
mod reductions;
mod refusals;
mod rewrites;
