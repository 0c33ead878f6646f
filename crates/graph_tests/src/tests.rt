mod bits;
mod graphs;
