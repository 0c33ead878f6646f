//! Levels of vertices: how far each reaches in the circuit.

ghost use Rattle.std.specs.Prelude.{◌<◌, ◌≤◌};

use open_graph::{OpenGraph, VertexId};

// How many levels there are.
pub(crate) const LEVELS: usize = 16;

// A block has so many vertices for each output.
const OF_OUTPUT: usize = 14;

// A block has at least so many vertices.
const LEAST_BLOCK: usize = 64;

// How many vertices a block has where there are so many outputs.
pub(crate) fn block_size(outputs: usize) -> usize
    ensures { 64 ≤ result }
{
    outputs.saturating_mul(OF_OUTPUT).max(LEAST_BLOCK)
}

// The level of a vertex of a whole graph where blocks have this size. Vertices are parted by their numbers into
// blocks, and blocks in pairs, pairs of pairs and so on: a vertex of level 0 has no neighbour in a later block, one of
// level 1 none outside of its pair of blocks, and so on.
pub(crate) fn level_of(g: &OpenGraph, u: VertexId, block: usize) -> u8
    requires { 64 ≤ block }
{
    if !g.is_live(u) {
        return 0;
    }
    let last = g.neighbours(u).fold(u.get(), |last, v| last.max(v.get()));
    level_between(u.get() / block, last / block)
}

// The least level whose groups of blocks have both of these in one.
pub(crate) fn level_between(first: usize, second: usize) -> u8 {
    let (mut first, mut second, mut level) = (first, second, 0);
    while first != second && level < 15 {
        first /= 2;
        second /= 2;
        level += 1;
    }
    level
}

// The level of a vertex by a list of levels, below `LEVELS`; the highest for one that isn't listed.
pub(crate) fn level_in(levels: &[u8], u: VertexId) -> usize
    ensures { result < 16 }
{
    match levels.get(u.get()) {
        Some(level) => usize::from(*level).min(LEVELS - 1),
        None => LEVELS - 1,
    }
}
