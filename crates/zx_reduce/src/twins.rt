//! Gadgets of the same neighbours.

ghost use Rattle.zx_calculus.specs.Graph.{IsVertex};

use graph_rewrites::is_gadget;
use open_graph::{OpenGraph, VertexId};
use std::alloc::{AllocError, Global};

// As many gadgets are remembered as there may be, but no more and no fewer than so many.
const MOST_PLACES: usize = 1 << 16;

const LEAST_PLACES: usize = 64;

// Gadgets that were looked at, each at the place that its neighbours tell. Of two at one place the later
// one is remembered.
#[derive(Drop)]
pub(crate) struct Twins {
    gadgets: Vec<VertexId>,
}

impl Twins {
    // No gadgets, where there may be so many.
    pub(crate) fn new(alloc: Global, most: usize) -> Result<Twins, AllocError> {
        let mut gadgets = Vec::new(alloc);
        for _ in 0..most.max(LEAST_PLACES).min(MOST_PLACES) {
            gadgets.push(VertexId::new(0))?;
        }
        Ok(Twins { gadgets })
    }

    // A gadget that was looked at and has the neighbours of this one. Where there is none, this one is
    // remembered.
    pub(crate) fn find(&mut self, g: &OpenGraph, u: VertexId) -> Option<VertexId>
        requires { IsVertex g.now.graph u }
    {
        let place = place_of(g, u, self.gadgets.len());
        let remembered = self.gadgets.get_mut(place)?;
        let other = *remembered;
        if other != u && are_twins(g, u, other) {
            return Some(other);
        }
        *remembered = u;
        None
    }
}

// The gadgets of a graph, each with the number that its neighbours tell, by rising numbers: so most of those with the
// same neighbours stand beside each other.
pub(crate) fn keyed_gadgets(
    alloc: Global,
    g: &OpenGraph,
) -> Result<Vec<(u64, VertexId)>, AllocError> {
    let mut keyed = Vec::new(alloc);
    for u in g.vertices() {
        if is_gadget(g, u) {
            keyed.push((key_of(g, u), u))?;
        }
    }
    keyed.sort_unstable_by_key(|entry| entry.0);
    Ok(keyed)
}

// Whether two vertices are gadgets of the same neighbours.
fn are_twins(g: &OpenGraph, u: VertexId, v: VertexId) -> bool {
    is_gadget(g, u) && is_gadget(g, v) && g.neighbour_set(u).is_same(g.neighbour_set(v))
}

// The place that the neighbours of a vertex tell, of so many.
fn place_of(g: &OpenGraph, u: VertexId, places: usize) -> usize
    requires { IsVertex g.now.graph u }
{
    key_of(g, u) as usize % places.max(1)
}

// A number that the neighbours of a vertex tell.
fn key_of(g: &OpenGraph, u: VertexId) -> u64
    requires { IsVertex g.now.graph u }
{
    let mut key: u64 = 0;
    for v in g.neighbours(u) {
        key ^= scattered(v.get() as u64);
    }
    key
}

// A number that tells little of this one's size.
fn scattered(number: u64) -> u64 {
    let product = number.wrapping_add(1).wrapping_mul(0x9E37_79B9_7F4A_7C15);
    (product ^ (product >> 31)).wrapping_mul(0xBF58_476D_1CE4_E5B9) >> 13
}
