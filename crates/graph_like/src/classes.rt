//! Which spiders fuse: plain edges are contracted, one at a time.

ghost use Rattle.std.specs.Prelude.{◌≡◌, ◌≢◌, ◌<◌, ◌≤◌, ◌+◌, suc, ℕ, true, false, [], length, slice_index_or, IfOk, OnOk};
ghost use Rattle.std.specs.List.{sum_by};
ghost use Rattle.zx_diagram.specs.Sum.{edge_mark};
ghost use Rattle.zx_diagram.specs.Diagram.{Diagram as Seen, IsDiagram, IsEdgeOf};
ghost use Rattle.graph_like.specs.Classes.{NamesClasses, named_by};
ghost use Rattle.graph_like.specs.Internal.Fusing.{near_at, AreWithin, IsFusing, IsNextStage, IsTakenIn, GainsEdge};

use crate::marks::edge_mark;
use crate::near::Near;
use std::alloc::{AllocError, Global};
use std::mem;
use zx_diagram::{Diagram, Spider, Wire};

/// To each spider the smallest one of its class: spiders are of one class where plain edges join them, directly or
/// one after the other, an X spider counting as a Hadamard on each of its wires.
pub fn least_spiders(alloc: Global, d: &Diagram) -> Result<Vec<usize>, AllocError>
    ensures classes { IfOk result (λ least. NamesClasses d.now (named_by least.items)) }
    ensures length { IfOk result (λ least. length least.items ≡ length d.now.spiders) }
{
    let count = d.spiders().len();
    let mut contraction = Contraction {
        near: plain_neighbours(alloc, d)?,
        least: own_numbers(alloc, count)?,
    };
    // A spider takes in those at the other ends of its plain edges, whose edges it takes over, until it has none left
    // but to itself.
    for u in 0..count {
        contraction.take_in_all(alloc, u)?;
    }
    Ok(contraction.least)
}

// For each spider its neighbours along plain edges.
fn plain_neighbours(alloc: Global, d: &Diagram) -> Result<Vec<Near>, AllocError>
    ensures length { IfOk result (λ near. length near.items ≡ length d.now.spiders) }
    ensures within { IfOk result (λ near. AreWithin near.items (length d.now.spiders)) }
    ensures fusing { IfOk result (λ near. IsFusing d.now (λ w. w) (near_at near.items) 0 0) }
    ensures valid { IsDiagram d.now }
{
    let spiders = d.spiders();
    let edges = d.edges();
    let mut near = no_neighbours(alloc, spiders.len())?;
    for i in 0..edges.len() {
        join_if_plain(&mut near, spiders, edges[i])?;
    }
    Ok(near)
}

// Each of the two spiders of a plain edge becomes a neighbour of the other.
fn join_if_plain(near: &mut Vec<Near>, spiders: &[Spider], edge: Wire) -> Result<(), AllocError>
    requires same { length spiders.now ≡ length near.old.items }
    requires there { IsEdgeOf (length near.old.items) edge }
    ensures same { OnOk result (length near.new.items ≡ length near.old.items) }
    ensures plain { OnOk result (edge_mark spiders.now edge ≡ false →
        GainsEdge (near_at near.old.items) edge (near_at near.new.items)) }
    ensures marked { OnOk result (edge_mark spiders.now edge ≡ true →
        near.new.items ≡ near.old.items) }
{
    if edge_mark(spiders, edge) {
        return Ok(());
    }
    near[edge.a].push(edge.b)?;
    near[edge.b].push(edge.a)?;
    Ok(())
}

// So many empty lists.
fn no_neighbours(alloc: Global, count: usize) -> Result<Vec<Near>, AllocError>
    ensures length { IfOk result (λ near. length near.items ≡ count) }
    ensures none { IfOk result (λ near. (k : ℕ) → near_at near.items k ≡ []) }
{
    let mut near = Vec::new(alloc);
    for _ in 0..count {
        near.push(Near::new(alloc))?;
    }
    Ok(near)
}

// Each spider is a class by itself.
fn own_numbers(alloc: Global, count: usize) -> Result<Vec<usize>, AllocError>
    ensures length { IfOk result (λ numbers. length numbers.items ≡ count) }
    ensures own { IfOk result (λ numbers. (u : ℕ) → named_by numbers.items u ≡ u) }
{
    let mut numbers = Vec::new(alloc);
    for u in 0..count {
        numbers.push(u)?;
    }
    Ok(numbers)
}

// Plain edges while they are contracted: for each spider its neighbours along those that are left, and the smallest
// one of the spiders that are one with it so far.
#[derive(Drop)]
struct Contraction {
    near: Vec<Near>,
    least: Vec<usize>,
}

impl Contraction {
    // Contracts the plain edges of a spider, those that it takes over too, unless another one has taken it in.
    fn take_in_all(&mut self, alloc: Global, u: usize) -> Result<(), AllocError>
        requires there { u < length self.old.near.items }
        requires same { length self.old.least.items ≡ length self.old.near.items }
        requires within { AreWithin self.old.near.items (length self.old.near.items) }
        ensures same { OnOk result (length self.new.near.items ≡ length self.old.near.items) }
        ensures same_least { OnOk result (length self.new.least.items ≡ length self.old.near.items) }
        ensures within { OnOk result (AreWithin self.new.near.items (length self.old.near.items)) }
        ensures fusing { OnOk result ((d : Seen) →
            IsFusing d (named_by self.old.least.items) (near_at self.old.near.items) u u →
            IsFusing d (named_by self.new.least.items) (near_at self.new.near.items) (suc u) (suc u)) }
    {
        if self.least[u] != u {
            return Ok(());
        }
        let mut i = 0;
        while i < self.near[u].len() {
            let v = self.near[u].at(i);
            self.visit(alloc, u, v)?;
            i += 1;
        }
        Ok(())
    }

    // Goes on to the next spider that is to be taken in, and takes it in unless it is already.
    fn visit(&mut self, alloc: Global, u: usize, v: usize) -> Result<(), AllocError>
        requires u_there { u < length self.old.near.items }
        requires v_there { v < length self.old.near.items }
        requires same { length self.old.least.items ≡ length self.old.near.items }
        requires own { named_by self.old.least.items u ≡ u }
        requires within { AreWithin self.old.near.items (length self.old.near.items) }
        ensures same { OnOk result (length self.new.near.items ≡ length self.old.near.items) }
        ensures same_least { OnOk result (length self.new.least.items ≡ length self.old.near.items) }
        ensures own { OnOk result (named_by self.new.least.items u ≡ u) }
        ensures within { OnOk result (AreWithin self.new.near.items (length self.old.near.items)) }
        ensures total { OnOk result (sum_by length self.new.near.items ≡ sum_by length self.old.near.items) }
        ensures longer { OnOk result
            (length (near_at self.old.near.items u) ≤ length (near_at self.new.near.items u)) }
        ensures stage { OnOk result (IsNextStage self.old.near.items self.new.near.items
            (named_by self.old.least.items) (named_by self.new.least.items) u v) }
    {
        if v != u && self.least[v] == v {
            self.take_in(alloc, u, v)?;
            return Ok(());
        }
        Ok(())
    }

    // Contracts a plain edge between two spiders: the first takes over the edges of the second.
    fn take_in(&mut self, alloc: Global, u: usize, v: usize) -> Result<(), AllocError>
        requires u_there { u < length self.old.near.items }
        requires v_there { v < length self.old.near.items }
        requires same { length self.old.least.items ≡ length self.old.near.items }
        requires different { v ≢ u }
        ensures same { OnOk result (length self.new.near.items ≡ length self.old.near.items) }
        ensures same_least { OnOk result (length self.new.least.items ≡ length self.old.near.items) }
        ensures total { OnOk result (sum_by length self.new.near.items ≡ sum_by length self.old.near.items) }
        ensures taken { OnOk result (IsTakenIn (named_by self.old.least.items) (named_by self.new.least.items)
            (near_at self.old.near.items) (near_at self.new.near.items) u v) }
    {
        let taken = mem::replace(&mut self.near[v], Near::new(alloc));
        self.near[u].append(taken)?;
        self.least[v] = u;
        Ok(())
    }
}
