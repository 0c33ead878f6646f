//! Correction sets found along an order that is told by ranks.

ghost use Rattle.std.specs.Prelude.{◌≡◌, ℕ, not, filter, IfOk};
ghost use Rattle.std.specs.List.Sorted.{IsPermutation, IsNonDecreasingBy};
ghost use Rattle.zx_calculus.specs.Graph.{WellFormed};
ghost use Rattle.gflow_laws.specs.Seen.{seen};
ghost use Rattle.gflow_laws.specs.Flow.{IsFlow};
ghost use Rattle.move_laws.specs.Ranks.{HasFlowBy, rank_in};

use crate::cheap::find_cheap;
use open_graph::{OpenGraph, VertexId};
use std::alloc::{AllocError, Global};
use zx_flow::FlowTable;

/// Correction sets that make the vertices without outputs a flow of a graph, where some do in the
/// order in which their ranks rise. Vertices of small sets may come later than their ranks say.
/// `ranks` has the rank of a vertex at its number; numbers at which no such vertex is don't matter.
///
/// # Errors
///
/// Where memory runs out.
pub fn find_by_rank(alloc: Global, g: &OpenGraph, ranks: &[u64]) -> Result<FlowTable, AllocError>
    requires { (low : ℕ) × (high : ℕ) × HasFlowBy g.now.graph (rank_in ranks.now) low high }
    ensures { IfOk result (λ table. IsFlow g.now.graph table.table) }
{
    let mut order = measured(alloc, g)?;
    sort_by_rank(&mut order, ranks);
    find_cheap(alloc, g, order)
}

// The vertices without outputs.
pub(crate) fn measured(alloc: Global, g: &OpenGraph) -> Result<Vec<VertexId>, AllocError>
    ensures value { IfOk result (λ order.
        order.items ≡ filter (λ v. not ((seen g.now.graph).output v)) (seen g.now.graph).ids) }
    ensures valid { WellFormed g.now.graph }
{
    let mut order = Vec::new(alloc);
    for v in g.vertices() {
        if g.output_at(v).is_none() {
            order.push(v)?;
        }
    }
    Ok(order)
}

fn sort_by_rank(order: &mut Vec<VertexId>, ranks: &[u64])
    ensures permutation { IsPermutation order.old.items order.new.items }
    ensures sorted { IsNonDecreasingBy (rank_in ranks.now) order.new.items }
{
    order.sort_unstable_by_key(|v| rank_at(ranks, *v));
}

fn rank_at(ranks: &[u64], v: VertexId) -> u64
    ensures { result ≡ rank_in ranks.now v }
{
    ranks.get(v.get()).copied().unwrap_or(0)
}
