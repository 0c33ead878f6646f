//! The graph-like form.

ghost use Rattle.std.specs.Prelude.{length, IfOk};
ghost use Rattle.zx_model.specs.Proportional.{Proportional};
ghost use Rattle.zx_calculus.specs.Sum.{graph_sum};
ghost use Rattle.zx_diagram.specs.Sum.{diagram_sum};
ghost use Rattle.graph_like.specs.LikeForm.{IsLikeForm};
ghost use Rattle.graph_like.specs.Internal.Homes.{AreClassHomes, AreHomesOf};

use crate::classes::least_spiders;
use crate::ends::add_ends;
use crate::homes::Homes;
use crate::phases::class_phases;
use crate::vertices::{class_vertices, join_classes};
use open_graph::{OpenGraph, Side};
use std::alloc::{AllocError, Global};
use zx_diagram::Diagram;

/// The graph-like form of a diagram. Spiders that plain edges join, directly or one after the other, become one
/// vertex, whose phase is the sum of theirs and half a turn for each Hadamard edge inside the class; an X spider
/// counts as a Hadamard on each of its wires. Two classes are adjacent where an odd number of Hadamard edges joins
/// them. The vertices come in the order of the classes' smallest spiders; behind them a vertex of phase 0 for each
/// input, then for each output, that isn't the first at its class. Only want of memory gives an error.
pub fn graph_like(alloc: Global, d: Diagram) -> Result<OpenGraph, AllocError>
    ensures form { IfOk result (λ made. IsLikeForm d made.graph) }
    ensures map { IfOk result
        (λ made. Proportional (length d.inputs) (length d.outputs) (diagram_sum d) (graph_sum made.graph)) }
{
    let homes = class_homes(alloc, &d)?;
    let phases = class_phases(alloc, &d, &homes)?;
    let mut graph = class_vertices(alloc, &phases)?;
    join_classes(&mut graph, &homes, d.spiders(), d.edges())?;
    add_ends(&mut graph, Side::Input, &homes, d.spiders(), d.inputs())?;
    add_ends(&mut graph, Side::Output, &homes, d.spiders(), d.outputs())?;
    Ok(graph)
}

// To each spider the vertex that its class becomes.
fn class_homes(alloc: Global, d: &Diagram) -> Result<Homes, AllocError>
    ensures classes { IfOk result (λ homes. AreClassHomes d.now homes) }
    ensures within { IfOk result (λ homes. AreHomesOf (length d.now.spiders) homes.count homes) }
{
    let least = least_spiders(alloc, d)?;
    let homes = Homes::of_classes(alloc, &least)?;
    Ok(homes)
}
