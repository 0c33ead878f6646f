//! A circuit for a diagram.

ghost use Rattle.std.specs.Prelude.{◌≡◌, ◌≢◌, ◌≤◌, [], length, IfOk};
ghost use Rattle.zx_model.specs.Proportional.{Proportional};
ghost use Rattle.zx_calculus.specs.Counts.{odd_phases};
ghost use Rattle.zx_diagram.specs.Sum.{diagram_sum};
ghost use Rattle.flow_find.specs.Stuck.{HasFlow, IsLargestStuck};
ghost use Rattle.zx_gates.specs.Circuit.{most_qubits, gate_odd_phases};
ghost use Rattle.zx_gates.specs.Maps.{amp};
ghost use Rattle.zx_extract.specs.Simplified.{gate_bound, IsThroughReduced};
ghost use Rattle.zx_peephole.specs.Tidy.{IsTidy};
ghost use Rattle.zx_simplify.specs.Compiled.{IfCircuit, IfNoFlow, HasForm};

use crate::simplifying::simplify_graph;
use flow_find::{Found, find};
use graph_like::graph_like;
use open_graph::VertexId;
use std::alloc::{AllocError, Global};
use zx_diagram::Diagram;
use zx_flow::Flow;
use zx_gates::GateList;

/// What a diagram comes to.
#[derive(Drop)]
pub enum Compiled {
    /// A circuit that has the diagram's linear map, up to a nonzero scalar.
    Circuit(GateList),
    /// The diagram's graph-like form has no flow: while these vertices of it come before all
    /// others, no set corrects any of them. They are the largest such set, by rising id.
    NoFlow {
        /// The vertices that are left, of which there are some.
        left: Vec<VertexId>,
    },
}

/// A circuit for a diagram, where the diagram's graph-like form has a flow, and else the largest set
/// of its vertices that shows that it has none.
///
/// The diagram has as many inputs as outputs, and no more than a circuit may have qubits, 1,024. A
/// flow of its graph-like form is looked for, the form is simplified, a circuit is taken off it, and
/// that is tidied.
///
/// # Errors
///
/// Only where memory runs out.
pub fn compile(alloc: Global, d: Diagram) -> Result<Compiled, AllocError>
    requires square { length d.inputs ≡ length d.outputs }
    requires few { length d.inputs ≤ most_qubits }

    // A circuit comes exactly where the graph-like form has a flow.
    ensures flow { IfOk result (λ made. IfCircuit made (λ circuit. HasForm d HasFlow)) }
    ensures no_flow { IfOk result (λ made.
        IfNoFlow made (λ left. HasForm d (λ form. ¬ HasFlow form))) }
    ensures stuck { IfOk result (λ made.
        IfNoFlow made (λ left. HasForm d (λ form. IsLargestStuck form left.items))) }
    ensures some { IfOk result (λ made. IfNoFlow made (λ left. left.items ≢ [])) }

    // The circuit's map is the diagram's, up to a nonzero scalar.
    ensures qubits { IfOk result (λ made.
        IfCircuit made (λ circuit. circuit.qubits ≡ length d.inputs)) }
    ensures map { IfOk result (λ made. IfCircuit made (λ circuit.
        Proportional (length d.inputs) (length d.inputs) (diagram_sum d) (amp circuit.gates))) }

    // Its gates.
    ensures odd { IfOk result (λ made. IfCircuit made (λ circuit.
        HasForm d (λ form. gate_odd_phases circuit.gates ≤ odd_phases form))) }
    ensures few_gates { IfOk result (λ made. IfCircuit made (λ circuit.
        HasForm d (λ form. length circuit.gates ≤ gate_bound (length d.inputs) (odd_phases form)))) }
    ensures tidy { IfOk result (λ made. IfCircuit made (λ circuit. IsTidy circuit.gates)) }
    ensures reduced { IfOk result (λ made. IfCircuit made (λ circuit.
        HasForm d (λ form. IsThroughReduced form circuit))) }
{
    let graph = graph_like(alloc, d)?;
    match find(alloc, &graph)? {
        Found::Flow(table) => {
            let flow = Flow::of_table(&graph, table)?;
            let simplified = simplify_graph(alloc, graph, flow)?;
            Ok(Compiled::Circuit(simplified.gates))
        }
        Found::NoFlow { left } => Ok(Compiled::NoFlow { left }),
    }
}
