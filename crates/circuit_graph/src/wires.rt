//! A translation under way.

ghost use Rattle.std.specs.Prelude.{◌≡◌, ◌≢◌, ◌<◌, length, IfOk, OnOk};
ghost use Rattle.zx_calculus.specs.Graph.{WellFormed};
ghost use Rattle.zx_gates.specs.Circuit.{IsOnQubits};
ghost use Rattle.circuit_graph.specs.Translation.{by_hadamards, phase_vertex, wires};
ghost use Rattle.circuit_graph.specs.Internal.Wires.{graph_so_far};
ghost use Rattle.circuit_graph.specs.Internal.Runs.{begun, IsReady, IsSpiderStep, IsPhaseStep, IsToggleStep, IsRun};

use crate::behind::{last_spider, put_edge, put_hadamard, put_phase};
use open_graph::{End, OpenGraph, Plane, VertexId};
use std::alloc::{AllocError, Global};
use zx_flow::FlowTable;
use zx_gates::{Gate, Qubit};
use zx_model::Sixteenth;

// The graph so far, whose outputs stand at the last spiders of the wires, and the corrections of the spiders that
// the wires have left.
#[derive(Drop)]
pub(crate) struct Wires {
    pub(crate) graph: OpenGraph,
    pub(crate) table: FlowTable,
}

impl Wires {
    // So many wires without gates.
    pub(crate) fn begin(alloc: Global, qubits: Qubit) -> Result<Wires, AllocError>
        ensures begun { IfOk result (λ w. graph_so_far w ≡ begun qubits) }
        ensures ready { IfOk result (λ w. IsReady (graph_so_far w)) }
    {
        let graph = wires_alone(alloc, qubits)?;
        Ok(Wires {
            graph,
            table: FlowTable::new(alloc),
        })
    }

    // Adds a gate; Cx and Not are written out.
    pub(crate) fn add_gate(&mut self, gate: Gate) -> Result<(), AllocError>
        requires ready { IsReady (graph_so_far self.old) }
        requires on_wires { IsOnQubits (length self.old.graph.graph.outputs) gate }
        ensures run { OnOk result (IsRun (graph_so_far self.old) (by_hadamards gate)
            (graph_so_far self.new)) }
        ensures ready { OnOk result (IsReady (graph_so_far self.new)) }
        ensures outputs { OnOk result (length self.new.graph.graph.outputs ≡
            length self.old.graph.graph.outputs) }
    {
        match gate {
            Gate::H(q) => self.add_hadamard(q),
            Gate::Phase(q, phase) => {
                self.add_phase(q, phase);
                Ok(())
            }
            Gate::Cz(p, q) => self.toggle(p, q),
            Gate::Cx { control, target } => {
                self.add_hadamard(target)?;
                self.toggle(control, target)?;
                self.add_hadamard(target)
            }
            Gate::Not(q) => {
                self.add_hadamard(q)?;
                self.add_phase(q, Sixteenth::half_turn());
                self.add_hadamard(q)
            }
        }
    }

    // The vertex to which a gate would add a phase.
    pub(crate) fn place(&self, gate: Gate) -> Option<VertexId>
        requires ready { IsReady (graph_so_far self.now) }
        requires on_wires { IsOnQubits (length self.now.graph.graph.outputs) gate }
        ensures { result ≡ phase_vertex self.now.graph.graph gate }
    {
        match gate {
            Gate::Phase(q, _) => Some(last_spider(&self.graph, q)),
            _ => None,
        }
    }

    // An edge joins the last spider to a new one of phase 0, which is the last one from here on, and corrects it.
    fn add_hadamard(&mut self, q: Qubit) -> Result<(), AllocError>
        requires ready { IsReady (graph_so_far self.old) }
        requires on_wires { q < length self.old.graph.graph.outputs }
        ensures step { OnOk result (IsSpiderStep (graph_so_far self.old) q (graph_so_far self.new)) }
        ensures ready { OnOk result (IsReady (graph_so_far self.new)) }
        ensures outputs { OnOk result (length self.new.graph.graph.outputs ≡
            length self.old.graph.graph.outputs) }
    {
        let (here, next) = put_hadamard(&mut self.graph, q)?;
        self.table.add(here, &[next])
    }

    // A phase is added to the last spider.
    fn add_phase(&mut self, q: Qubit, phase: Sixteenth)
        requires ready { IsReady (graph_so_far self.old) }
        requires on_wires { q < length self.old.graph.graph.outputs }
        ensures step { IsPhaseStep (graph_so_far self.old) q phase (graph_so_far self.new) }
        ensures ready { IsReady (graph_so_far self.new) }
        ensures outputs { length self.new.graph.graph.outputs ≡
            length self.old.graph.graph.outputs }
    {
        put_phase(&mut self.graph, q, phase);
    }

    // The edge between the last spiders comes where there is none, and goes where there is one.
    fn toggle(&mut self, p: Qubit, q: Qubit) -> Result<(), AllocError>
        requires ready { IsReady (graph_so_far self.old) }
        requires p_on_wires { p < length self.old.graph.graph.outputs }
        requires q_on_wires { q < length self.old.graph.graph.outputs }
        requires apart { p ≢ q }
        ensures step { OnOk result (IsToggleStep (graph_so_far self.old) p q (graph_so_far self.new)) }
        ensures ready { OnOk result (IsReady (graph_so_far self.new)) }
        ensures outputs { OnOk result (length self.new.graph.graph.outputs ≡
            length self.old.graph.graph.outputs) }
    {
        put_edge(&mut self.graph, p, q)
    }
}

/// The graph of so many wires without gates: a spider of phase 0 with both ends for each.
pub fn wires_alone(alloc: Global, qubits: Qubit) -> Result<OpenGraph, AllocError>
    ensures begun { IfOk result (λ g. g.graph ≡ wires qubits) }
    ensures well_formed { IfOk result (λ g. WellFormed g.graph) }
{
    let mut graph = OpenGraph::new(alloc);
    for _ in 0..qubits {
        let first = graph.add_vertex(Plane::XY, Sixteenth::new(0))?;
        let end = End::plain(first);
        graph.add_input(end)?;
        graph.add_output(end)?;
    }
    Ok(graph)
}
