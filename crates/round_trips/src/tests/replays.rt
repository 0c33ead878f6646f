//! A simplification of some hundred vertices, done once more step by step.

ghost use Rattle.std.specs.Prelude.{◌<◌};
ghost use Rattle.gflow_laws.specs.Flow.{IsFlow};

use super::teleported::draw;
use super::trips::{add, reduce_traced, rewritten};
use circuit_graph::translate;
use graph_rewrites::Step;
use open_graph::OpenGraph;
use std::alloc::Global;
use std::process::Abort;
use std::test::Fail;
use zx_flow::Flow;
use zx_gates::{Gate, GateList};
use zx_model::Sixteenth;
use zx_moves::Trace;

const QUBITS: u16 = 70;

// One of the gates of this crate's circuits, on one or two of the qubits.
fn drawn_gate(seed: &mut u64) -> Gate {
    let p = draw(seed, 70) as u16;
    let q = (p + 1 + draw(seed, 69) as u16) % QUBITS;
    match draw(seed, 8) {
        0 => Gate::H(p),
        1 => Gate::Phase(p, Sixteenth::quarter_turn()),
        2 => Gate::Phase(p, Sixteenth::eighth_turn()),
        3 => Gate::Cz(p, q),
        4 => Gate::Not(p),
        _ => Gate::Cx {
            control: p,
            target: q,
        },
    }
}

// The steps that simplification tells are allowed one after the other, and lead to the same graph.
#[test]
fn all_steps_lead_there_again(rt: HostRuntime) -> Result<(), Fail> {
    let given = drawn(&rt, rt.alloc(), 1, 250)?;
    let made = translate(rt.alloc(), &given)?;
    let mut graph = made.graph;
    let mut flow = made.flow;
    lead_there_again(&rt, rt.alloc(), &given, &mut graph, &mut flow)
}

fn lead_there_again(
    rt: &impl Abort,
    alloc: Global,
    given: &GateList,
    graph: &mut OpenGraph,
    flow: &mut Flow,
) -> Result<(), Fail>
    requires { IsFlow graph.old.graph flow.old.flow }
{
    let mut trace = Trace::new(alloc);
    reduce_traced(graph, flow, &mut trace)?;
    assert!(rt; trace.as_slice().len() > 100);
    leads_there(rt, alloc, given, &trace, graph)
}

// Makes the room that simplification needs where the graph is that of a circuit on so many qubits, and simplifies.
fn reduce_with_room(
    graph: &mut OpenGraph,
    flow: &mut Flow,
    trace: &mut Trace,
    qubits: u16,
) -> Result<(), Fail>
    requires { IsFlow graph.old.graph flow.old.flow }
{
    let spiders = graph.vertex_count();
    let places = spiders.saturating_add(2 * usize::from(qubits) + 2);
    graph.reserve(places)?;
    flow.reserve(places)?;
    trace.reserve(spiders.saturating_mul(12))?;
    reduce_traced(graph, flow, trace)
}

// The steps that simplification does with room on this circuit.
fn steps_with_room(
    rt: &impl Abort,
    alloc: Global,
    given: &GateList,
    qubits: u16,
) -> Result<Trace, Fail> {
    let made = translate(alloc, given)?;
    let mut graph = made.graph;
    let mut flow = made.flow;
    let mut trace = Trace::new(alloc);
    reduce_with_room(&mut graph, &mut flow, &mut trace, qubits)?;
    leads_there(rt, alloc, given, &trace, &graph)?;
    Ok(trace)
}

// T, H, H, T on one qubit.
fn three_spiders(rt: &impl Abort, given: &mut GateList) -> Result<(), Fail> {
    add(rt, given, Gate::Phase(0, Sixteenth::eighth_turn()))?;
    add(rt, given, Gate::H(0))?;
    add(rt, given, Gate::H(0))?;
    add(rt, given, Gate::Phase(0, Sixteenth::eighth_turn()))?;
    Ok(())
}

// So do those that it does on graph and flow as they are, where there is room: three spiders on one qubit.
#[test]
fn steps_with_room_lead_there_again(rt: HostRuntime) -> Result<(), Fail> {
    let mut given = GateList::new(rt.alloc(), 1);
    three_spiders(&rt, &mut given)?;
    let trace = steps_with_room(&rt, rt.alloc(), &given, 1)?;
    assert!(rt; !trace.as_slice().is_empty());
    Ok(())
}

// The same of three drawn circuits, whose boundary pivots take places.
#[test]
fn drawn_steps_with_room_lead_there_again(rt: HostRuntime) -> Result<(), Fail> {
    for seed in 1..4 {
        let given = drawn(&rt, rt.alloc(), seed, 60)?;
        let trace = steps_with_room(&rt, rt.alloc(), &given, QUBITS)?;
        assert!(rt; has_split(&trace));
    }
    Ok(())
}

// Whether an end was split, as boundary pivots do.
fn has_split(trace: &Trace) -> bool {
    for step in trace.as_slice() {
        if matches!(step, Step::SplitInput(_) | Step::SplitOutput(_)) {
            return true;
        }
    }
    false
}

// So many drawn gates.
fn drawn(rt: &impl Abort, alloc: Global, mut seed: u64, gates: usize) -> Result<GateList, Fail> {
    let mut given = GateList::new(alloc, QUBITS);
    for _ in 0..gates {
        add(rt, &mut given, drawn_gate(&mut seed))?;
    }
    Ok(given)
}

// The steps are allowed one after the other on the circuit's graph, and lead to this one.
fn leads_there(
    rt: &impl Abort,
    alloc: Global,
    given: &GateList,
    trace: &Trace,
    graph: &OpenGraph,
) -> Result<(), Fail> {
    let (again, flow) = rewritten(alloc, given, trace.as_slice())?;
    drop(flow);
    let is_same = is_within(graph, &again)
        && is_within(&again, graph)
        && graph.inputs() == again.inputs()
        && graph.outputs() == again.outputs();
    drop(again);
    assert!(rt; is_same);
    Ok(())
}

// Whether each vertex of the first graph is one of the second, with the same phase, plane and neighbours.
fn is_within(first: &OpenGraph, second: &OpenGraph) -> bool {
    for v in first.vertices() {
        if !first.is_live(v) || !second.is_live(v) {
            return false;
        }
        if first.weight(v) != second.weight(v)
            || !first.neighbour_set(v).is_same(second.neighbour_set(v))
        {
            return false;
        }
    }
    true
}
