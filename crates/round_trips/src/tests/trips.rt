//! A circuit on two qubits into its graph, through rewrites, and back into gates.

ghost use Rattle.std.specs.Prelude.{◌≡◌, ◌≢◌, ◌<◌, ℕ, true, false, IfOk, OnOk};
ghost use Rattle.zx_calculus.specs.Graph.{plane_of, IsVertex};
ghost use Rattle.zx_calculus.specs.Graph as zx;
ghost use Rattle.gflow_laws.specs.Flow.{IsFlow};

use super::sums::{are_proportional, map, sum};
use circuit_graph::translate;
use flow_rewrites::{Steps, apply, reduce};
use graph_rewrites::Step;
use open_graph::{OpenGraph, Plane, VertexId};
use std::alloc::Global;
use std::marker::Brand;
use std::process::Abort;
use std::sync::ledger::{Blank, Ledger};
use std::test::Fail;
use zx_extract::extract;
use zx_flow::Flow;
use zx_gates::{Gate, GateList, counts};
use zx_moves::Trace;

// The gates that are found in the graph that steps make of the gates' graph have that graph's sum
// as their map, and that of the gates, up to a number other than 0.
pub fn round_trip(
    rt: &impl Abort,
    alloc: Global,
    gates: &[Gate],
    steps: &[Step],
) -> Result<(), Fail> {
    let given = circuit(rt, alloc, gates)?;
    leads_back(rt, alloc, &given, steps)
}

fn leads_back(
    rt: &impl Abort,
    alloc: Global,
    given: &GateList,
    steps: &[Step],
) -> Result<(), Fail> {
    let (graph, flow) = rewritten(alloc, given, steps)?;
    let wanted = sum(rt, alloc, &graph)?;
    let found = map(&extracted(rt, alloc, graph, flow)?);
    assert!(rt; are_proportional(&wanted, &found));
    assert!(rt; are_proportional(&map(given), &found));
    Ok(())
}

// The gates that are found in the reduced graph of the gates' graph have their map, up to a number
// other than 0. The answer is how many odd phases are left.
pub fn reduced_trip(rt: &impl Abort, alloc: Global, gates: &[Gate]) -> Result<u64, Fail> {
    let given = circuit(rt, alloc, gates)?;
    let (graph, flow) = reduced(alloc, &given)?;
    let found = extracted(rt, alloc, graph, flow)?;
    assert!(rt; are_proportional(&map(&given), &map(&found)));
    Ok(counts(&found).odd)
}

// The circuit of a graph without XZ vertices.
fn extracted(rt: &impl Abort, alloc: Global, graph: OpenGraph, flow: Flow) -> Result<GateList, Fail>
    requires { IsFlow graph.graph flow.flow }
{
    assert!(rt; has_no_xz(&graph));
    assert!(rt; graph.inputs().len() == graph.outputs().len());
    assert!(rt; graph.outputs().len() <= 1024);
    let found = extract(alloc, graph, flow)?;
    Ok(found.gates)
}

// What simplification makes of a circuit's graph with its flow.
fn reduced(alloc: Global, circuit: &GateList) -> Result<(OpenGraph, Flow), Fail>
    ensures { IfOk result (λ made. IsFlow made.0.graph made.1.flow) }
{
    let made = translate(alloc, circuit)?;
    let mut graph = made.graph;
    let mut flow = made.flow;
    reduce_traced(&mut graph, &mut flow, &mut Trace::new(alloc))?;
    Ok((graph, flow))
}

// Simplifies a graph with its flow; the trace gains the steps.
pub fn reduce_traced(graph: &mut OpenGraph, flow: &mut Flow, trace: &mut Trace) -> Result<(), Fail>
    requires { IsFlow graph.old.graph flow.old.flow }
    ensures { OnOk result (IsFlow graph.new.graph flow.new.flow) }
{
    reduce_counted::<Brand>(Blank::new(1), graph, flow, trace)
}

fn reduce_counted<L: Ledger>(
    blank: Blank,
    graph: &mut OpenGraph,
    flow: &mut Flow,
    trace: &mut Trace,
) -> Result<(), Fail>
    requires name { blank.name ≡ L.name }
    requires parts { blank.parts ≡ L.parts }
    requires some { 0 < L.parts }
    requires flow { IsFlow graph.old.graph flow.old.flow }
    ensures { OnOk result (IsFlow graph.new.graph flow.new.flow) }
{
    let mut steps = Steps::<L>::new(blank);
    reduce(graph, flow, trace, &mut steps)?;
    Ok(())
}

// The circuit of these gates on two qubits.
pub fn circuit(rt: &impl Abort, alloc: Global, gates: &[Gate]) -> Result<GateList, Fail> {
    let mut list = GateList::new(alloc, 2);
    for gate in gates {
        add(rt, &mut list, *gate)?;
    }
    Ok(list)
}

pub fn add(rt: &impl Abort, list: &mut GateList, gate: Gate) -> Result<(), Fail> {
    assert!(rt; gate.is_on_qubits(list.qubits()));
    list.push(gate)?;
    Ok(())
}

// What steps make of a circuit's graph with its flow.
pub fn rewritten(
    alloc: Global,
    circuit: &GateList,
    steps: &[Step],
) -> Result<(OpenGraph, Flow), Fail>
    ensures { IfOk result (λ made. IsFlow made.0.graph made.1.flow) }
{
    let made = translate(alloc, circuit)?;
    let mut graph = made.graph;
    let mut flow = made.flow;
    for step in steps {
        rewrite(&mut graph, &mut flow, *step)?;
    }
    Ok((graph, flow))
}

// A step is done, which keeps a flow.
pub fn rewrite(graph: &mut OpenGraph, flow: &mut Flow, step: Step) -> Result<(), Fail>
    requires { IsFlow graph.old.graph flow.old.flow }
    ensures { OnOk result (IsFlow graph.new.graph flow.new.flow) }
{
    apply(graph, flow, step)?;
    Ok(())
}

// Whether no vertex is in the XZ plane.
fn has_no_xz(graph: &OpenGraph) -> bool
    ensures { result ≡ true → (v : ℕ) → IsVertex graph.now.graph v → plane_of graph.now.graph v ≢ zx.XZ }
{
    for v in graph.vertices() {
        if is_xz(graph, v) {
            return false;
        }
    }
    true
}

fn is_xz(graph: &OpenGraph, v: VertexId) -> bool
    requires { IsVertex graph.now.graph v }
    ensures { result ≡ false → plane_of graph.now.graph v ≢ zx.XZ }
{
    match graph.weight(v).0 {
        Plane::XZ => true,
        Plane::XY => false,
        Plane::YZ => false,
    }
}
