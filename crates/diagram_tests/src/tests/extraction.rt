//! That a circuit is found with ample memory.

use open_graph::OpenGraph;
use std::alloc::AllocError;
use zx_extract::extract;
use zx_flow::{Flow, FlowTable};

#[test]
fn no_qubits_have_no_gates(rt: HostRuntime) -> Result<(), AllocError> {
    let graph = OpenGraph::new(rt.alloc());
    let flow = Flow::of_table(&graph, FlowTable::new(rt.alloc()))?;
    let made = extract(rt.alloc(), graph, flow)?;
    assert_eq!(rt; made.gates.qubits(), 0);
    assert!(rt; made.gates.gates().is_empty());
    Ok(())
}
