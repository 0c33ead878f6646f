//! Outputs that are settled: plain, of phase 0, and without edges among themselves.

ghost use Rattle.std.specs.Prelude.{◌≡◌, ◌≢◌, ◌<◌, ◌≤◌, ◌+◌, ◌*◌, ◌-◌, ◌/◌, ℕ, length, OnOk};
ghost use Rattle.zx_calculus.specs.Graph.{plane_of, IsVertex};
ghost use Rattle.zx_calculus.specs.Graph as zx;
ghost use Rattle.gflow_laws.specs.Flow.{IsFlow};
ghost use Rattle.zx_gates.specs.Circuit.{most_qubits};
ghost use Rattle.zx_extract.specs.Internal.Frontiers.{remainder_of};
ghost use Rattle.zx_extract.specs.Internal.Leading.{AreApart, IsReady, IsFrontier, Leads, Settles};
ghost use Rattle.zx_extract.specs.Internal.Lists.{others_below};
ghost use Rattle.zx_extract.specs.Internal.Steps.{IsSettling};

use crate::frontier::Frontier;
use std::alloc::AllocError;
use zx_gates::Qubit;

impl Frontier {
    // Takes off the Hadamards of all outputs.
    pub(crate) fn take_marks(&mut self) -> Result<(), AllocError>
        requires flow { IsFlow self.old.graph.graph self.old.flow.flow }
        requires planes { (v : ℕ) → IsVertex self.old.graph.graph v → plane_of self.old.graph.graph v ≢ zx.XZ }
        requires few { length self.old.graph.graph.outputs ≤ most_qubits }
        ensures leads { OnOk result (Leads (remainder_of self.old)
            (length self.old.graph.graph.outputs) 0 0 (remainder_of self.new)) }
        ensures ready { OnOk result (IsReady (remainder_of self.new)) }
    {
        let qubits = self.qubits();
        for q in 0..qubits {
            self.take_mark(q)?;
        }
        Ok(())
    }

    // Takes off the edges between output q and those below an end.
    fn take_edges(&mut self, q: Qubit, end: Qubit) -> Result<(), AllocError>
        requires ready { IsReady (remainder_of self.old) }
        requires on_wires { q < length self.old.graph.graph.outputs }
        requires end { end ≤ length self.old.graph.graph.outputs }
        ensures settles { OnOk result (Settles (remainder_of self.old) (others_below q end)
            (remainder_of self.new)) }
        ensures apart { OnOk result ((r : ℕ) → r < end →
            AreApart self.new.graph.graph q r) }
    {
        for r in 0..end {
            self.take_edge(q, r)?;
        }
        Ok(())
    }

    // Takes off the phase of output q, and its edges to outputs below an end.
    pub(crate) fn settle(&mut self, q: Qubit, end: Qubit) -> Result<(), AllocError>
        requires ready { IsReady (remainder_of self.old) }
        requires on_wires { q < length self.old.graph.graph.outputs }
        requires end { end ≤ length self.old.graph.graph.outputs }
        ensures { OnOk result (IsSettling (remainder_of self.old) q end (remainder_of self.new)) }
    {
        self.take_phase(q)?;
        self.take_edges(q, end)
    }

    // Takes off the phases of all outputs, and the edges between them.
    pub(crate) fn settle_all(&mut self) -> Result<(), AllocError>
        requires { IsReady (remainder_of self.old) }
        ensures leads { OnOk result (let n = length self.old.graph.graph.outputs in
            Leads (remainder_of self.old) (n * (n - 1) / 2 + n) 0 0 (remainder_of self.new)) }
        ensures ready { OnOk result (IsReady (remainder_of self.new)) }
        ensures frontier { OnOk result (IsFrontier self.new.graph.graph) }
    {
        let qubits = self.qubits();
        for q in 0..qubits {
            self.settle(q, q)?;
        }
        Ok(())
    }
}
