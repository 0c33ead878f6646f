//! Outputs from which one is chosen by what it would cost.

ghost use Rattle.std.specs.Prelude.{◌≡◌, ◌<◌, ◌⊎◌, ℕ, length, count_by};
ghost use Rattle.zx_calculus.specs.Graph.{neighbours};
ghost use Rattle.gflow_laws.specs.Flow.{is_in};
ghost use Rattle.circuit_laws.specs.Peeling.{HasPlainOutput};
ghost use Rattle.zx_extract.specs.Internal.Frontiers.{remainder_of};
ghost use Rattle.zx_extract.specs.Internal.Leading.{IsReady};

use crate::frontier::Frontier;
use zx_gates::Qubit;

// An output, what choosing it costs, and what decides between outputs that cost the same.
#[derive(Clone, Copy)]
pub(crate) struct Candidate {
    pub(crate) qubit: Qubit,
    pub(crate) cost: usize,
    pub(crate) beside: usize,
}

impl Frontier {
    // In how many correction sets the vertex of an output stands.
    pub(crate) fn sets(&self, q: Qubit) -> usize
        requires ready { IsReady (remainder_of self.now) }
        requires on_wires { q < length self.now.graph.graph.outputs }
        ensures { (u : ℕ) → HasPlainOutput self.now.graph.graph q u →
            result ≡ count_by (λ e. is_in e.members u) self.now.flow.flow }
    {
        self.flow.count(self.present(q))
    }
}

impl Candidate {
    // An output that any other is chosen before.
    pub(crate) fn last_resort(qubit: Qubit) -> Candidate
        ensures { result.qubit ≡ qubit }
    {
        Candidate {
            qubit,
            cost: usize::MAX,
            beside: usize::MAX,
        }
    }
}

// Of a candidate and the best so far, the one that costs less.
pub(crate) fn cheaper(best: Candidate, other: Candidate) -> Candidate
    ensures { (result ≡ other) ⊎ (result ≡ best) }
{
    if (best.cost, best.beside) <= (other.cost, other.beside) {
        best
    } else {
        other
    }
}
