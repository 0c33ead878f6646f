//! Gates that are linked, qubit by qubit, to the gates before them.

ghost use Rattle.std.specs.Prelude.{◌≡◌, ◌<◌, length};
ghost use Rattle.zx_peephole.specs.Internal.Chains.{nothing, is_left, first_qubit, second_qubit, link_at};

use zx_gates::{Gate, Links, Marks, Qubit};
use zx_model::Sixteenth;

// A list that is being tidied. Of the gates before the next one to be read each is kept, or has left nothing at its
// place. The kept ones on a qubit form a chain, from the last one, each linked to the one before it on that qubit. A
// link is how many places there are up to and with the gate that it leads to, or 0 where there is none. The marks tell
// of most Cz that none is kept that they could meet.
#[derive(Drop)]
pub(crate) struct Chains {
    pub(crate) qubits: Qubit,
    pub(crate) gates: Vec<Gate>,
    pub(crate) links: Vec<Links>,
    pub(crate) last: Vec<u32>,
    pub(crate) marks: Vec<Marks>,
    pub(crate) next: usize,
}

impl Chains {
    // The link of the gate at a place, for one of its qubits.
    pub(crate) fn link(&self, place: usize, qubit: Qubit) -> usize
        requires gate { place < length self.now.gates.items }
        requires room { place < length self.now.links.items }
        ensures { result ≡ link_at self.now.gates.items self.now.links.items qubit place }
    {
        let links = &self.links[place];
        if first_qubit(&self.gates[place]) == qubit {
            links.first as usize
        } else {
            links.second as usize
        }
    }
}

// What stands at the place of a gate that is gone: a phase gate of the phase 0.
pub(crate) fn nothing() -> Gate
    ensures { result ≡ nothing }
{
    Gate::Phase(0, Sixteenth::new(0))
}

// Whether there is still a gate.
pub(crate) fn is_left(gate: &Gate) -> bool
    ensures { result ≡ is_left gate.now }
{
    match *gate {
        Gate::Phase(_, phase) => phase.get() != 0,
        _ => true,
    }
}

// The first of the gate's qubits.
pub(crate) fn first_qubit(gate: &Gate) -> Qubit
    ensures { result ≡ first_qubit gate.now }
{
    match *gate {
        Gate::H(q) | Gate::Phase(q, _) | Gate::Not(q) | Gate::Cz(q, _) => q,
        Gate::Cx { control, .. } => control,
    }
}

// The last of the gate's qubits, which is the first of one.
pub(crate) fn second_qubit(gate: &Gate) -> Qubit
    ensures { result ≡ second_qubit gate.now }
{
    match *gate {
        Gate::H(q) | Gate::Phase(q, _) | Gate::Not(q) | Gate::Cz(_, q) => q,
        Gate::Cx { target, .. } => target,
    }
}
