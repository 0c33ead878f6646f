//! Walks that gather gates on a few qubits.

ghost use Rattle.std.specs.Prelude.{◌≡◌, ◌≤◌, ◌<◌, ◌++◌, [], ◌∷◌, List, length};
ghost use Rattle.std.specs.Prelude.{IfOk, OnOk, IsTrue, false, true, set};
ghost use Rattle.std.specs.List.{All, list_all};
ghost use Rattle.zx_gates.specs.Circuit.{IsGateOn, IsOnQubits, most_qubits};
ghost use Rattle.zx_peephole.specs.Commuting.{are_apart};
ghost use Rattle.piece_laws.specs.Places.{ArePlaces};
ghost use Rattle.piece_laws.specs.Reordering.{IsReordered};
ghost use Rattle.zx_peephole.specs.Internal.Chains.{first_qubit, second_qubit};
ghost use Rattle.zx_pieces.specs.Internal.Walking.{IsWide, IsBlocking, IsWalk};

use crate::choosing::connected;
use crate::manner::Manner;
use std::alloc::{AllocError, Global};
use zx_gates::{Gate, GateList, Qubit};

/// What a walk has taken and passed over.
#[derive(Drop)]
pub(crate) struct Walk {
    /// The gates that were taken, on few qubits.
    pub(crate) piece: GateList,
    /// The qubits that they are on.
    pub(crate) places: Vec<Qubit>,
    /// The gates that were passed over.
    pub(crate) passed: Vec<Gate>,
    // Whether each qubit has a gate that was passed over.
    blocked: Vec<bool>,
    // On which qubits the piece may be.
    chosen: Vec<bool>,
    // On how many of them no gate was passed over.
    open: usize,
    // How many gates it may have.
    most_gates: usize,
}

/// Walks along gates on so many qubits. The piece that it takes is on at most so many of them and has at most so
/// many gates, but for the first gate, which is taken in any case; another order brings it in front of the other
/// gates.
pub(crate) fn gather(
    alloc: Global,
    qubits: Qubit,
    gates: &[Gate],
    manner: &Manner,
) -> Result<Walk, AllocError>
    requires few { qubits ≤ most_qubits }
    requires on_qubits { All (IsGateOn qubits) gates.now }
    ensures qubits { IfOk result (λ walk. walk.piece.qubits ≡ qubits) }
    ensures places { IfOk result (λ walk. ArePlaces qubits walk.places.items) }
    ensures order { IfOk result (λ walk.
        IsReordered gates.now (walk.piece.gates ++ walk.passed.items)) }
    ensures some { 0 < length gates.now → IfOk result (λ walk. 0 < length walk.piece.gates) }
{
    let chosen = connected(alloc, qubits, gates, manner.qubits)?;
    let mut walk = begin(alloc, qubits, chosen, manner.gates)?;
    let mut next = 0;
    'gates: while next < gates.len() && !walk.is_shut() {
        walk.read(&gates[next])?;
        next += 1;
    }
    walk.pass_all(&gates[next..])?;
    Ok(walk)
}

// No gate is read yet.
fn begin(
    alloc: Global,
    qubits: Qubit,
    chosen: Vec<bool>,
    most_gates: usize,
) -> Result<Walk, AllocError>
    requires { qubits ≤ most_qubits }
    ensures qubits { IfOk result (λ walk. walk.piece.qubits ≡ qubits) }
    ensures wide { IfOk result IsWide }
    ensures walk { IfOk result (IsWalk []) }
{
    let mut blocked = Vec::new(alloc);
    blocked.resize(usize::from(qubits), false)?;
    let open = chosen.iter().filter(|flag| **flag).count();
    Ok(Walk {
        piece: GateList::new(alloc, qubits),
        places: Vec::new(alloc),
        passed: Vec::new(alloc),
        blocked,
        chosen,
        open,
        most_gates,
    })
}

/// The gate's first and second qubit; where it is on one, that one twice.
pub(crate) fn qubits_of(gate: &Gate) -> (Qubit, Qubit)
    ensures first { result.0 ≡ first_qubit gate.now }
    ensures second { result.1 ≡ second_qubit gate.now }
{
    match *gate {
        Gate::H(q) => (q, q),
        Gate::Phase(q, _) => (q, q),
        Gate::Not(q) => (q, q),
        Gate::Cz(q, r) => (q, r),
        Gate::Cx { control, target } => (control, target),
    }
}

impl Walk {
    // Whether the piece is as large as it becomes.
    fn is_shut(&self) -> bool
        ensures { IsTrue result → 0 < length self.now.piece.gates }
    {
        !self.piece.gates().is_empty()
            && (self.open == 0 || self.piece.gates().len() >= self.most_gates)
    }

    // Takes a gate into the piece, or passes over it.
    fn read(&mut self, gate: &Gate) -> Result<(), AllocError>
        requires wide { IsWide self.old }
        requires on_qubits { IsOnQubits self.old.piece.qubits gate.now }
        ensures qubits { OnOk result (self.new.piece.qubits ≡ self.old.piece.qubits) }
        ensures wide { OnOk result (IsWide self.new) }
        ensures walk { (seen : List Gate) → IsWalk seen self.old →
            OnOk result (IsWalk (seen ++ gate.now ∷ []) self.new) }
    {
        if self.may_take(gate) {
            self.take(gate)
        } else {
            self.pass(gate)
        }
    }

    // Whether a gate goes into the piece: the first one, and each that nothing passed over stands before,
    // and with which the piece stays small.
    fn may_take(&self, gate: &Gate) -> bool
        requires wide { IsWide self.now }
        requires on_qubits { IsOnQubits self.now.piece.qubits gate.now }
        ensures apart { (seen : List Gate) → IsWalk seen self.now → IsTrue result →
            IsTrue (list_all (are_apart gate.now) self.now.passed.items) }
        ensures some { result ≡ false → 0 < length self.now.piece.gates }
    {
        if self.piece.gates().is_empty() {
            return true;
        }
        self.is_free(gate) && self.fits(gate)
    }

    // Whether no gate that was passed over shares a qubit with the gate.
    fn is_free(&self, gate: &Gate) -> bool
        requires wide { IsWide self.now }
        requires on_qubits { IsOnQubits self.now.piece.qubits gate.now }
        ensures { IsTrue result → IsBlocking self.now.blocked.items self.now.passed.items →
            IsTrue (list_all (are_apart gate.now) self.now.passed.items) }
    {
        let (first, second) = qubits_of(gate);
        !self.blocked[usize::from(first)] && !self.blocked[usize::from(second)]
    }

    // Whether the piece stays on the chosen qubits, and small, with the gate.
    fn fits(&self, gate: &Gate) -> bool {
        let (first, second) = qubits_of(gate);
        self.piece.gates().len() < self.most_gates
            && self.is_chosen(first)
            && self.is_chosen(second)
    }

    fn is_chosen(&self, q: Qubit) -> bool {
        self.chosen.get(usize::from(q)).copied().unwrap_or(false)
    }

    // The gate goes into the piece.
    fn take(&mut self, gate: &Gate) -> Result<(), AllocError>
        requires wide { IsWide self.old }
        requires on_qubits { IsOnQubits self.old.piece.qubits gate.now }
        ensures wide { OnOk result (IsWide self.new) }
        ensures qubits { OnOk result (self.new.piece.qubits ≡ self.old.piece.qubits) }
        ensures piece { OnOk result (self.new.piece.gates ≡ self.old.piece.gates ++ gate.now ∷ []) }
        ensures passed { self.new.passed ≡ self.old.passed }
        ensures blocked { self.new.blocked ≡ self.old.blocked }
    {
        let (first, second) = qubits_of(gate);
        self.hold(first)?;
        self.hold(second)?;
        self.piece.push(*gate)
    }

    // The piece is on the qubit.
    fn hold(&mut self, q: Qubit) -> Result<(), AllocError>
        requires places { ArePlaces self.old.piece.qubits self.old.places.items }
        requires below { q < self.old.piece.qubits }
        ensures places { OnOk result (ArePlaces self.old.piece.qubits self.new.places.items) }
        ensures piece { self.new.piece ≡ self.old.piece }
        ensures passed { self.new.passed ≡ self.old.passed }
        ensures blocked { self.new.blocked ≡ self.old.blocked }
    {
        if !self.places.contains(&q) {
            self.places.push(q)?;
        }
        Ok(())
    }

    // The gate is passed over.
    fn pass(&mut self, gate: &Gate) -> Result<(), AllocError>
        requires wide { IsWide self.old }
        requires on_qubits { IsOnQubits self.old.piece.qubits gate.now }
        ensures piece { self.new.piece ≡ self.old.piece }
        ensures places { self.new.places ≡ self.old.places }
        ensures wide { length self.new.blocked.items ≡ length self.old.blocked.items }
        ensures passed { OnOk result (self.new.passed.items ≡ self.old.passed.items ++ gate.now ∷ []) }
        ensures blocking { IsBlocking self.old.blocked.items self.old.passed.items →
            OnOk result (IsBlocking self.new.blocked.items self.new.passed.items) }
    {
        let (first, second) = qubits_of(gate);
        self.block(first);
        self.block(second);
        self.passed.push(*gate)?;
        Ok(())
    }

    // No gate on the qubit can be taken any more.
    fn block(&mut self, q: Qubit)
        requires { q < length self.old.blocked.items }
        ensures blocked { self.new.blocked.items ≡ set self.old.blocked.items q true }
        ensures piece { self.new.piece ≡ self.old.piece }
        ensures places { self.new.places ≡ self.old.places }
        ensures passed { self.new.passed ≡ self.old.passed }
    {
        if !self.blocked[usize::from(q)] && self.is_chosen(q) {
            self.open = self.open.saturating_sub(1);
        }
        self.blocked[usize::from(q)] = true;
    }

    // All gates that are left are passed over.
    fn pass_all(&mut self, gates: &[Gate]) -> Result<(), AllocError>
        ensures piece { self.new.piece ≡ self.old.piece }
        ensures places { self.new.places ≡ self.old.places }
        ensures passed { OnOk result (self.new.passed.items ≡ self.old.passed.items ++ gates.now) }
    {
        self.passed.extend_from_slice(gates)?;
        Ok(())
    }
}
