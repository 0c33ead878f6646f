//! Marks of the Cz that are kept, so that none is looked for that a gate can't meet.

ghost use Rattle.std.specs.Prelude.{◌≡◌, ◌<◌, ℕ, IsTrue, length};
ghost use Rattle.zx_gates.specs.Circuit.{most_qubits};
ghost use Rattle.zx_peephole.specs.Internal.Stops.{HasQubitsBelow};
ghost use Rattle.zx_peephole.specs.Internal.Marks.{has_mark, meets_none, IsMarkedBehind, IsMarkedWithout};

use crate::chains::second_qubit;
use crate::commuting::is_diagonal;
use zx_gates::{Gate, MOST_QUBITS, Marks, Qubit};

// How many marks a word has.
const WORD: usize = 128;

// How many words a row has.
pub(crate) const WORDS: usize = MOST_QUBITS / WORD;

// For each qubit there is a row with a mark for each other one. A mark stands wherever a Cz on both is kept, with no H,
// NOT or target of Cx on the row's qubit behind it. It may also stand where there is none any more.

// A gate is kept: a Cz is marked in the rows of both qubits, and behind H, NOT and the target of Cx no mark is needed.
pub(crate) fn mark(marks: &mut [Marks], gate: &Gate)
    requires rows { HasQubitsBelow (length marks.old) gate.now }
    requires qubits { HasQubitsBelow most_qubits gate.now }
    ensures rows { length marks.new ≡ length marks.old }
    ensures marked { IsMarkedBehind marks.old marks.new gate.now }
{
    match *gate {
        Gate::Cz(q, r) => {
            set_mark(marks, q, r);
            set_mark(marks, r, q);
        }
        Gate::H(q) | Gate::Not(q) | Gate::Cx { target: q, .. } => {
            marks[usize::from(q)] = [0; WORDS];
        }
        Gate::Phase(..) => {}
    }
}

// A gate goes that is kept: where it was H, NOT or the target of Cx, a Cz before it may be met again.
pub(crate) fn open(marks: &mut [Marks], gate: &Gate)
    requires rows { HasQubitsBelow (length marks.old) gate.now }
    ensures rows { length marks.new ≡ length marks.old }
    ensures marked { IsMarkedWithout marks.old marks.new gate.now }
{
    if !is_diagonal(gate) {
        marks[usize::from(second_qubit(gate))] = [u128::MAX; WORDS];
    }
}

// Whether the gate is a Cz that lacks a mark, so that it meets none that is kept.
pub(crate) fn meets_none(marks: &[Marks], gate: &Gate) -> bool
    requires rows { HasQubitsBelow (length marks.now) gate.now }
    requires qubits { HasQubitsBelow most_qubits gate.now }
    ensures { result ≡ meets_none marks.now gate.now }
{
    match *gate {
        Gate::Cz(q, r) => !(has_mark(marks, q, r) && has_mark(marks, r, q)),
        _ => false,
    }
}

fn has_mark(marks: &[Marks], q: Qubit, r: Qubit) -> bool
    requires qubit { q < length marks.now }
    requires other { r < most_qubits }
    ensures { result ≡ has_mark marks.now q r }
{
    let other = usize::from(r);
    marks[usize::from(q)][other / WORD] >> (other % WORD) & 1 == 1
}

fn set_mark(marks: &mut [Marks], q: Qubit, r: Qubit)
    requires qubit { q < length marks.old }
    requires other { r < most_qubits }
    ensures rows { length marks.new ≡ length marks.old }
    ensures here { IsTrue (has_mark marks.new q r) }
    ensures stays { (p s : ℕ) → IsTrue (has_mark marks.old p s) → IsTrue (has_mark marks.new p s) }
{
    let row = &mut marks[usize::from(q)];
    let other = usize::from(r);
    row[other / WORD] |= 1 << (other % WORD);
}
