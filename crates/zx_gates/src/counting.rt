//! How many gates of each kind a circuit has.

ghost use Rattle.std.specs.Prelude.{◌≡◌, ◌<◌, length};
ghost use Rattle.std.specs.List.{count_by};
ghost use Rattle.zx_gates.specs.Circuit.{gate_limit, gate_odd_phases};
ghost use Rattle.zx_gates.specs.Counting.{is_two_qubit, is_h, is_phase, is_cz, is_cx, is_not};

use crate::gate::Gate;
use crate::gate_list::GateList;
use crate::tally::Counts;

/// Counts the gates of a circuit. It takes no memory.
pub fn counts(g: &GateList) -> Counts
    ensures total { result.total ≡ length g.now.gates }
    ensures few { result.total < gate_limit }
    ensures odd { result.odd ≡ gate_odd_phases g.now.gates }
    ensures two_qubit { result.two_qubit ≡ count_by is_two_qubit g.now.gates }
    ensures h { result.h ≡ count_by is_h g.now.gates }
    ensures phase { result.phase ≡ count_by is_phase g.now.gates }
    ensures cz { result.cz ≡ count_by is_cz g.now.gates }
    ensures cx { result.cx ≡ count_by is_cx g.now.gates }
    ensures nots { result.nots ≡ count_by is_not g.now.gates }
{
    let mut counts = Counts {
        total: 0,
        odd: 0,
        two_qubit: 0,
        h: 0,
        phase: 0,
        cz: 0,
        cx: 0,
        nots: 0,
    };
    for gate in g.gates() {
        counts.total += 1;
        match *gate {
            Gate::H(_) => counts.h += 1,
            Gate::Phase(_, phase) => {
                counts.phase += 1;
                if phase.is_odd() {
                    counts.odd += 1;
                }
            }
            Gate::Cz(..) => {
                counts.cz += 1;
                counts.two_qubit += 1;
            }
            Gate::Cx { .. } => {
                counts.cx += 1;
                counts.two_qubit += 1;
            }
            Gate::Not(_) => counts.nots += 1,
        }
    }
    counts
}
