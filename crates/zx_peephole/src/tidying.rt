//! The whole cleanup.

ghost use Rattle.std.specs.Prelude.{◌≡◌, ◌≤◌, ◌<◌, ◌*◌, ◌^◌, pos, ◌++◌, [], ◌∷◌, length, take, count_by, IfSome, IfNone};
ghost use Rattle.zx_model.specs.Scalar.{IsWithin};
ghost use Rattle.zx_gates.specs.Circuit.{gate_limit};
ghost use Rattle.zx_gates.specs.Counting.{is_two_qubit};
ghost use Rattle.zx_gates.specs.Internal.Scalars.{scalar};
ghost use Rattle.zx_gates.specs.Passes.{Preserves};
ghost use Rattle.zx_peephole.specs.Tidy.{IsTidy};
ghost use Rattle.zx_peephole.specs.Doubling.{IsPowerOfTwo};
ghost use Rattle.zx_gates.specs.Circuit.{Circuit, HasRoom, circuit_of};
ghost use Rattle.zx_peephole.specs.Internal.Chains.{IsSound, IsReading, is_left, kept, all_left};
ghost use Rattle.zx_peephole.specs.Internal.Changes.{IsAdvance};

use crate::chains::{Chains, is_left};
use crate::changing::{keep, merge_pair, turn_over};
use crate::finding::{Change, find};
use crate::marks::WORDS;
use zx_gates::{GateList, Parts};
use zx_model::{Scalar, Sixteenth};

/// Tidies a circuit in place, without memory: gates of which one passes all gates up to the other and that are
/// nothing or one gate together are merged, and so are half turns and NOT between two H, until none are left. The
/// scalar is answered that the circuit's map was times the new one.
///
/// A merged phase gate stands at the later gate's place. The time is that of looking, for each gate, at the kept ones
/// before it that it commutes with and shares a qubit with; most Cz that meet no other look at none.
pub fn tidy(g: &mut GateList) -> Scalar
    ensures tidy { IsTidy g.new.gates }
    ensures kept { Preserves gate_limit g.old g.new result }
    // Each two H that go, with or without a gate between them, make the map half as large.
    ensures power { IsPowerOfTwo result }
    ensures length { length g.new.gates ≤ length g.old.gates }
    ensures two_qubit { count_by is_two_qubit g.new.gates ≤ count_by is_two_qubit g.old.gates }
{
    if g.gates().is_empty() {
        return Scalar::one();
    }
    let mut work = begin(g.take());
    let mut power = 0;
    while work.next < work.gates.len() {
        power += settle(&mut work);
    }
    *g = GateList::from_parts(end(work));
    power_of_two(power)
}

// A power of two as a scalar.
fn power_of_two(power: u32) -> Scalar
    requires { 2 * power < 2 ^ 32 }
    ensures value { result ≡ scalar (pos (2 * power)) 0 }
    ensures small { IsWithin gate_limit result }
{
    Scalar {
        root2: i64::from(2 * power),
        turn: Sixteenth::new(0),
    }
}

// No gate is read yet.
fn begin(parts: Parts) -> Chains
    requires room { HasRoom (circuit_of parts.qubits parts.gates.items) (length parts.links.items)
        (length parts.last.items) (length parts.marks.items) }
    requires some { 0 < length parts.gates.items }
    ensures sound { IsSound result }
    ensures next { result.next ≡ 0 }
    ensures qubits { result.qubits ≡ parts.qubits }
    ensures gates { result.gates.items ≡ parts.gates.items }
{
    let mut last = parts.last;
    last.fill(0);
    let mut marks = parts.marks;
    marks.fill([0; WORDS]);
    Chains {
        qubits: parts.qubits,
        gates: parts.gates,
        links: parts.links,
        last,
        marks,
        next: 0,
    }
}

// The gates that are left move to the front.
fn end(work: Chains) -> Parts
    requires sound { IsSound work }
    requires all { length work.gates.items ≤ work.next }
    ensures room { HasRoom (circuit_of result.qubits result.gates.items) (length result.links.items)
        (length result.last.items) (length result.marks.items) }
    ensures qubits { result.qubits ≡ work.qubits }
    ensures gates { result.gates.items ≡ kept work }
{
    let mut gates = work.gates;
    gates.retain(|gate| is_left(gate));
    Parts {
        qubits: work.qubits,
        gates,
        links: work.links,
        last: work.last,
        marks: work.marks,
    }
}

// Reads the next gate, and answers the power of two that the map loses.
fn settle(work: &mut Chains) -> u32
    requires { IsReading work.old }
    ensures sound { IsSound work.new }
    ensures advance { IsAdvance work.old result work.new }
{
    match find(work) {
        Some(Change::Pair(first)) => merge_pair(work, first),
        Some(Change::Triple(first, middle)) => {
            turn_over(work, first, middle);
            1
        }
        None => {
            keep(work);
            0
        }
    }
}
