//! Pairs and triples that a gate makes with gates before it.

ghost use Rattle.std.specs.Prelude.{◌≡◌, ◌==◌, ◌++◌, ◌+◌, ◌<◌, ◌≤◌, [], ◌∷◌, length, if◌then◌else◌, IfSome, IfNone};
ghost use Rattle.zx_peephole.specs.Tidy.{IsTidy};
ghost use Rattle.zx_peephole.specs.Internal.Chains.{IsOn, IsSound, IsLeftAt, IsReading, HasPlaces, kept, next_of, gate_at, first_qubit, second_qubit, link_at};
ghost use Rattle.zx_peephole.specs.Internal.Stops.{IsStop, IsFreeBetween, IsWalk, IsNearest, HasQubitsBelow};
ghost use Rattle.zx_peephole.specs.Internal.Changes.{IsChange};

use crate::chains::{Chains, first_qubit, second_qubit};
use crate::marks::meets_none;
use crate::pairs::{cancels_or_merges, stops, turns};
use zx_gates::{Gate, Qubit};

// What a gate makes with gates before it, by their places.
#[derive(Clone, Copy, Drop)]
pub(crate) enum Change {
    // A pair with that one.
    Pair(usize),
    // A triple with these two.
    Triple(usize, usize),
}

// A gate on its way to the front, before the gate at a place, and the links to the last gates there on its qubits.
#[derive(Clone, Copy, Drop)]
pub(crate) struct Walk {
    pub(crate) place: usize,
    pub(crate) first: usize,
    pub(crate) second: usize,
}

// A pair or triple that the next gate makes with those that are kept, if there is one.
pub(crate) fn find(work: &Chains) -> Option<Change>
    requires { IsReading work.now }
    ensures found { IfSome result (IsChange work.now) }
    ensures none { IfNone result (IsTidy (kept work.now) → IsTidy (kept work.now ++ next_of work.now ∷ [])) }
{
    let gate = &work.gates[work.next];
    if meets_none(&work.marks, gate) {
        return None;
    }
    let stop = last_stop(work, gate, start(work, gate))?;
    let earlier = &work.gates[stop];
    if cancels_or_merges(earlier, gate) {
        return Some(Change::Pair(stop));
    }
    if !turns(gate, earlier) {
        return None;
    }
    let first = last_stop(work, gate, before(work, gate, stop))?;
    if cancels_or_merges(&work.gates[first], gate) {
        Some(Change::Triple(first, stop))
    } else {
        None
    }
}

// The place of the last gate that stops the gate on its way to the front, if one does.
fn last_stop(work: &Chains, gate: &Gate, start: Walk) -> Option<usize>
    requires sound { IsSound work.now }
    requires qubits { HasQubitsBelow work.now.qubits gate.now }
    requires within { start.place ≤ work.now.next }
    requires walk { IsWalk work.now.gates.items gate.now start }
    ensures found { IfSome result (IsStop work.now.gates.items gate.now start.place) }
    ensures none { IfNone result (IsFreeBetween work.now.gates.items gate.now 0 start.place) }
{
    let mut walk = start;
    while let Some(place) = nearest(walk) {
        if stops(gate, &work.gates[place]) {
            return Some(place);
        }
        walk = pass(work, gate, walk, place);
    }
    None
}

// The gate begins behind all gates that are kept.
fn start(work: &Chains, gate: &Gate) -> Walk
    requires sound { IsSound work.now }
    requires qubits { HasQubitsBelow work.now.qubits gate.now }
    ensures place { result.place ≡ work.now.next }
    ensures walk { IsWalk work.now.gates.items gate.now result }
{
    Walk {
        place: work.next,
        first: work.last[usize::from(first_qubit(gate))] as usize,
        second: work.last[usize::from(second_qubit(gate))] as usize,
    }
}

// The gate has passed a gate that is on all of its qubits.
fn before(work: &Chains, gate: &Gate, place: usize) -> Walk
    requires sound { IsSound work.now }
    requires qubits { HasQubitsBelow work.now.qubits gate.now }
    requires before { place < work.now.next }
    requires first { IsOn work.now.gates.items (first_qubit gate.now) place }
    requires second { IsOn work.now.gates.items (second_qubit gate.now) place }
    ensures place { result.place ≡ place }
    ensures walk { IsWalk work.now.gates.items gate.now result }
{
    Walk {
        place,
        first: work.link(place, first_qubit(gate)),
        second: work.link(place, second_qubit(gate)),
    }
}

// The place of the last gate before that shares a qubit with it.
fn nearest(walk: Walk) -> Option<usize>
    ensures found { IfSome result (IsNearest walk) }
    ensures none { IfNone result ((walk.first ≡ 0) × (walk.second ≡ 0)) }
{
    let link = if walk.first < walk.second {
        walk.second
    } else {
        walk.first
    };
    link.checked_sub(1)
}

// The gate has passed the last gate that shares a qubit with it.
fn pass(work: &Chains, gate: &Gate, walk: Walk, place: usize) -> Walk
    requires sound { IsSound work.now }
    requires qubits { HasQubitsBelow work.now.qubits gate.now }
    requires within { walk.place ≤ work.now.next }
    requires walk { IsWalk work.now.gates.items gate.now walk }
    requires nearest { IsNearest walk place }
    ensures place { result.place ≡ place }
    ensures walk { IsWalk work.now.gates.items gate.now result }
{
    Walk {
        place,
        first: followed(work, walk.first, place, first_qubit(gate)),
        second: followed(work, walk.second, place, second_qubit(gate)),
    }
}

// The link to the last gate on the qubit before a place, given that before or at the place.
fn followed(work: &Chains, link: usize, place: usize, qubit: Qubit) -> usize
    requires places { HasPlaces work.now }
    requires before { place < work.now.next }
    ensures { result ≡ (if link == place + 1
        then link_at work.now.gates.items work.now.links.items qubit place else link) }
{
    if link == place + 1 {
        work.link(place, qubit)
    } else {
        link
    }
}
