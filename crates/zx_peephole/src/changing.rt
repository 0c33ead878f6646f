//! One gate more is read: it is kept, or changed with gates that are kept.

ghost use Rattle.std.specs.Prelude.{◌≡◌, ◌++◌, ◌+◌, ◌<◌, [], ◌∷◌, slice_index_or, IfSome, IfNone};
ghost use Rattle.zx_peephole.specs.Tidy.{IsTidy};
ghost use Rattle.zx_peephole.specs.Internal.Chains.{IsOn, IsSound, IsLeftAt, IsReading, IsChainOf, HasPlaces, kept, next_of, IsRemoved, IsUnlinked, IsUnlinkedFromAll, IsLater, IsRelinked};
ghost use Rattle.zx_peephole.specs.Internal.Changes.{IsPairAt, IsTripleAt, IsAdvance};

use crate::chains::{Chains, first_qubit, nothing, second_qubit};
use crate::marks::{mark, open};
use crate::pairs::{conjugated, doublings, merged};
use zx_gates::{Links, Qubit};

// The next gate is kept.
pub(crate) fn keep(work: &mut Chains)
    requires reading { IsReading work.old }
    requires tidy { IsTidy (kept work.old) → IsTidy (kept work.old ++ next_of work.old ∷ []) }
    ensures sound { IsSound work.new }
    ensures advance { IsAdvance work.old 0 work.new }
{
    let gate = &work.gates[work.next];
    mark(&mut work.marks, gate);
    let first = usize::from(first_qubit(gate));
    let second = usize::from(second_qubit(gate));
    work.links[work.next] = Links {
        first: work.last[first],
        second: work.last[second],
    };
    work.next += 1;
    work.last[first] = work.next as u32;
    work.last[second] = work.next as u32;
}

// The next gate is merged with one that is kept. A phase gate that they become is to be read next. The power of two
// is answered that the map loses.
pub(crate) fn merge_pair(work: &mut Chains, first: usize) -> u32
    requires reading { IsReading work.old }
    requires pair { IsPairAt work.old first }
    ensures sound { IsSound work.new }
    ensures advance { IsAdvance work.old result work.new }
{
    let earlier = &work.gates[first];
    let power = doublings(earlier);
    let one = merged(earlier, &work.gates[work.next]);
    remove(work, first);
    match one {
        Some(gate) => {
            work.gates[work.next] = gate;
            power
        }
        None => {
            work.gates[work.next] = nothing();
            work.next += 1;
            power
        }
    }
}

// The next gate, an H, goes with another H that is kept. The gate between them, turned over, is to be read next.
pub(crate) fn turn_over(work: &mut Chains, first: usize, middle: usize)
    requires reading { IsReading work.old }
    requires triple { IsTripleAt work.old first middle }
    ensures sound { IsSound work.new }
    ensures advance { IsAdvance work.old 1 work.new }
{
    let gate = conjugated(&work.gates[middle]);
    remove(work, middle);
    remove(work, first);
    work.gates[work.next] = gate;
}

// The gate at a place is taken out of its chains, and leaves nothing there.
fn remove(work: &mut Chains, place: usize)
    requires sound { IsSound work.old }
    requires kept { IsLeftAt work.old place }
    ensures sound { IsSound work.new }
    ensures removed { IsRemoved work.old work.new place }
{
    unlink_all(work, place);
    open(&mut work.marks, &work.gates[place]);
    work.gates[place] = nothing();
}

// The chains of its qubits leave the gate at a place out.
fn unlink_all(work: &mut Chains, place: usize)
    requires sound { IsSound work.old }
    requires kept { IsLeftAt work.old place }
    ensures { IsUnlinkedFromAll work.old work.new place }
{
    let first = first_qubit(&work.gates[place]);
    let second = second_qubit(&work.gates[place]);
    unlink(work, place, first);
    if second != first {
        unlink(work, place, second);
    }
}

// The chain of a qubit leaves the gate at a place out.
fn unlink(work: &mut Chains, place: usize, qubit: Qubit)
    requires places { HasPlaces work.old }
    requires qubit { qubit < work.old.qubits }
    requires chain { IsChainOf work.old qubit }
    requires before { place < work.old.next }
    requires on { IsOn work.old.gates.items qubit place }
    ensures { IsUnlinked work.old work.new place qubit }
{
    let link = work.link(place, qubit) as u32;
    match later(work, place, qubit) {
        Some(behind) => set_link(work, behind, qubit, link),
        None => work.last[usize::from(qubit)] = link,
    }
}

// The place of the gate whose link leads to the gate at a place, if there is one.
fn later(work: &Chains, place: usize, qubit: Qubit) -> Option<usize>
    requires places { HasPlaces work.now }
    requires qubit { qubit < work.now.qubits }
    requires chain { IsChainOf work.now qubit }
    requires before { place < work.now.next }
    requires on { IsOn work.now.gates.items qubit place }
    ensures found { IfSome result (IsLater work.now place qubit) }
    ensures none { IfNone result (slice_index_or work.now.last.items qubit 0 ≡ place + 1) }
{
    let mut link = work.last[usize::from(qubit)] as usize;
    let mut found = None;
    while link != place + 1 {
        let gate = link - 1;
        found = Some(gate);
        link = work.link(gate, qubit);
    }
    found
}

// The link of the gate at a place for one of its qubits is changed.
fn set_link(work: &mut Chains, place: usize, qubit: Qubit, link: u32)
    requires places { HasPlaces work.old }
    requires before { place < work.old.next }
    requires on { IsOn work.old.gates.items qubit place }
    ensures { IsRelinked work.old work.new place qubit link }
{
    if first_qubit(&work.gates[place]) == qubit {
        work.links[place].first = link;
    } else {
        work.links[place].second = link;
    }
}
