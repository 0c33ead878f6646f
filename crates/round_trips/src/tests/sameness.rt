//! Pairs of circuits that are the same or not, worked by hand.

use super::trips::circuit;
use std::alloc::Global;
use std::process::Abort;
use std::test::Fail;
use zx_gates::Gate;
use zx_identities::inverse;
use zx_model::{Scalar, Sixteenth};
use zx_same::{Sameness, compare, quotient};

fn t(q: u16) -> Gate {
    Gate::Phase(q, Sixteenth::eighth_turn())
}

fn s(q: u16) -> Gate {
    Gate::Phase(q, Sixteenth::quarter_turn())
}

fn cx(control: u16, target: u16) -> Gate {
    Gate::Cx { control, target }
}

// How many gates are left, where it isn't shown that two circuits are the same.
fn gates_left(
    rt: &impl Abort,
    alloc: Global,
    first: &[Gate],
    second: &[Gate],
) -> Result<Option<usize>, Fail> {
    let a = circuit(rt, alloc, first)?;
    let b = circuit(rt, alloc, second)?;
    assert!(rt; a.qubits() == b.qubits());
    match compare(alloc, &a, &b)? {
        Sameness::Same => Ok(None),
        Sameness::NotShown { left, .. } => Ok(Some(left.gates().len())),
    }
}

#[test]
fn two_eighth_turns_are_a_quarter_turn(rt: HostRuntime) -> Result<(), Fail> {
    assert!(rt; gates_left(&rt, rt.alloc(), &[t(0), t(0)], &[s(0)])?.is_none());
    Ok(())
}

#[test]
fn an_eighth_turn_is_no_quarter_turn(rt: HostRuntime) -> Result<(), Fail> {
    assert!(rt; gates_left(&rt, rt.alloc(), &[t(0)], &[s(0)])? == Some(1));
    Ok(())
}

#[test]
fn equal_lists(rt: HostRuntime) -> Result<(), Fail> {
    let gates = [t(0), Gate::H(0), t(0), cx(0, 1), t(1)];
    assert!(rt; gates_left(&rt, rt.alloc(), &gates, &gates)?.is_none());
    Ok(())
}

#[test]
fn one_gate_more(rt: HostRuntime) -> Result<(), Fail> {
    let gates = [Gate::H(0), cx(0, 1)];
    let longer = [Gate::H(0), cx(0, 1), t(1)];
    assert!(rt; gates_left(&rt, rt.alloc(), &gates, &longer)?.is_some());
    assert!(rt; gates_left(&rt, rt.alloc(), &longer, &gates)?.is_some());
    Ok(())
}

#[test]
fn two_qubits_exchanged(rt: HostRuntime) -> Result<(), Fail> {
    assert!(rt; gates_left(&rt, rt.alloc(), &[cx(0, 1)], &[cx(1, 0)])?.is_some());
    let swap = [cx(0, 1), cx(1, 0), cx(0, 1)];
    assert!(rt; gates_left(&rt, rt.alloc(), &swap, &[])?.is_some());
    Ok(())
}

// An exchange of two qubits begins with either of them; Cx is Cz between two Hadamards on its target.
#[test]
fn other_gates_with_one_map(rt: HostRuntime) -> Result<(), Fail> {
    let swap = [cx(0, 1), cx(1, 0), cx(0, 1)];
    let other = [cx(1, 0), cx(0, 1), cx(1, 0)];
    assert!(rt; gates_left(&rt, rt.alloc(), &swap, &other)?.is_none());
    let by_hadamards = [Gate::H(1), Gate::Cz(0, 1), Gate::H(1)];
    assert!(rt; gates_left(&rt, rt.alloc(), &[cx(0, 1)], &by_hadamards)?.is_none());
    assert!(rt; gates_left(&rt, rt.alloc(), &[Gate::H(0), Gate::H(0)], &[])?.is_none());
    Ok(())
}

// By which number the map of the first circuit is that of the second.
fn number(
    rt: &impl Abort,
    alloc: Global,
    first: &[Gate],
    second: &[Gate],
) -> Result<Option<Scalar>, Fail> {
    let a = circuit(rt, alloc, first)?;
    let b = circuit(rt, alloc, second)?;
    assert!(rt; a.qubits() == b.qubits());
    Ok(quotient(alloc, &a, &b)?)
}

// A power of the root of two.
fn root2(exponent: i64) -> Option<Scalar> {
    Some(Scalar {
        root2: exponent,
        turn: Sixteenth::new(0),
    })
}

// H is taken without its factor 1/sqrt 2, so two of them are two times the identity.
#[test]
fn two_hadamards_are_two(rt: HostRuntime) -> Result<(), Fail> {
    let twice = [Gate::H(0), Gate::H(0)];
    assert!(rt; number(&rt, rt.alloc(), &twice, &[])? == root2(2));
    assert!(rt; number(&rt, rt.alloc(), &[], &twice)? == root2(-2));
    Ok(())
}

// Not before H is H before Z; T, Not, T and Not in a row turn both states by an eighth.
#[test]
fn numbers_of_turns(rt: HostRuntime) -> Result<(), Fail> {
    let not = Gate::Not(0);
    let z = Gate::Phase(0, Sixteenth::half_turn());
    assert!(rt; number(&rt, rt.alloc(), &[t(0), t(0)], &[s(0)])? == root2(0));
    assert!(rt; number(&rt, rt.alloc(), &[not, Gate::H(0)], &[Gate::H(0), z])? == root2(0));
    let turned = Scalar {
        root2: 0,
        turn: Sixteenth::eighth_turn(),
    };
    assert!(rt; number(&rt, rt.alloc(), &[t(0), not, t(0), not], &[])? == Some(turned));
    assert!(rt; number(&rt, rt.alloc(), &[t(0)], &[s(0)])?.is_none());
    Ok(())
}

#[test]
fn the_inverse_of_three_gates(rt: HostRuntime) -> Result<(), Fail> {
    let list = circuit(&rt, rt.alloc(), &[Gate::H(0), t(0), cx(0, 1)])?;
    let wanted = [cx(0, 1), Gate::Phase(0, Sixteenth::new(14)), Gate::H(0)];
    assert!(rt; inverse(rt.alloc(), &list)?.gates() == wanted.as_slice());
    Ok(())
}
