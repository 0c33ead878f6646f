//! That circuits are made with ample memory, and worked ones.
use super::circuits::{cx, phase};
use rand_core::utils::NextWord;
use rand_pcg::Lcg64Xsh32;
use std::alloc::Global;
use std::process::Abort;
use std::test::Fail;
use zx_gates::{Gate, Qubit};
use zx_gen::generate;

// The first words of the generator on a stream from a state are these.
fn gives_words(rt: &impl Abort, state: u64, stream: u64, words: &[u32]) {
    let mut generator = Lcg64Xsh32::new(state, stream);
    for word in words {
        assert_eq!(rt; generator.next_word(), *word);
    }
}

// The published words of the generator's reference code, for the state 42 and the stream 54.
#[test]
fn words_are_those_of_the_reference(rt: HostRuntime) {
    let words = [
        0xa15c02b7, 0x7b47f409, 0xba1d3330, 0x83d2f293, 0xbfa4784b, 0xcbed606e,
    ];
    gives_words(&rt, 42, 54, &words);
}

// The words on the stream 0, by another program that also gives the published ones.
#[test]
fn words_on_the_first_stream(rt: HostRuntime) {
    let words = [
        0x21b756ee, 0xc15ef750, 0x9548a9bd, 0x35db428d, 0xf0071649, 0xa243807f, 0xb4c5bdd2,
        0x103ca9d2, 0x46728146, 0x01359d10,
    ];
    gives_words(&rt, 42, 0, &words);
    let others = [
        0xf2393151, 0x7fbbcd3a, 0xa3537acf, 0xc9ca4c3f, 0xd363db3c, 0x2ed9566c, 0x6e5082a5,
        0x81ef4875, 0x2b28c497, 0x918b5f59,
    ];
    gives_words(&rt, 7, 0, &others);
}

// The circuit of a seed, on so many qubits and of so many gates, has these gates.
fn is_drawn(
    rt: &impl Abort,
    alloc: Global,
    seed: u64,
    qubits: Qubit,
    gates: &[Gate],
) -> Result<(), Fail> {
    assert!(rt; 1 <= qubits && qubits <= 1024 && gates.len() <= 10);
    let circuit = generate(alloc, seed, qubits, gates.len() as u32)?;
    assert_eq!(rt; circuit.qubits(), qubits);
    assert_eq!(rt; circuit.gates(), gates);
    Ok(())
}

#[test]
fn ten_gates_on_three_qubits(rt: HostRuntime) -> Result<(), Fail> {
    let gates = [
        phase(1, 14),
        cx(2, 0),
        Gate::Cz(2, 1),
        phase(0, 2),
        cx(1, 2),
        phase(0, 4),
        Gate::Cz(2, 1),
        phase(1, 2),
        Gate::H(0),
        Gate::Cz(0, 2),
    ];
    is_drawn(&rt, rt.alloc(), 7, 3, &gates)
}

#[test]
fn one_qubit_has_no_gate_on_two(rt: HostRuntime) -> Result<(), Fail> {
    let gates = [
        phase(0, 14),
        Gate::H(0),
        Gate::H(0),
        Gate::H(0),
        phase(0, 2),
        Gate::H(0),
        phase(0, 14),
        phase(0, 14),
        Gate::H(0),
        phase(0, 2),
    ];
    is_drawn(&rt, rt.alloc(), 7, 1, &gates)
}

#[test]
fn the_last_seed_on_the_most_qubits(rt: HostRuntime) -> Result<(), Fail> {
    let gates = [
        Gate::H(904),
        Gate::Cz(955, 300),
        Gate::H(790),
        phase(622, 2),
        phase(845, 14),
        cx(571, 15),
    ];
    is_drawn(&rt, rt.alloc(), 18446744073709551615, 1024, &gates)
}

#[test]
fn no_gates_may_be_asked_for(rt: HostRuntime) -> Result<(), Fail> {
    is_drawn(&rt, rt.alloc(), 7, 1, &[])
}
