//! Circuits by the words of a generator.

ghost use Rattle.std.specs.Prelude.{◌≡◌, ◌≢◌, ◌<◌, ◌≤◌, ◌%◌, IfOk};
ghost use Rattle.rand_pcg.specs.Pcg.{pcg32};
ghost use Rattle.zx_gates.specs.Circuit.{IsOnQubits, most_qubits};
ghost use Rattle.zx_gen.specs.Generator.{generated, drawn, one_qubit_gate, other_qubit, most_drawn_gates};

use rand_core::utils::NextWord;
use rand_pcg::Lcg64Xsh32;
use std::alloc::{AllocError, Global};
use zx_gates::{Gate, GateList, Qubit};
use zx_model::Sixteenth;

/// The circuit of a seed: on so many qubits, from 1 to 1,024, it has so many gates, at most
/// 1,000,000. Equal arguments give equal circuits.
///
/// # Errors
///
/// Only where memory runs out.
pub fn generate(alloc: Global, seed: u64, qubits: Qubit, gates: u32) -> Result<GateList, AllocError>
    requires some_qubit { 1 ≤ qubits }
    requires few_qubits { qubits ≤ most_qubits }
    requires few_gates { gates ≤ most_drawn_gates }
    ensures qubits { IfOk result (λ circuit. circuit.qubits ≡ qubits) }
    ensures gates { IfOk result (λ circuit. circuit.gates ≡ generated seed qubits gates) }
{
    let mut generator = Lcg64Xsh32::new(seed, 0);
    let mut circuit = GateList::new(alloc, qubits);
    for _ in 0..gates {
        circuit.push(draw_gate(&mut generator, qubits))?;
    }
    Ok(circuit)
}

// The next gate.
fn draw_gate(generator: &mut Lcg64Xsh32, qubits: Qubit) -> Gate
    requires some_qubit { 1 ≤ qubits }
    requires few_qubits { qubits ≤ most_qubits }
    ensures gate { drawn qubits generator.old
        ≡ record { gate = result; after = generator.new } }
    ensures on_qubits { IsOnQubits qubits result }
{
    let kind = draw_below(generator, 6);
    let q = draw_below(generator, qubits);
    if kind < 4 || qubits == 1 {
        return one_qubit_gate(kind, q);
    }
    let r = draw_other(generator, qubits, q);
    if kind == 4 {
        Gate::Cz(q, r)
    } else {
        Gate::Cx {
            control: q,
            target: r,
        }
    }
}

// The gate on one qubit of a kind.
fn one_qubit_gate(kind: u16, q: Qubit) -> Gate
    ensures { result ≡ one_qubit_gate kind q }
{
    match kind {
        1 => Gate::Phase(q, Sixteenth::eighth_turn()),
        2 => Gate::Phase(q, Sixteenth::quarter_turn()),
        3 => Gate::Phase(q, Sixteenth::eighth_turn().neg()),
        _ => Gate::H(q),
    }
}

// A number below the limit, by the next word.
fn draw_below(generator: &mut Lcg64Xsh32, limit: u16) -> u16
    requires { 1 ≤ limit }
    ensures value { result ≡ (pcg32 generator.old).0 % limit }
    ensures after { generator.new ≡ (pcg32 generator.old).1 }
    ensures below { result < limit }
{
    (generator.next_word() % u32::from(limit)) as u16
}

// A qubit other than this one, by the next word.
fn draw_other(generator: &mut Lcg64Xsh32, qubits: Qubit, q: Qubit) -> Qubit
    requires two_qubits { 2 ≤ qubits }
    requires in_range { q < qubits }
    ensures value { result ≡ other_qubit qubits q (pcg32 generator.old).0 }
    ensures after { generator.new ≡ (pcg32 generator.old).1 }
    ensures below { result < qubits }
    ensures other { result ≢ q }
{
    let r = draw_below(generator, qubits - 1);
    if r < q { r } else { r + 1 }
}
