//! The text of a circuit.

ghost use Rattle.std.specs.Prelude.{◌≡◌, ◌++◌, IfOk, OnOk, codes, decimal};
ghost use Rattle.std.specs.List.{flat_map};
ghost use Rattle.qasm_writer.specs.Elements.{elements_of};
ghost use Rattle.qasm_scope.specs.Texts.{TextMeans};
ghost use Rattle.qasm_writer.specs.Measuring.{AreBehind};
ghost use Rattle.qasm_writer.specs.Written.{written, bit_name, bits_line, gate_line, measure_line, on_one, on_two, qubit_name, phase_name, u1_name, register_line};
ghost use Rattle.qasm_writer.specs.Internal.Names.{AreNames};

use itoa::Buffer;
use std::alloc::{AllocError, Global};
use zx_gates::{Gate, GateList, Measure, Qubit};
use zx_model::Sixteenth;

/// The circuit and the measurements behind it as an OpenQASM 2.0 text: the version, the include, the register of qubits
/// where there is a qubit, that of bits where there is a bit, a line for each gate, the first to act first, and a line
/// for each measurement, in order. Each line ends with a line feed.
///
/// # Errors
///
/// Only where memory runs out.
#[tactic(auto, unfolding(crate::specs::Written::written))]
pub fn write_text(
    alloc: Global,
    g: &GateList,
    bits: u32,
    measured: &[Measure],
) -> Result<Vec<u8>, AllocError>
    requires behind { AreBehind g.now bits measured.now }
    ensures text { IfOk result (λ text. text.items ≡ written g.now bits measured.now) }
    ensures means { IfOk result (λ text. TextMeans text.items g.now.qubits
        (elements_of g.now.gates) bits measured.now) }
{
    let mut text = Vec::new(alloc);
    text.extend_from_slice(b"OPENQASM 2.0;\ninclude \"qelib1.inc\";\n")?;
    push_register(&mut text, g.qubits())?;
    push_bits(&mut text, bits)?;
    let names = qubit_names(alloc, g.qubits())?;
    for gate in g.gates() {
        push_gate(&mut text, &names, *gate)?;
    }
    push_measures(&mut text, measured)?;
    Ok(text)
}

// Adds the line of the register of qubits.
fn push_register(text: &mut Vec<u8>, qubits: Qubit) -> Result<(), AllocError>
    ensures { OnOk result (text.new.items ≡ text.old.items ++ register_line qubits) }
{
    if qubits == 0 {
        return Ok(());
    }
    text.extend_from_slice(b"qreg q[")?;
    push_number(text, u32::from(qubits))?;
    text.extend_from_slice(b"];\n")
}

// Adds the line of the register of bits.
fn push_bits(text: &mut Vec<u8>, bits: u32) -> Result<(), AllocError>
    ensures { OnOk result (text.new.items ≡ text.old.items ++ bits_line bits) }
{
    if bits == 0 {
        return Ok(());
    }
    text.extend_from_slice(b"creg c[")?;
    push_number(text, bits)?;
    text.extend_from_slice(b"];\n")
}

// Adds the line of a gate.
fn push_gate(text: &mut Vec<u8>, names: &[Vec<u8>], gate: Gate) -> Result<(), AllocError>
    requires { AreNames names.now }
    ensures { OnOk result (text.new.items ≡ text.old.items ++ gate_line gate) }
{
    match gate {
        Gate::H(q) => push_on_one(text, names, b"h", q),
        Gate::Phase(q, phase) => {
            push_phase_name(text, phase)?;
            push_operand(text, names, q)
        }
        Gate::Cz(q, r) => push_on_two(text, names, b"cz", q, r),
        Gate::Cx { control, target } => push_on_two(text, names, b"cx", control, target),
        Gate::Not(q) => push_on_one(text, names, b"x", q),
    }
}

// The qubits of the register as they are written, by number.
fn qubit_names(alloc: Global, qubits: Qubit) -> Result<Vec<Vec<u8>>, AllocError>
    ensures { IfOk result (λ names. AreNames names.items) }
{
    let mut names = Vec::new(alloc);
    for q in 0..qubits {
        let mut name = Vec::new(alloc);
        push_qubit(&mut name, q)?;
        names.push(name)?;
    }
    Ok(names)
}

// Adds the name of a phase gate.
fn push_phase_name(text: &mut Vec<u8>, phase: Sixteenth) -> Result<(), AllocError>
    ensures { OnOk result (text.new.items ≡ text.old.items ++ phase_name phase) }
{
    let eighth = Sixteenth::eighth_turn();
    let quarter = Sixteenth::quarter_turn();
    let half = Sixteenth::half_turn();
    if phase == eighth {
        text.extend_from_slice(b"t")
    } else if phase == quarter {
        text.extend_from_slice(b"s")
    } else if phase == half {
        text.extend_from_slice(b"z")
    } else if phase == half.add(quarter) {
        text.extend_from_slice(b"sdg")
    } else if phase == eighth.neg() {
        text.extend_from_slice(b"tdg")
    } else {
        push_u1(text, phase.get())
    }
}

// Adds u1 with an angle of so many sixteenth turns.
fn push_u1(text: &mut Vec<u8>, turns: u8) -> Result<(), AllocError>
    ensures { OnOk result (text.new.items ≡ text.old.items ++ u1_name turns) }
{
    text.extend_from_slice(b"u1(")?;
    if turns == 1 {
        text.extend_from_slice(b"pi/8)")
    } else if turns % 2 == 0 {
        push_number(text, u32::from(turns / 2))?;
        text.extend_from_slice(b"*pi/4)")
    } else {
        push_number(text, u32::from(turns))?;
        text.extend_from_slice(b"*pi/8)")
    }
}

// Adds the line of a gate on one qubit.
fn push_on_one(
    text: &mut Vec<u8>,
    names: &[Vec<u8>],
    name: &[u8],
    q: Qubit,
) -> Result<(), AllocError>
    requires { AreNames names.now }
    ensures { OnOk result (text.new.items ≡ text.old.items ++ on_one name.now q) }
{
    text.extend_from_slice(name)?;
    push_operand(text, names, q)
}

// Adds what stands behind the name of a gate on one qubit.
fn push_operand(text: &mut Vec<u8>, names: &[Vec<u8>], q: Qubit) -> Result<(), AllocError>
    requires { AreNames names.now }
    ensures { OnOk result
        (text.new.items ≡ text.old.items ++ codes " " ++ qubit_name q ++ codes ";\n") }
{
    text.extend_from_slice(b" ")?;
    push_name(text, names, q)?;
    text.extend_from_slice(b";\n")
}

// Adds the line of a gate on two qubits.
fn push_on_two(
    text: &mut Vec<u8>,
    names: &[Vec<u8>],
    name: &[u8],
    q: Qubit,
    r: Qubit,
) -> Result<(), AllocError>
    requires { AreNames names.now }
    ensures { OnOk result (text.new.items ≡ text.old.items ++ on_two name.now q r) }
{
    text.extend_from_slice(name)?;
    text.extend_from_slice(b" ")?;
    push_name(text, names, q)?;
    text.extend_from_slice(b",")?;
    push_name(text, names, r)?;
    text.extend_from_slice(b";\n")
}

// Adds a qubit, as it was written before.
fn push_name(text: &mut Vec<u8>, names: &[Vec<u8>], q: Qubit) -> Result<(), AllocError>
    requires { AreNames names.now }
    ensures { OnOk result (text.new.items ≡ text.old.items ++ qubit_name q) }
{
    match names.get(usize::from(q)) {
        Some(name) => text.extend_from_slice(name),
        None => push_qubit(text, q),
    }
}

// Adds a qubit of the register.
fn push_qubit(text: &mut Vec<u8>, q: Qubit) -> Result<(), AllocError>
    ensures { OnOk result (text.new.items ≡ text.old.items ++ qubit_name q) }
{
    text.extend_from_slice(b"q[")?;
    push_number(text, u32::from(q))?;
    text.extend_from_slice(b"]")
}

// Adds the lines of measurements.
fn push_measures(text: &mut Vec<u8>, measured: &[Measure]) -> Result<(), AllocError>
    ensures { OnOk result
        (text.new.items ≡ text.old.items ++ flat_map measure_line measured.now) }
{
    for measure in measured {
        push_measure(text, *measure)?;
    }
    Ok(())
}

// Adds the line of a measurement.
fn push_measure(text: &mut Vec<u8>, measure: Measure) -> Result<(), AllocError>
    ensures { OnOk result (text.new.items ≡ text.old.items ++ measure_line measure) }
{
    text.extend_from_slice(b"measure ")?;
    push_qubit(text, measure.qubit)?;
    text.extend_from_slice(b" -> c[")?;
    push_number(text, measure.bit)?;
    text.extend_from_slice(b"];\n")
}

// Adds a number in decimal digits.
fn push_number(text: &mut Vec<u8>, number: u32) -> Result<(), AllocError>
    ensures { OnOk result (text.new.items ≡ text.old.items ++ decimal number) }
{
    let mut buffer = Buffer::new();
    text.extend_from_slice(buffer.format(number).as_bytes())
}
