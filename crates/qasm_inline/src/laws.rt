//! Laws of the circuits that programs mean.

ghost use Rattle.std.specs.Prelude.{◌≤◌, ℕ, List};
ghost use Rattle.std.specs.List.{All};
ghost use Rattle.zx_gates.specs.declared.elementary.ElementaryGate.{ElementaryGate};
ghost use Rattle.zx_gates.specs.declared.elementary.Measure.{Measure};
ghost use Rattle.zx_gates.specs.Circuit.{most_qubits};
ghost use Rattle.zx_gates.specs.Elementary.{AreOnce, IsElementaryGateOn, IsMeasureOn, most_bits};
ghost use Rattle.qasm_reader.specs.Syntax.{Placed};
ghost use Rattle.qasm_scope.specs.Meaning.{Means};

/// The circuit that a program means has few qubits and bits, its gates and measurements act on them, the two qubits of
/// a CX differ, and no qubit and no bit is named by two measurements.
pub fn meant_circuits_are_elementary()
    ensures few { (program : List Placed) (qubits : ℕ) (gates : List ElementaryGate) (bits : ℕ)
        (measured : List Measure) → Means program qubits gates bits measured
        → qubits ≤ most_qubits }
    ensures on_qubits { (program : List Placed) (qubits : ℕ) (gates : List ElementaryGate)
        (bits : ℕ) (measured : List Measure) → Means program qubits gates bits measured
        → All (IsElementaryGateOn qubits) gates }
    ensures few_bits { (program : List Placed) (qubits : ℕ) (gates : List ElementaryGate) (bits : ℕ)
        (measured : List Measure) → Means program qubits gates bits measured → bits ≤ most_bits }
    ensures within { (program : List Placed) (qubits : ℕ) (gates : List ElementaryGate) (bits : ℕ)
        (measured : List Measure) → Means program qubits gates bits measured
        → All (IsMeasureOn qubits bits) measured }
    ensures once { (program : List Placed) (qubits : ℕ) (gates : List ElementaryGate) (bits : ℕ)
        (measured : List Measure) → Means program qubits gates bits measured → AreOnce measured }
{}
