//! Gates that are the identity, put into circuits.

ghost use Rattle.std.specs.Prelude.{◌≡◌, ◌++◌, ◌*◌, true, IfOk, IfSome, OnOk};
ghost use Rattle.zx_model.specs.Scalar.{IsWithin, one_scalar, product_of_scalars, quotient_of_scalars};
ghost use Rattle.zx_gates.specs.Circuit.{gate_limit, gate_odd_phases};
ghost use Rattle.zx_gates.specs.Maps.{amp};
ghost use Rattle.zx_gates.specs.Passes.{Implements};
ghost use Rattle.piece_laws.specs.Replacement.{AreScaled};
ghost use Rattle.zx_identities.specs.Inverse.{undone_scalar};
ghost use Rattle.zx_identities.specs.Insertions.{most_root2_of_insertions};
ghost use Rattle.zx_identities.specs.Internal.Inserting.{Fits, inserted, IsRescaled};

use crate::checking::is_identity;
use crate::inversion::{push_inverse, undone_scalar};
use std::alloc::{AllocError, Global};
use zx_gates::{GateList, ScaledCircuit};
use zx_model::Scalar;

// The greatest exponent of the root of two, in size.
const MOST_ROOT2: u64 = 1 << 50;

/// Gates that may be put into a circuit: behind so many of its gates those of a frame, then others that are
/// to be the identity, then what undoes the frame.
#[derive(Drop)]
pub struct Insertion {
    /// How many gates of the circuit stand in front.
    pub place: usize,
    /// What stands around the others.
    pub frame: GateList,
    /// The gates that are to be the identity.
    pub inner: GateList,
}

/// The circuit with these gates put in, with the scalar by which its own map is that of the new one: one
/// over the root of two, twice for each H of the frame. None where the inner gates aren't shown to be the
/// identity by `is_identity`, or the numbers of qubits or the place don't fit.
///
/// # Errors
///
/// Only where memory runs out.
pub fn put_in(
    alloc: Global,
    circuit: &GateList,
    insertion: &Insertion,
) -> Result<Option<ScaledCircuit>, AllocError>
    ensures qubits { IfOk result (λ found. IfSome found (λ made. made.gates.qubits ≡ circuit.now.qubits)) }
    ensures scaled { IfOk result (λ found. IfSome found (λ made.
        AreScaled circuit.now.qubits circuit.now.gates made.scalar made.gates.gates)) }
    ensures scalar { IfOk result (λ found. IfSome found (λ made.
        made.scalar ≡ quotient_of_scalars one_scalar (undone_scalar insertion.now.frame.gates))) }
    ensures small { IfOk result (λ found. IfSome found (λ made. IsWithin (2 * gate_limit) made.scalar)) }
{
    if !fits(circuit, insertion) || !is_identity(alloc, &insertion.inner)? {
        return Ok(None);
    }
    Ok(Some(ScaledCircuit {
        gates: with_gates(alloc, circuit, insertion)?,
        scalar: Scalar::one().over(undone_scalar(&insertion.frame)),
    }))
}

/// The circuit with all of these put in that are shown to be the identity, one after the other: a place
/// counts the gates that are there by then. The scalar is told by which the circuit's map is that of the
/// new one; what would take its exponent of the root of two over 2^50 in size is left out.
///
/// # Errors
///
/// Only where memory runs out.
pub fn put_all_in(
    alloc: Global,
    circuit: &GateList,
    insertions: &[Insertion],
) -> Result<ScaledCircuit, AllocError>
    ensures { IfOk result (λ made. Implements circuit.now.qubits (amp circuit.now.gates)
        (gate_odd_phases made.gates.gates) most_root2_of_insertions made.gates made.scalar) }
{
    let mut made = ScaledCircuit {
        gates: circuit.copy()?,
        scalar: Scalar::one(),
    };
    for insertion in insertions {
        made = with_one(alloc, made, insertion)?;
    }
    Ok(made)
}

// The circuit with one more put in, where it may be.
fn with_one(
    alloc: Global,
    made: ScaledCircuit,
    insertion: &Insertion,
) -> Result<ScaledCircuit, AllocError>
    requires { IsWithin most_root2_of_insertions made.scalar }
    ensures rescaled { IfOk result (IsRescaled made) }
    ensures small { IfOk result (λ new. IsWithin most_root2_of_insertions new.scalar) }
{
    let Some(new) = put_in(alloc, &made.gates, insertion)? else {
        return Ok(made);
    };
    let Some(scalar) = product(&made.scalar, &new.scalar) else {
        return Ok(made);
    };
    Ok(ScaledCircuit {
        gates: new.gates,
        scalar,
    })
}

// The product of two scalars, where its exponent of the root of two is at most 2^50 in size.
fn product(s: &Scalar, t: &Scalar) -> Option<Scalar>
    requires s { IsWithin most_root2_of_insertions s.now }
    requires t { IsWithin most_root2_of_insertions t.now }
    ensures value { IfSome result (λ made. made ≡ product_of_scalars s.now t.now) }
    ensures small { IfSome result (IsWithin most_root2_of_insertions) }
{
    let product = s.times(*t);
    if product.root2.unsigned_abs() > MOST_ROOT2 {
        return None;
    }
    Some(product)
}

// Whether there is such a place, and the numbers of qubits are the same.
fn fits(circuit: &GateList, insertion: &Insertion) -> bool
    ensures { result ≡ true → Fits circuit.now insertion.now }
{
    let qubits = circuit.qubits();
    insertion.place <= circuit.gates().len()
        && insertion.frame.qubits() == qubits
        && insertion.inner.qubits() == qubits
}

// The circuit with the gates put in.
fn with_gates(
    alloc: Global,
    circuit: &GateList,
    insertion: &Insertion,
) -> Result<GateList, AllocError>
    requires { Fits circuit.now insertion.now }
    ensures qubits { IfOk result (λ made. made.qubits ≡ circuit.now.qubits) }
    ensures gates { IfOk result (λ made. made.gates ≡ inserted circuit.now.gates insertion.now) }
{
    let mut made = GateList::new(alloc, circuit.qubits());
    push_with_gates(&mut made, circuit, insertion)?;
    Ok(made)
}

// Adds the gates of a circuit, with those put in, after all others.
fn push_with_gates(
    made: &mut GateList,
    circuit: &GateList,
    insertion: &Insertion,
) -> Result<(), AllocError>
    requires fits { Fits circuit.now insertion.now }
    requires same { made.old.qubits ≡ circuit.now.qubits }
    ensures qubits { OnOk result (made.new.qubits ≡ made.old.qubits) }
    ensures gates { OnOk result (made.new.gates ≡ made.old.gates ++ inserted circuit.now.gates insertion.now) }
{
    let gates = circuit.gates();
    made.push_all(&gates[..insertion.place])?;
    made.push_all(insertion.frame.gates())?;
    made.push_all(insertion.inner.gates())?;
    push_inverse(made, &insertion.frame)?;
    made.push_all(&gates[insertion.place..])
}
