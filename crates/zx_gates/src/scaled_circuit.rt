//! Circuits with a scalar.

use crate::gate_list::GateList;
use zx_model::Scalar;

/// A circuit that is made of something with a linear map, another circuit or an open graph, and the scalar by which
/// that map is the circuit's own.
#[derive(Drop)]
pub struct ScaledCircuit {
    /// The circuit.
    pub gates: GateList,
    /// The map of what it is made of is so many times the circuit's.
    pub scalar: Scalar,
}
