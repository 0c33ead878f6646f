//! Gate lists of circuits of Clifford gates and phases of sixteenth turns, the linear maps that they
//! stand for, and circuits of the gates that are built into OpenQASM.
//!
//! Proved: gate lists keep their conditions, and each call makes its one change; `lower` gives the
//! gates of a table for each built-in gate of OpenQASM, tells by which scalar the linear map
//! changes, and keeps the number of odd phases; `counts` counts gates by kind; no circuit's map is
//! zero; a dozen facts on the maps of small circuits.
//!
//! Inside:
//!
//! - `gate`: the five gates, and the numbers of qubits.
//! - `gate_list`: gates on some qubits, with memory for what is kept beside them.
//! - `scaled_circuit`: a list of gates, and the scalar between its map and another one.
//! - `elementary`: the two gates that are built into OpenQASM, and measurements.
//! - `lowering`: what stands for each of these two.
//! - `tally`: the numbers of gates of each kind; `counting` fills it.
//! - `laws`: what holds of these definitions.
//!
//! ```rust
//! let mut circuit = GateList::new(alloc, 2);
//! circuit.push(Gate::H(0))?;
//! circuit.push(Gate::Cx { control: 0, target: 1 })?;
//! ```
#![tactic(auto)]

mod counting;
mod elementary;
mod gate;
mod gate_list;
mod laws;
mod lowering;
mod scaled_circuit;
mod tally;

pub use counting::counts;
pub use elementary::{Elementary, ElementaryGate, Elements, Measure, Measures};
pub use gate::{Gate, Qubit};
pub use gate_list::{GateList, Links, MOST_QUBITS, Marks, Parts};
pub use laws::{lowering_keeps_map_and_odd_phases, no_map_is_zero, worked_maps};
pub use lowering::lower;
pub use scaled_circuit::ScaledCircuit;
pub use tally::Counts;
