mod found_flows;
mod modular;
mod replays;
mod sameness;
mod sums;
mod teleported;
mod trips;
mod two_qubits;
