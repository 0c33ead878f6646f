//! Numbers of gates.

/// How many gates of each kind there are.
#[derive(Clone, Copy, Debug, PartialEq, Eq)]
pub struct Counts {
    /// All gates.
    pub total: u64,
    /// The phase gates of odd phases: the dear ones.
    pub odd: u64,
    /// The gates on two qubits, `Cz` and `Cx` together.
    pub two_qubit: u64,
    /// The Hadamard gates.
    pub h: u64,
    /// The phase gates, those of odd phases among them.
    pub phase: u64,
    /// The controlled Z gates.
    pub cz: u64,
    /// The controlled NOT gates.
    pub cx: u64,
    /// The NOT gates.
    pub nots: u64,
}
