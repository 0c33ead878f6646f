//! How much is tried, and of which circuits. Found by trial.

use zx_gates::Qubit;

/// The most qubits of a circuit.
pub(crate) const MOST_QUBITS: Qubit = 64;

/// The most gates of a list that is written again as a whole.
pub(crate) const MOST_WHOLE: usize = 6_000;

/// From how many odd phases on a list is looked at piece by piece.
pub(crate) const LONG: u64 = 600;

/// The whole effort, in hundredths.
pub(crate) const WHOLE_EFFORT: u64 = 100;

/// How often phases are put in at most.
pub(crate) const ROUNDS: u64 = 400;

/// How many groups are drawn besides one for each two odd phases.
pub(crate) const TRIES: u64 = 40;

/// How many groups are drawn where a long search came before.
pub(crate) const FEW_TRIES: u64 = 20;

/// How many seeds are tried at most, and for how many odd phases one seed.
pub(crate) const MOST_SEEDS: u64 = 8;

pub(crate) const SEEDS: u64 = 600;
