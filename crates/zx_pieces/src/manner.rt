//! How pieces are gathered, and how much is tried for each.

ghost use Rattle.std.specs.Prelude.{◌≤◌};

use zx_gates::{GateList, Qubit};

// The most gates and qubits of a list that is looked at as a whole.
const SHORT: usize = 2_000;

const FEW: Qubit = 64;

// How many passes there are over a short list behind the first one, and over a long one.
const SHORT_PASSES: usize = 18;

const LONG_PASSES: usize = 9;

// On how many qubits a piece of a short list is at most, pass by pass.
const SHORT_WIDTHS: [usize; 17] = [4, 8, 12, 15, 20, 24, 3, 5, 7, 9, 11, 13, 16, 20, 24, 28, 32];

// The same for a long list: of pieces that are written again as a whole, then of those that are searched.
const LONG_WIDTHS: [usize; 5] = [4, 8, 12, 20, 6];

const SEARCHED_WIDTHS: [usize; 4] = [16, 10, 24, 13];

// How many gates a piece of a long list has at most, and one that is searched.
const LARGE: usize = 200;

const SEARCHED_LARGE: usize = 400;

// Among how many gates in a row a piece is looked for.
const REACH: usize = 3_000;

// The same where a short list is taken as a whole.
const FAR: usize = 30_000;

/// How pieces are gathered, and how much is tried for each.
#[derive(Clone, Copy)]
pub(crate) struct Manner {
    /// On how many qubits a piece is at most.
    pub(crate) qubits: usize,
    /// How many gates it has at most.
    pub(crate) gates: usize,
    /// Among how many gates in a row it is looked for.
    pub(crate) reach: usize,
    /// How it is written again.
    pub(crate) effort: Effort,
}

/// How a piece is written again.
#[derive(Clone, Copy)]
pub(crate) struct Effort {
    // How often it is tried for each gate. Where it is never, the piece is written again as a whole.
    tries_each: usize,
    // How often it is tried for each gate without a gain before it is left alone.
    idle_each: usize,
    // How often it is tried besides.
    more: usize,
}

impl Effort {
    /// A piece is written again as a whole.
    pub(crate) const ONCE: Effort = Effort {
        tries_each: 0,
        idle_each: 0,
        more: 0,
    };

    // That for a piece of a long list.
    const FEW_TRIES: Effort = Effort {
        tries_each: 6,
        idle_each: 1,
        more: 0,
    };

    // That for a short list as a whole.
    const MANY_TRIES: Effort = Effort {
        tries_each: 50,
        idle_each: 40,
        more: 1_000,
    };

    /// How often a piece of so many gates is tried.
    pub(crate) fn tries_of(self, gates: usize) -> usize {
        self.tries_each
            .saturating_mul(gates)
            .saturating_add(self.more)
    }

    /// How often it is tried without a gain.
    pub(crate) fn idle_of(self, gates: usize) -> usize {
        self.idle_each
            .saturating_mul(gates)
            .saturating_add(self.more)
    }
}

/// Whether a circuit has too many gates or qubits to be looked at as a whole.
pub(crate) fn is_long(circuit: &GateList) -> bool {
    circuit.gates().len() > SHORT || circuit.qubits() > FEW
}

/// How many passes there are behind the first one, over a circuit that is too long to be looked at as a whole or isn't.
pub(crate) fn passes(is_long: bool) -> usize
    ensures { result ≤ 18 }
{
    if is_long { LONG_PASSES } else { SHORT_PASSES }
}

impl Manner {
    /// That of the first pass.
    pub(crate) fn first(is_long: bool) -> Manner {
        if is_long {
            Manner::narrow(16, LARGE)
        } else {
            Manner::whole(Effort::ONCE)
        }
    }

    /// That of a pass behind it, by its number.
    pub(crate) fn of_pass(number: usize, is_long: bool) -> Manner {
        if is_long {
            Manner::long(number)
        } else {
            Manner::short(number)
        }
    }

    // The last pass takes the whole list.
    fn short(number: usize) -> Manner {
        match SHORT_WIDTHS.get(number) {
            Some(width) => Manner::narrow(*width, usize::MAX),
            None => Manner::whole(Effort::MANY_TRIES),
        }
    }

    // The last passes search.
    fn long(number: usize) -> Manner {
        if let Some(width) = LONG_WIDTHS.get(number) {
            return Manner::narrow(*width, LARGE);
        }
        let number = number.saturating_sub(LONG_WIDTHS.len());
        Manner::searched(SEARCHED_WIDTHS.get(number).copied().unwrap_or(16))
    }

    // The whole list as a piece.
    fn whole(effort: Effort) -> Manner {
        Manner {
            qubits: usize::MAX,
            gates: usize::MAX,
            reach: FAR,
            effort,
        }
    }

    // Pieces on few qubits, each written again as a whole.
    fn narrow(qubits: usize, gates: usize) -> Manner {
        Manner {
            qubits,
            gates,
            reach: REACH,
            effort: Effort::ONCE,
        }
    }

    // Pieces on few qubits, each written again part by part.
    fn searched(qubits: usize) -> Manner {
        Manner {
            qubits,
            gates: SEARCHED_LARGE,
            reach: REACH,
            effort: Effort::FEW_TRIES,
        }
    }
}
