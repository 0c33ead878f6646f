//! Which gate on two qubits makes strings shorter.

ghost use Rattle.std.specs.Prelude.{◌<◌};

use crate::noise::Noise;
use crate::strings::{Letter, PauliString, bit};
use zx_gates::Qubit;

/// What it is worth that a string of two letters gets one of them alone.
pub(crate) const UNIT: u64 = 1 << 40;

// The score of a gate that changes no string's length.
const NO_CHANGE: u64 = 1 << 60;

/// A string in the score.
#[derive(Clone, Copy)]
pub(crate) struct Row {
    x: u64,
    z: u64,
    // What it is worth that it gets a letter less.
    fall: u64,
    // What it costs that it gets a letter more.
    rise: u64,
}

/// The row of a string that is worth so much. A letter counts half as much for each letter more.
pub(crate) fn row_of(string: &PauliString, worth: u64) -> Row {
    let weight = string.weight();
    Row {
        x: string.x_bits(),
        z: string.z_bits(),
        fall: worth.wrapping_shr(weight.saturating_sub(2)),
        rise: worth.wrapping_shr(weight.saturating_sub(1)),
    }
}

/// The gate that is controlled by a letter on each of two qubits: it changes the sign of what is
/// negated by both letters.
#[derive(Clone, Copy)]
pub(crate) struct Controlled {
    /// The first qubit.
    pub(crate) first: Qubit,
    /// The letter on it.
    pub(crate) on_first: Letter,
    /// The second qubit.
    pub(crate) second: Qubit,
    /// The letter on it.
    pub(crate) on_second: Letter,
}

/// What a gate has to leave alone.
#[derive(Clone, Copy)]
pub(crate) enum Kept {
    /// Nothing.
    Nothing,
    /// The string's letter on a qubit.
    LetterOn(Qubit),
    /// Any Z on a qubit.
    ZOn(Qubit),
}

impl Kept {
    // Whether a gate that takes the string's letter from a qubit may be written.
    fn allows(self, gate: &Controlled, from: Qubit) -> bool {
        match self {
            Kept::Nothing => true,
            Kept::LetterOn(q) => from != q,
            Kept::ZOn(q) => {
                (gate.first != q || gate.on_first.is_z())
                    && (gate.second != q || gate.on_second.is_z())
            }
        }
    }
}

/// The best gate that takes a letter from a string of two or more, with noise on the scores.
pub(crate) fn best(
    rows: &[Row],
    qubits: Qubit,
    string: &PauliString,
    kept: Kept,
    noise: Noise,
) -> Option<Controlled> {
    let mut choice = Choice::new(noise);
    for second in 0..qubits {
        if string.at(second).is_some() {
            for first in 0..second {
                if string.at(first).is_some() {
                    choice.look_at(rows, string, kept, first, second);
                }
            }
        }
    }
    choice.gate
}

/// The best gate that brings a letter to a qubit, beside the one that a string has alone.
pub(crate) fn best_towards(rows: &[Row], string: &PauliString, q: Qubit) -> Option<Controlled> {
    let from = u16::try_from(string.first()).ok()?;
    let tally = Tally::of(rows, from, q);
    let here = string.at(from).another();
    let mut choice = Choice::new(Noise::none());
    for on_first in [here, here.times(string.at(from))] {
        for on_second in [Letter::Z, Letter::Z.another(), Letter { x: true, z: true }] {
            choice.offer(
                &tally,
                Controlled {
                    first: from,
                    on_first,
                    second: q,
                    on_second,
                },
            );
        }
    }
    choice.gate
}

// The best gate so far.
#[derive(Drop)]
struct Choice {
    gate: Option<Controlled>,
    score: u64,
    noise: Noise,
}

impl Choice {
    fn new(noise: Noise) -> Choice {
        Choice {
            gate: None,
            score: 0,
            noise,
        }
    }

    // Looks at the gates on two qubits that take one of the string's letters on them.
    fn look_at(
        &mut self,
        rows: &[Row],
        string: &PauliString,
        kept: Kept,
        first: Qubit,
        second: Qubit,
    ) {
        let tally = Tally::of(rows, first, second);
        let (p, q) = (string.at(first), string.at(second));
        let (r, s) = (p.another(), q.another());
        for on_first in [r, r.times(p)] {
            let gate = Controlled {
                first,
                on_first,
                second,
                on_second: q,
            };
            if kept.allows(&gate, second) {
                self.offer(&tally, gate);
            }
        }
        for on_second in [s, s.times(q)] {
            let gate = Controlled {
                first,
                on_first: p,
                second,
                on_second,
            };
            if kept.allows(&gate, first) {
                self.offer(&tally, gate);
            }
        }
    }

    // Takes a gate that is better than all before.
    fn offer(&mut self, tally: &Tally, gate: Controlled) {
        let score = tally.score(&gate).wrapping_add(self.noise.next());
        if self.gate.is_none() || score > self.score {
            self.gate = Some(gate);
            self.score = score;
        }
    }
}

// What rows are worth, by their letters on two qubits.
#[derive(Drop)]
struct Tally {
    falls: [u64; 16],
    rises: [u64; 16],
}

impl Tally {
    fn of(rows: &[Row], first: Qubit, second: Qubit) -> Tally {
        let (p, q) = (bit(first), bit(second));
        let mut falls = [0_u64; 16];
        let mut rises = [0_u64; 16];
        for row in rows {
            let on_first = Letter {
                x: row.x & p != 0,
                z: row.z & p != 0,
            };
            let on_second = Letter {
                x: row.x & q != 0,
                z: row.z & q != 0,
            };
            let class = class_of(on_first, on_second);
            falls[class] = falls[class].wrapping_add(row.fall);
            rises[class] = rises[class].wrapping_add(row.rise);
        }
        Tally { falls, rises }
    }

    // More than `NO_CHANGE` where a gate gains, and less where it loses. A letter falls away or comes where
    // one of the gate's letters anticommutes with what is there, and the other doesn't.
    fn score(&self, gate: &Controlled) -> u64 {
        let (p, q) = (gate.on_first, gate.on_second);
        let mut score = NO_CHANGE;
        for other in [p.another(), p.another().times(p)] {
            score = score
                .wrapping_add(self.falls[class_of(other, q)])
                .wrapping_sub(self.rises[class_of(other, Letter::NONE)]);
        }
        for other in [q.another(), q.another().times(q)] {
            score = score
                .wrapping_add(self.falls[class_of(p, other)])
                .wrapping_sub(self.rises[class_of(Letter::NONE, other)]);
        }
        score
    }
}

// The number of a pair of letters.
fn class_of(p: Letter, q: Letter) -> usize
    ensures { result < 16 }
{
    p.number() + 4 * q.number()
}
