//! Phases, counted in sixteenth turns.

ghost use Rattle.std.specs.Prelude.{◌≡◌, ◌<◌, ◌↔◌, IsTrue};
ghost use Rattle.zx_model.specs.Phase.{turn, half_turn, quarter_turn, eighth_turn, sum_of_phases, opposite_phase, IsOdd, is_half_turns, is_quarter_turn};

use std::marker::Model;

/// A phase: a whole number of sixteenth turns, from 0 to 15. One sixteenth turn is the phase of the
/// square root of a T gate, two that of a T gate.
#[derive(Clone, Copy, Debug, PartialEq, Eq)]
pub struct Sixteenth {
    turns: u8,
}

impl Model for Sixteenth {
    ghost use Rattle.std.specs.Prelude.{ℕ, ◌<◌};
    ghost use Rattle.zx_model.specs.Phase.{turn};

    ghost Value = { ℕ };

    ghost view = { λ e. e.turns };

    ghost invariant = { λ e. e.turns < turn };

    ghost inverse = { λ k. record { turns = k } };
}

impl Sixteenth {
    /// The phase of `k` sixteenth turns.
    pub fn new(k: u8) -> Sixteenth
        requires { k < turn }
        ensures { result ≡ k }
    {
        Sixteenth { turns: k }
    }

    /// The phase of a Z gate.
    pub fn half_turn() -> Sixteenth
        ensures { result ≡ half_turn }
    {
        Sixteenth { turns: 8 }
    }

    /// The phase of an S gate.
    pub fn quarter_turn() -> Sixteenth
        ensures { result ≡ quarter_turn }
    {
        Sixteenth { turns: 4 }
    }

    /// The phase of a T gate.
    pub fn eighth_turn() -> Sixteenth
        ensures { result ≡ eighth_turn }
    {
        Sixteenth { turns: 2 }
    }

    /// The number of sixteenth turns.
    pub fn get(self) -> u8
        ensures value { result ≡ self }
        ensures below_a_turn { result < turn }
    {
        self.turns
    }

    /// The sum of two phases, modulo a whole turn.
    pub fn add(self, other: Sixteenth) -> Sixteenth
        ensures { result ≡ sum_of_phases self other }
    {
        Sixteenth {
            turns: (self.turns + other.turns) % 16,
        }
    }

    /// The phase that adds up to a whole turn with this one.
    pub fn neg(self) -> Sixteenth
        ensures { result ≡ opposite_phase self }
    {
        Sixteenth {
            turns: (16 - self.turns) % 16,
        }
    }

    /// Whether the phase is no whole number of quarter turns.
    pub fn is_odd(self) -> bool
        ensures { IsTrue result ↔ IsOdd self }
    {
        self.turns % 4 != 0
    }

    /// Whether the phase is 0 or half a turn: that of a Pauli gate.
    pub fn is_half_turns(self) -> bool
        ensures { result ≡ is_half_turns self }
    {
        self.turns == 0 || self.turns == 8
    }

    /// Whether the phase is a quarter turn or three: that of a Clifford gate that is no Pauli gate.
    pub fn is_quarter_turn(self) -> bool
        ensures { result ≡ is_quarter_turn self }
    {
        self.turns == 4 || self.turns == 12
    }
}
