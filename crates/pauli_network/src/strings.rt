//! Strings of Pauli letters with a sign.

ghost use Rattle.std.specs.Prelude.{◌<◌};

use zx_gates::{Gate, Qubit};

/// The most qubits that a string may be on.
pub const MOST_QUBITS: Qubit = 64;

/// The bit of a qubit in a string.
pub fn bit(q: Qubit) -> u64 {
    1_u64.wrapping_shl(u32::from(q))
}

/// What a string has on a qubit: X, Z, both of them for Y, or none.
#[derive(Clone, Copy)]
pub struct Letter {
    /// Whether it is X or Y.
    pub x: bool,
    /// Whether it is Z or Y.
    pub z: bool,
}

impl Letter {
    /// The letter Z.
    pub const Z: Letter = Letter { x: false, z: true };

    /// No letter.
    pub const NONE: Letter = Letter { x: false, z: false };

    /// Its number, from 0 for none.
    pub fn number(self) -> usize
        ensures { result < 4 }
    {
        match (self.x, self.z) {
            (false, false) => 0,
            (true, false) => 1,
            (false, true) => 2,
            (true, true) => 3,
        }
    }

    /// Whether there is a letter.
    pub fn is_some(self) -> bool {
        self.x || self.z
    }

    /// Whether it is the letter Z.
    pub fn is_z(self) -> bool {
        self.z && !self.x
    }

    /// The product of two letters, without its factor.
    pub fn times(self, other: Letter) -> Letter {
        Letter {
            x: self.x != other.x,
            z: self.z != other.z,
        }
    }

    /// A letter that anticommutes with this one. The other such one is the product of both.
    pub fn another(self) -> Letter {
        if self.x && self.z {
            return Letter { x: true, z: false };
        }
        Letter {
            x: self.z,
            z: self.x,
        }
    }
}

/// A product of Pauli letters on different qubits, or the opposite of one.
#[derive(Clone, Copy)]
pub struct PauliString {
    // The qubits with X or Y.
    x: u64,
    // The qubits with Z or Y.
    z: u64,
    negative: bool,
}

impl PauliString {
    /// The string without letters.
    pub const NONE: PauliString = PauliString {
        x: 0,
        z: 0,
        negative: false,
    };

    /// The string that has X on a qubit.
    pub fn x_on(q: Qubit) -> PauliString {
        PauliString {
            x: bit(q),
            z: 0,
            negative: false,
        }
    }

    /// The string that has Z on a qubit.
    pub fn z_on(q: Qubit) -> PauliString {
        PauliString {
            x: 0,
            z: bit(q),
            negative: false,
        }
    }

    /// The qubits with X or Y, as bits.
    pub fn x_bits(&self) -> u64 {
        self.x
    }

    /// The qubits with Z or Y, as bits.
    pub fn z_bits(&self) -> u64 {
        self.z
    }

    /// Whether it is the opposite of a product of letters.
    pub fn is_negative(&self) -> bool {
        self.negative
    }

    /// How many letters there are.
    pub fn weight(&self) -> u32 {
        (self.x | self.z).count_ones()
    }

    /// The first qubit with a letter, as a number; 64 where there is none.
    pub fn first(&self) -> u32 {
        (self.x | self.z).trailing_zeros()
    }

    /// The letter on a qubit.
    pub fn at(&self, q: Qubit) -> Letter {
        Letter {
            x: self.x & bit(q) != 0,
            z: self.z & bit(q) != 0,
        }
    }

    /// Whether it has one letter at most.
    pub fn is_single(&self) -> bool {
        let on = self.x | self.z;
        on & on.wrapping_sub(1) == 0
    }

    /// Whether two strings anticommute.
    pub fn anticommutes(&self, other: &PauliString) -> bool {
        ((self.x & other.z) ^ (self.z & other.x)).count_ones() % 2 == 1
    }

    /// The opposite string.
    pub fn opposite(self) -> PauliString {
        PauliString {
            x: self.x,
            z: self.z,
            negative: !self.negative,
        }
    }

    /// The product with another string and with so many factors i, where that is a string.
    pub fn times(self, other: PauliString, factors: u32) -> PauliString {
        // X, Y, Z in a row give a factor i, and backwards its opposite.
        let forwards = (self.x & !self.z & other.x & other.z)
            | (self.x & self.z & !other.x & other.z)
            | (!self.x & self.z & other.x & !other.z);
        let backwards = (self.x & !self.z & !other.x & other.z)
            | (self.x & self.z & other.x & !other.z)
            | (!self.x & self.z & other.x & other.z);
        let turns = factors % 4 + forwards.count_ones() % 4 + 3 * (backwards.count_ones() % 4);
        PauliString {
            x: self.x ^ other.x,
            z: self.z ^ other.z,
            negative: (turns % 4 >= 2) != (self.negative != other.negative),
        }
    }

    /// What the string is behind a Clifford gate, where it is this one before it.
    pub fn pass(&mut self, gate: &Gate) {
        match *gate {
            Gate::H(q) => self.pass_h(q),
            Gate::Phase(q, phase) => self.pass_quarters(q, phase.get() / 4),
            Gate::Cz(p, q) => self.pass_cz(p, q),
            Gate::Cx { control, target } => {
                self.pass_h(target);
                self.pass_cz(control, target);
                self.pass_h(target);
            }
            Gate::Not(q) => {
                let there = self.z & bit(q);
                self.turn_where(there);
            }
        }
    }

    /// The same for an H: X and Z change places.
    #[inline(always)]
    pub fn pass_h(&mut self, q: Qubit) {
        let here = bit(q);
        let differs = (self.x ^ self.z) & here;
        self.negative = self.negative != (self.x & self.z & here != 0);
        self.x ^= differs;
        self.z ^= differs;
    }

    // So many quarter turns about Z.
    fn pass_quarters(&mut self, q: Qubit, quarters: u8) {
        let (x, z) = (self.x & bit(q), self.z & bit(q));
        match quarters {
            1 => self.turn_where(x & z),
            2 => self.turn_where(x),
            3 => self.turn_where(x & !z),
            _ => {}
        }
        if quarters % 2 == 1 {
            self.z ^= x;
        }
    }

    /// The same for a Cz: an X on either qubit brings a Z on the other one.
    #[inline(always)]
    pub fn pass_cz(&mut self, p: Qubit, q: Qubit) {
        let (to_p, to_q) = (u32::from(p), u32::from(q));
        let x_at_p = self.x.wrapping_shr(to_p) & 1;
        let x_at_q = self.x.wrapping_shr(to_q) & 1;
        let differ = (self.z.wrapping_shr(to_p) ^ self.z.wrapping_shr(to_q)) & 1;
        self.negative = self.negative != (x_at_p & x_at_q & differ != 0);
        self.z ^= x_at_p.wrapping_shl(to_q) ^ x_at_q.wrapping_shl(to_p);
    }

    // The sign changes where there is one of the bits.
    fn turn_where(&mut self, bits: u64) {
        if bits != 0 {
            self.negative = !self.negative;
        }
    }
}
