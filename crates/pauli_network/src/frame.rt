//! Clifford maps, by what they make of Pauli letters.

use crate::strings::PauliString;
use std::alloc::{AllocError, Global};
use zx_gates::{Gate, Qubit};

/// What X and Z of each qubit behind Clifford gates are before them.
#[derive(Drop)]
pub struct Frame {
    xs: Vec<PauliString>,
    zs: Vec<PauliString>,
}

impl Frame {
    /// The frame of no qubits.
    pub fn new(alloc: Global) -> Frame {
        Frame {
            xs: Vec::new(alloc),
            zs: Vec::new(alloc),
        }
    }

    /// The frame of no gates from now on.
    pub fn begin(&mut self, qubits: Qubit) -> Result<(), AllocError> {
        self.xs.clear();
        self.zs.clear();
        for q in 0..qubits {
            self.xs.push(PauliString::x_on(q))?;
            self.zs.push(PauliString::z_on(q))?;
        }
        Ok(())
    }

    /// The strings of all X.
    pub fn xs(&self) -> &[PauliString] {
        &self.xs
    }

    /// The strings of all Z.
    pub fn zs(&self) -> &[PauliString] {
        &self.zs
    }

    /// The string of the X of a qubit.
    pub fn x(&self, q: Qubit) -> PauliString {
        row(&self.xs, q)
    }

    /// The string of the Z of a qubit.
    pub fn z(&self, q: Qubit) -> PauliString {
        row(&self.zs, q)
    }

    /// A Clifford gate more, behind the others.
    pub fn read(&mut self, gate: &Gate) {
        match *gate {
            Gate::H(q) => {
                let (x, z) = (self.x(q), self.z(q));
                set_row(&mut self.xs, q, z);
                set_row(&mut self.zs, q, x);
            }
            Gate::Phase(q, phase) => self.read_quarters(q, phase.get() / 4),
            Gate::Cz(p, q) => {
                let (at_p, at_q) = (self.x(p).times(self.z(q), 0), self.x(q).times(self.z(p), 0));
                set_row(&mut self.xs, p, at_p);
                set_row(&mut self.xs, q, at_q);
            }
            Gate::Cx { control, target } => {
                let x = self.x(control).times(self.x(target), 0);
                let z = self.z(target).times(self.z(control), 0);
                set_row(&mut self.xs, control, x);
                set_row(&mut self.zs, target, z);
            }
            Gate::Not(q) => {
                let z = self.z(q).opposite();
                set_row(&mut self.zs, q, z);
            }
        }
    }

    // So many quarter turns about Z more.
    fn read_quarters(&mut self, q: Qubit, quarters: u8) {
        let (x, z) = (self.x(q), self.z(q));
        let turned = match quarters {
            1 => x.times(z, 3),
            2 => x.opposite(),
            3 => x.times(z, 1),
            _ => x,
        };
        set_row(&mut self.xs, q, turned);
    }

    /// A Cz is taken off the front.
    pub fn pass_cz(&mut self, p: Qubit, q: Qubit) {
        for string in &mut self.xs {
            string.pass_cz(p, q);
        }
        for string in &mut self.zs {
            string.pass_cz(p, q);
        }
    }

    /// An H is taken off the front.
    pub fn pass_h(&mut self, q: Qubit) {
        for string in &mut self.xs {
            string.pass_h(q);
        }
        for string in &mut self.zs {
            string.pass_h(q);
        }
    }

    /// Any Clifford gate is taken off the front.
    pub fn pass(&mut self, gate: &Gate) {
        for string in &mut self.xs {
            string.pass(gate);
        }
        for string in &mut self.zs {
            string.pass(gate);
        }
    }
}

fn row(rows: &[PauliString], q: Qubit) -> PauliString {
    rows.get(usize::from(q))
        .copied()
        .unwrap_or(PauliString::NONE)
}

fn set_row(rows: &mut [PauliString], q: Qubit, string: PauliString) {
    if let Some(row) = rows.get_mut(usize::from(q)) {
        *row = string;
    }
}
