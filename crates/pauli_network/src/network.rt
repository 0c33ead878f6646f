//! Circuits written again, phase by phase.

use crate::frame::Frame;
use crate::noise::Noise;
use crate::scores::{Controlled, Kept, Row, UNIT, best, best_towards, row_of};
use crate::strings::{Letter, PauliString, bit};
use std::alloc::{AllocError, Global};
use zx_gates::{Gate, Qubit};
use zx_model::Sixteenth;

// How many phases are looked at at a time.
const WINDOW: usize = 256;

// How much a string of the frame is worth.
const FRAME_WORTH: u64 = UNIT / 8;

/// How much work may be done for a circuit.
#[derive(Clone, Copy)]
pub(crate) struct Limits {
    /// The most gates on two qubits that are written.
    pub(crate) two_qubit: usize,
    /// The most looks at a string on two of its qubits.
    pub(crate) looks: u64,
}

// A phase about a Pauli string.
#[derive(Drop)]
struct Rotation {
    string: PauliString,
    phase: Sixteenth,
    // How many strings before it anticommute with it.
    blockers: usize,
}

/// What is to be written yet: phases about Pauli strings, one after the other, then a Clifford map. The memory is used
/// again for each list of gates.
#[derive(Drop)]
pub(crate) struct Network {
    qubits: Qubit,
    pending: Vec<Rotation>,
    frame: Frame,
    made: Vec<Gate>,
    // The rows of the score.
    rows: Vec<Row>,
    limits: Limits,
    noise: Noise,
}

impl Network {
    /// Nothing is to be written.
    pub(crate) fn new(alloc: Global) -> Network {
        Network {
            qubits: 0,
            pending: Vec::new(alloc),
            frame: Frame::new(alloc),
            made: Vec::new(alloc),
            rows: Vec::new(alloc),
            limits: Limits {
                two_qubit: 0,
                looks: 0,
            },
            noise: Noise::none(),
        }
    }

    /// What was written last.
    pub(crate) fn made(&self) -> &[Gate] {
        &self.made
    }

    /// Writes gates again with noise on the scores, and answers whether no limit was met.
    ///
    /// # Errors
    ///
    /// Only where memory runs out.
    pub(crate) fn rewrite(
        &mut self,
        qubits: Qubit,
        gates: &[Gate],
        limits: Limits,
        noise: Noise,
    ) -> Result<bool, AllocError> {
        self.qubits = qubits;
        self.pending.clear();
        self.frame.begin(qubits)?;
        self.made.clear();
        self.limits = limits;
        self.noise = noise;
        let mut next = 0;
        // Each time a gate is written, or more are read.
        for _ in 0..gates.len().saturating_add(limits.two_qubit) {
            next = self.read(gates, next)?;
            self.write_single()?;
            match self.shortest() {
                Some(string) => self.shorten(&string)?,
                None if next < gates.len() => {}
                None => {
                    self.write_frame()?;
                    return Ok(!self.is_at_limit());
                }
            }
            if self.is_at_limit() {
                return Ok(false);
            }
        }
        Ok(false)
    }

    fn is_at_limit(&self) -> bool {
        self.limits.two_qubit == 0 || self.limits.looks == 0
    }

    // Reads gates from a place on, while there is room for phases. The place behind them.
    fn read(&mut self, gates: &[Gate], from: usize) -> Result<usize, AllocError> {
        for next in from..gates.len() {
            if self.pending.len() >= WINDOW {
                return Ok(next);
            }
            self.read_gate(&gates[next])?;
        }
        Ok(gates.len())
    }

    fn read_gate(&mut self, gate: &Gate) -> Result<(), AllocError> {
        if let Gate::Phase(q, phase) = *gate {
            if phase.is_odd() {
                return self.read_phase(q, phase);
            }
        }
        self.frame.read(gate);
        Ok(())
    }

    fn read_phase(&mut self, q: Qubit, phase: Sixteenth) -> Result<(), AllocError> {
        let string = self.frame.z(q);
        let mut blockers = 0_usize;
        for rotation in &self.pending {
            if rotation.string.anticommutes(&string) {
                blockers = blockers.wrapping_add(1);
            }
        }
        self.pending.push(Rotation {
            string,
            phase,
            blockers,
        })?;
        Ok(())
    }

    // Writes a Clifford gate.
    fn write(&mut self, gate: Gate) -> Result<(), AllocError> {
        match gate {
            Gate::Cz(p, q) => self.pass_cz(p, q),
            Gate::H(q) => self.pass_h(q),
            _ => self.pass_other(&gate),
        }
        self.made.push(gate)?;
        Ok(())
    }

    // All that is to be written is behind a Cz.
    fn pass_cz(&mut self, p: Qubit, q: Qubit) {
        for rotation in &mut self.pending {
            rotation.string.pass_cz(p, q);
        }
        self.frame.pass_cz(p, q);
    }

    // The same for an H.
    fn pass_h(&mut self, q: Qubit) {
        for rotation in &mut self.pending {
            rotation.string.pass_h(q);
        }
        self.frame.pass_h(q);
    }

    // The same for any gate.
    fn pass_other(&mut self, gate: &Gate) {
        for rotation in &mut self.pending {
            rotation.string.pass(gate);
        }
        self.frame.pass(gate);
    }

    // Writes each phase about a string of one letter that nothing blocks.
    fn write_single(&mut self) -> Result<(), AllocError> {
        for _ in 0..self.pending.len() {
            match self.first_single() {
                Some(place) => self.write_phase(place)?,
                None => return Ok(()),
            }
        }
        Ok(())
    }

    // The place of the first phase that can be written.
    fn first_single(&self) -> Option<usize> {
        self.pending.iter().position(|rotation| rotation.blockers == 0
            && rotation.string.is_single())
    }

    // Writes the phase at a place, whose string is one letter.
    fn write_phase(&mut self, place: usize) -> Result<(), AllocError> {
        let Some(rotation) = self.pending.get(place) else {
            return Ok(());
        };
        let string = rotation.string;
        let Ok(q) = u16::try_from(string.first()) else {
            return Ok(());
        };
        self.turn_to_z(q, string.at(q))?;
        self.take_phase(q, place)
    }

    // Writes the phase at a place, whose string is Z on a qubit or its opposite.
    fn take_phase(&mut self, q: Qubit, place: usize) -> Result<(), AllocError> {
        if place >= self.pending.len() {
            return Ok(());
        }
        let rotation = self.pending.remove(place);
        for number in place..self.pending.len() {
            if let Some(later) = self.pending.get_mut(number) {
                if later.string.anticommutes(&rotation.string) {
                    later.blockers = later.blockers.saturating_sub(1);
                }
            }
        }
        let phase = if rotation.string.is_negative() {
            rotation.phase.neg()
        } else {
            rotation.phase
        };
        self.made.push(Gate::Phase(q, phase))?;
        Ok(())
    }

    // Writes what makes a letter on a qubit Z.
    fn turn_to_z(&mut self, q: Qubit, letter: Letter) -> Result<(), AllocError> {
        if letter.x {
            if letter.z {
                self.write(Gate::Phase(q, Sixteenth::quarter_turn().neg()))?;
            }
            self.write(Gate::H(q))?;
        }
        Ok(())
    }

    // Writes a gate that is controlled by letters, up to gates on one qubit behind it.
    fn write_controlled(&mut self, gate: &Controlled) -> Result<(), AllocError> {
        self.turn_to_z(gate.first, gate.on_first)?;
        self.turn_to_z(gate.second, gate.on_second)?;
        self.limits.two_qubit = self.limits.two_qubit.saturating_sub(1);
        self.write(Gate::Cz(gate.first, gate.second))
    }

    // The first of the shortest strings that nothing blocks.
    fn shortest(&self) -> Option<PauliString> {
        let mut found: Option<PauliString> = None;
        let mut least = u32::MAX;
        for rotation in &self.pending {
            if rotation.blockers > 0 {
                continue;
            }
            let weight = rotation.string.weight();
            if weight < least {
                found = Some(rotation.string);
                least = weight;
            }
        }
        found
    }

    // Writes the gate that takes a letter from a string and has the best score.
    fn shorten(&mut self, string: &PauliString) -> Result<(), AllocError> {
        self.fill_rows()?;
        self.look(string);
        match best(
            &self.rows,
            self.qubits,
            string,
            Kept::Nothing,
            self.noise.for_choice(),
        ) {
            Some(gate) => self.write_controlled(&gate),
            None => Ok(()),
        }
    }

    // The rows of all that is to be written.
    fn fill_rows(&mut self) -> Result<(), AllocError> {
        self.rows.clear();
        for rotation in &self.pending {
            let worth = match u64::try_from(rotation.blockers) {
                Ok(0) => UNIT,
                Ok(blockers) => UNIT / 2 / blockers.saturating_add(1),
                Err(_) => 0,
            };
            self.rows.push(row_of(&rotation.string, worth))?;
        }
        self.add_frame_rows(FRAME_WORTH)
    }

    fn add_frame_rows(&mut self, worth: u64) -> Result<(), AllocError> {
        for string in self.frame.zs() {
            self.rows.push(row_of(string, worth))?;
        }
        for string in self.frame.xs() {
            self.rows.push(row_of(string, worth))?;
        }
        Ok(())
    }

    // Counts the looks at the rows, on each two qubits of a string.
    fn look(&mut self, string: &PauliString) {
        let weight = u64::from(string.weight());
        let rows = u64::try_from(self.rows.len()).unwrap_or(u64::MAX);
        let looks = rows.saturating_mul(weight.saturating_mul(weight) / 2);
        self.limits.looks = self.limits.looks.saturating_sub(looks);
    }

    // Writes the Clifford map.
    fn write_frame(&mut self) -> Result<(), AllocError> {
        let mut done = 0_u64;
        for _ in 0..self.qubits {
            if let Some(q) = self.lightest(done) {
                self.settle_z(q)?;
                self.settle_x(q)?;
                self.settle_signs(q)?;
                done |= bit(q);
            }
        }
        Ok(())
    }

    // The qubit, of those that aren't done, of which the map makes the shortest strings.
    fn lightest(&self, done: u64) -> Option<Qubit> {
        let mut found: Option<Qubit> = None;
        let mut least = u32::MAX;
        for q in 0..self.qubits {
            let weight = self
                .frame
                .x(q)
                .weight()
                .saturating_add(self.frame.z(q).weight());
            if done & bit(q) == 0 && weight < least {
                found = Some(q);
                least = weight;
            }
        }
        found
    }

    // Writes gates until the Z of a qubit stays itself, up to its sign.
    fn settle_z(&mut self, q: Qubit) -> Result<(), AllocError> {
        // A string has a letter less each time, but for once that it gets one on the qubit.
        for _ in 0..self.qubits.saturating_add(2) {
            let string = self.frame.z(q);
            let here = string.at(q);
            if string.weight() <= 1 && here.is_some() {
                return self.turn_to_z(q, here);
            }
            self.shorten_frame(&string, q)?;
            if self.is_at_limit() {
                return Ok(());
            }
        }
        Ok(())
    }

    // Writes a gate that takes a letter from the string of the Z of a qubit, but not that on the qubit itself;
    // or brings one there.
    fn shorten_frame(&mut self, string: &PauliString, q: Qubit) -> Result<(), AllocError> {
        self.rows.clear();
        self.add_frame_rows(UNIT)?;
        self.look(string);
        let gate = if string.weight() <= 1 {
            best_towards(&self.rows, string, q)
        } else {
            best(
                &self.rows,
                self.qubits,
                string,
                Kept::LetterOn(q),
                self.noise.for_choice(),
            )
        };
        match gate {
            Some(gate) => self.write_controlled(&gate),
            None => Ok(()),
        }
    }

    // Writes gates until the X of a qubit stays itself, up to its sign, where its Z does so.
    fn settle_x(&mut self, q: Qubit) -> Result<(), AllocError> {
        for _ in 0..self.qubits {
            let string = self.frame.x(q);
            if string.weight() <= 1 || self.is_at_limit() {
                break;
            }
            self.rows.clear();
            self.add_frame_rows(UNIT)?;
            self.look(&string);
            let noise = self.noise.for_choice();
            if let Some(gate) = best(&self.rows, self.qubits, &string, Kept::ZOn(q), noise) {
                self.write_controlled(&gate)?;
            }
        }
        if self.frame.x(q).at(q).z {
            self.write(Gate::Phase(q, Sixteenth::quarter_turn()))?;
        }
        Ok(())
    }

    // Writes what mends the signs of the Z and the X of a qubit.
    fn settle_signs(&mut self, q: Qubit) -> Result<(), AllocError> {
        if self.frame.z(q).is_negative() {
            self.write(Gate::Not(q))?;
        }
        if self.frame.x(q).is_negative() {
            self.write(Gate::Phase(q, Sixteenth::half_turn()))?;
        }
        Ok(())
    }
}
