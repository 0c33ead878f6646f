//! Phase gadgets on outputs.

ghost use Rattle.std.specs.Prelude.{◌≡◌, ◌≢◌, ◌<◌, ℕ, ◌++◌, length, IfOk, OnOk};
ghost use Rattle.circuit_laws.specs.Gates.{gadget_on, gadget_gates, linked_gadget_gates};
ghost use Rattle.zx_extract.specs.Internal.Frontiers.{remainder_of};

use crate::frontier::Frontier;
use std::alloc::AllocError;
use zx_gates::{Gate, Qubit};
use zx_model::Sixteenth;

impl Frontier {
    // Writes a phase on the target, to which the bits of others are added before, and taken off
    // again.
    fn write_gadget_on(
        &mut self,
        phase: Sixteenth,
        target: Qubit,
        others: &[Qubit],
    ) -> Result<(), AllocError>
        ensures { OnOk result (remainder_of self.new ≡ record (remainder_of self.old) {
          gates = gadget_on phase target others.now ++ (remainder_of self.old).gates;
        }) }
    {
        match others {
            [] => self.write_phase(target, phase),
            [control, rest @ ..] => {
                self.write_cx(*control, target)?;
                self.write_gadget_on(phase, target, rest)?;
                self.write_cx(*control, target)
            }
        }
    }

    // Writes a phase gadget.
    pub(crate) fn write_gadget(
        &mut self,
        phase: Sixteenth,
        qubits: &[Qubit],
    ) -> Result<(), AllocError>
        ensures { OnOk result (remainder_of self.new ≡ record (remainder_of self.old) {
          gates = gadget_gates phase qubits.now ++ (remainder_of self.old).gates;
        }) }
    {
        match qubits {
            [] => Ok(()),
            [target, others @ ..] => self.write_gadget_on(phase, *target, others),
        }
    }

    // Writes a phase gadget whose first qubit is turned by H before and after.
    pub(crate) fn write_linked_gadget(
        &mut self,
        phase: Sixteenth,
        link: Qubit,
        others: &[Qubit],
    ) -> Result<(), AllocError>
        ensures { OnOk result (remainder_of self.new ≡ record (remainder_of self.old) {
          gates = linked_gadget_gates phase link others.now ++ (remainder_of self.old).gates;
        }) }
    {
        self.write(Gate::H(link))?;
        self.write_gadget_on(phase, link, others)?;
        self.write(Gate::H(link))
    }
}
