//! What is wrong with gates' bodies.

ghost use Rattle.std.specs.Prelude.{◌≡◌};
ghost use Rattle.qasm_names.specs.Bodies.{no_faults, is_faulty, joined, cause_of};

use qasm_scope::Cause;

/// Which faults the statements of a body have.
#[derive(Clone, Copy, Debug, PartialEq, Eq)]
pub struct BodyFaults {
    /// An expression holds `^` or a function.
    pub unsupported: bool,
    /// A name isn't known, or isn't what is needed there.
    pub unknown: bool,
    /// Angles or qubits differ in number from a gate's declaration.
    pub wrong_count: bool,
    /// A qubit stands twice in one application.
    pub same_qubit: bool,
}

impl BodyFaults {
    /// No faults.
    pub fn none() -> BodyFaults
        ensures { result ≡ no_faults }
    {
        BodyFaults {
            unsupported: false,
            unknown: false,
            wrong_count: false,
            same_qubit: false,
        }
    }

    /// Whether there is a fault.
    pub fn any(self) -> bool
        ensures { result ≡ is_faulty self }
    {
        self.unsupported || self.unknown || self.wrong_count || self.same_qubit
    }

    /// These faults and those of further statements.
    pub fn and(self, further: BodyFaults) -> BodyFaults
        ensures { result ≡ joined self further }
    {
        BodyFaults {
            unsupported: self.unsupported || further.unsupported,
            unknown: self.unknown || further.unknown,
            wrong_count: self.wrong_count || further.wrong_count,
            same_qubit: self.same_qubit || further.same_qubit,
        }
    }

    /// The first cause of a declaration with these faults in its body.
    pub fn cause(self, redeclared: bool) -> Option<Cause>
        ensures { result ≡ cause_of self redeclared }
    {
        if self.unsupported {
            Some(Cause::Unsupported)
        } else if redeclared {
            Some(Cause::Redeclared)
        } else if self.unknown {
            Some(Cause::Unknown)
        } else if self.wrong_count {
            Some(Cause::WrongCount)
        } else if self.same_qubit {
            Some(Cause::SameQubit)
        } else {
            None
        }
    }
}
