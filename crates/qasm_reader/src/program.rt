//! Programs as lists of statements and gates. Names, numbers and texts are slices of the source.

use crate::expression::Expression;

/// A program.
#[derive(Drop)]
pub struct Program<'a> {
    /// Its statements and the gates that it declares, in order.
    pub elements: Vec<ProgramElement<'a>>,
}

/// A statement of a program, or a gate that it declares.
#[derive(Drop)]
pub enum ProgramElement<'a> {
    /// A statement.
    Statement(Statement<'a>),
    /// A gate's whole declaration.
    Gate {
        /// The place of its first byte in the text.
        place: usize,
        /// What it says.
        declaration: GateDeclaration<'a>,
    },
}

/// A statement that isn't a gate's declaration, and where it begins.
#[derive(Drop)]
pub struct Statement<'a> {
    /// The place of its first byte in the text.
    pub place: usize,
    /// What it says.
    pub kind: StatementKind<'a>,
}

/// What a statement says.
#[derive(Drop)]
pub enum StatementKind<'a> {
    /// `OPENQASM real;`
    Version(&'a [u8]),
    /// `include "text";`, the text with its quotes.
    Include(&'a [u8]),
    /// `qreg name[size];`
    QubitRegister {
        /// The register's name.
        name: &'a [u8],
        /// Its size, a whole number as it is spelled.
        size: &'a [u8],
    },
    /// `creg name[size];`
    BitRegister {
        /// The register's name.
        name: &'a [u8],
        /// Its size, a whole number as it is spelled.
        size: &'a [u8],
    },
    /// `opaque name(parameters) qubits;`
    Opaque(GateHeading<'a>),
    /// `if (register == value) operation`
    If {
        /// The register's name.
        register: &'a [u8],
        /// The value, a whole number as it is spelled.
        value: &'a [u8],
        /// What is done where the register has that value.
        operation: Operation<'a>,
    },
    /// `barrier arguments;`
    Barrier(Vec<Argument<'a>>),
    /// An operation on qubits.
    Operation(Operation<'a>),
}

/// `gate name(parameters) qubits { body }`
#[derive(Drop)]
pub struct GateDeclaration<'a> {
    /// What stands before its body.
    pub heading: GateHeading<'a>,
    /// Its body.
    pub body: Vec<BodyStatement<'a>>,
}

/// What the declaration of a gate says before its body. An opaque gate has no more.
#[derive(Drop)]
pub struct GateHeading<'a> {
    /// Its name.
    pub name: &'a [u8],
    /// The names of its parameters.
    pub parameters: Vec<&'a [u8]>,
    /// The names of its qubits.
    pub qubits: Vec<&'a [u8]>,
}

/// The name of a gate that is applied.
#[derive(Clone, Copy, Debug)]
pub enum GateName<'a> {
    /// A declared gate.
    Declared(&'a [u8]),
    /// The built-in gate `U`.
    U,
    /// The built-in gate `CX`.
    Cx,
}

/// A register, or one element of it.
#[derive(Clone, Copy, Debug)]
pub struct Argument<'a> {
    /// The register's name.
    pub register: &'a [u8],
    /// The element's index, a whole number as it is spelled, or none for the whole register.
    pub index: Option<&'a [u8]>,
}

/// An application of a gate.
#[derive(Drop)]
pub struct Application<'a> {
    /// The gate.
    pub gate: GateName<'a>,
    /// Its angles.
    pub angles: Vec<Expression<'a>>,
    /// Its qubits.
    pub qubits: Vec<Argument<'a>>,
}

/// An operation on qubits.
#[derive(Drop)]
pub enum Operation<'a> {
    /// `gate(angles) qubits;`
    Apply(Application<'a>),
    /// `measure from -> to;`
    Measure {
        /// What is measured.
        from: Argument<'a>,
        /// Where the result goes.
        to: Argument<'a>,
    },
    /// `reset argument;`
    Reset(Argument<'a>),
}

/// An application of a gate in the body of another.
#[derive(Drop)]
pub struct BodyApplication<'a> {
    /// The gate.
    pub gate: GateName<'a>,
    /// Its angles.
    pub angles: Vec<Expression<'a>>,
    /// The names of its qubits.
    pub qubits: Vec<&'a [u8]>,
}

/// A statement of a gate's body.
#[derive(Drop)]
pub enum BodyStatement<'a> {
    /// `gate(angles) qubits;`
    Apply(BodyApplication<'a>),
    /// `barrier qubits;`
    Barrier(Vec<&'a [u8]>),
}
