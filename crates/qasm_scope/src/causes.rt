//! What is wrong with statements.

/// What is wrong with a statement. Of several causes in one statement the first in this order is told, but that
/// those from `Divide` to `TooManyGates` are looked for last, along the calls in the order in which they are made.
#[derive(Clone, Copy, Debug, PartialEq, Eq)]
pub enum Cause {
    /// The program doesn't begin with `OPENQASM 2.0;`.
    Version,
    /// A file other than `qelib1.inc` is included.
    Include,
    /// `reset`, `if`, `opaque`, or an expression with `^` or a function.
    Unsupported,
    /// A name is declared again, a first name of the header is declared where the header is included, or two formal
    /// names of a gate are equal.
    Redeclared,
    /// A register has the size 0.
    EmptyRegister,
    /// With this register there are more than 1,024 qubits.
    TooManyQubits,
    /// A name isn't declared as what is needed there.
    Unknown,
    /// Angles or qubits differ in number from the gate's declaration.
    WrongCount,
    /// An index isn't below its register's size.
    Index,
    /// Registers of different size stand in one application or measurement, or a register and a single qubit or bit in
    /// one measurement.
    Sizes,
    /// One qubit stands twice in one application.
    SameQubit,
    /// An application or a measurement names a qubit that was measured before.
    AfterMeasure,
    /// A measurement names a bit that an earlier one names.
    BitTwice,
    /// With this register there are more than 65,536 bits.
    TooManyBits,
    /// A divisor is 0.
    Divide,
    /// A number has more than 38 digits from its first to its last that isn't 0, or a part of a fraction is above
    /// 2^60.
    AngleTooLarge,
    /// An angle of `U` isn't a whole number of sixteenth turns, two values with pi are multiplied, or a
    /// divisor has pi.
    NotSixteenthTurn,
    /// A call is nested deeper than 256.
    TooDeep,
    /// A call is the 1,000,001st.
    TooManyGates,
    /// The version stands again.
    SecondVersion,
}
