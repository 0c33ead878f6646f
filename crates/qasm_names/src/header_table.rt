//! The gates of the header as a table: what its texts declare.

ghost use Rattle.std.specs.Prelude.{◌≡◌, map};
ghost use Rattle.qasm_scope.specs.HeaderGates.{first_gates, further_gates};
ghost use Rattle.qasm_scope.specs.Meaning.{with_first};
ghost use Rattle.qasm_scope.specs.Scope.{Scope};
ghost use Rattle.qasm_names.specs.Internal.HeaderTable.{AreFirstRows, AreFurtherRows};
ghost use Rattle.qasm_names.specs.Kept.{gate_count};

/// A gate of the header.
#[derive(Debug)]
pub(crate) struct HeaderGate {
    /// Its name.
    pub name: &'static [u8],
    /// How many angles it has.
    pub angles: usize,
    /// How many qubits it has.
    pub qubits: usize,
    /// The calls in its body.
    pub calls: &'static [HeaderCall],
}

/// A call in the body of such a gate: the gate that is called, its angles, and the places of its qubits among those of
/// the gate whose body this is.
pub(crate) type HeaderCall = (HeaderCalled, &'static [HeaderAngle], &'static [usize]);

/// The gate that such a call calls.
#[derive(Clone, Copy, Debug)]
pub(crate) enum HeaderCalled {
    /// The built-in `U`.
    U,
    /// The built-in `CX`.
    Cx,
    /// The gate of that number among the first ones, counted from 0.
    Gate(u8),
}

/// An angle of such a call.
#[derive(Clone, Copy, Debug)]
pub(crate) struct HeaderAngle {
    /// The angle but for its sign and its divisor.
    pub turn: Turn,
    /// Whether it has the other sign.
    pub negated: bool,
    /// By which number it is divided.
    pub divisor: Divisor,
}

/// By which number such an angle is divided.
#[derive(Clone, Copy, Debug)]
pub(crate) enum Divisor {
    /// By none.
    One,
    /// By 2.
    Two,
    /// By 4.
    Four,
}

/// What such an angle is made of.
#[derive(Clone, Copy, Debug)]
pub(crate) enum Turn {
    /// No turn.
    Zero,
    /// Half a turn.
    Pi,
    /// The parameter of that index, counted from 0.
    Parameter(usize),
}

// An angle by what it is made of, whether it has the other sign, and its divisor.
macro_rules! angle {
    ($turn:expr, $negated:literal, $divisor:expr) => {
        HeaderAngle {
            turn: $turn,
            negated: $negated,
            divisor: $divisor,
        }
    };
}

const ZERO: HeaderAngle = angle!(Turn::Zero, false, Divisor::One);

const PI: HeaderAngle = angle!(Turn::Pi, false, Divisor::One);

const HALF_PI: HeaderAngle = angle!(Turn::Pi, false, Divisor::Two);

const MINUS_HALF_PI: HeaderAngle = angle!(Turn::Pi, true, Divisor::Two);

const QUARTER_PI: HeaderAngle = angle!(Turn::Pi, false, Divisor::Four);

const MINUS_QUARTER_PI: HeaderAngle = angle!(Turn::Pi, true, Divisor::Four);

const FIRST_PARAMETER: HeaderAngle = angle!(Turn::Parameter(0), false, Divisor::One);

const SECOND_PARAMETER: HeaderAngle = angle!(Turn::Parameter(1), false, Divisor::One);

const THIRD_PARAMETER: HeaderAngle = angle!(Turn::Parameter(2), false, Divisor::One);

const HALF_PARAMETER: HeaderAngle = angle!(Turn::Parameter(0), false, Divisor::Two);

const MINUS_HALF_PARAMETER: HeaderAngle = angle!(Turn::Parameter(0), true, Divisor::Two);

const U: HeaderCalled = HeaderCalled::U;

const BUILT_IN_CX: HeaderCalled = HeaderCalled::Cx;

const U3: HeaderCalled = HeaderCalled::Gate(0);

const U2: HeaderCalled = HeaderCalled::Gate(1);

const U1: HeaderCalled = HeaderCalled::Gate(2);

const CX: HeaderCalled = HeaderCalled::Gate(3);

const X: HeaderCalled = HeaderCalled::Gate(5);

const H: HeaderCalled = HeaderCalled::Gate(8);

const S: HeaderCalled = HeaderCalled::Gate(9);

const SDG: HeaderCalled = HeaderCalled::Gate(10);

const T: HeaderCalled = HeaderCalled::Gate(11);

const TDG: HeaderCalled = HeaderCalled::Gate(12);

const RY: HeaderCalled = HeaderCalled::Gate(14);

const CCX: HeaderCalled = HeaderCalled::Gate(19);

const CRZ: HeaderCalled = HeaderCalled::Gate(20);

// Rows of the table: each gate's name, how many angles and qubits it has, and the calls in its body. A call is the gate
// that is called, its angles, and the places of its qubits.
macro_rules! gates {
    ($($name:literal $angles:literal $qubits:literal
        { $($called:ident($($angle:ident),*) $($place:literal),+;)+ })+) => {
        [$(HeaderGate {
            name: $name,
            angles: $angles,
            qubits: $qubits,
            calls: &[$(($called, &[$($angle),*], &[$($place),+])),+],
        }),+]
    };
}

// The first gates: no program that includes the header declares their names.
static FIRST: [HeaderGate; 22] = gates! {
    b"u3" 3 1 { U(FIRST_PARAMETER, SECOND_PARAMETER, THIRD_PARAMETER) 0; }
    b"u2" 2 1 { U(HALF_PI, FIRST_PARAMETER, SECOND_PARAMETER) 0; }
    b"u1" 1 1 { U(ZERO, ZERO, FIRST_PARAMETER) 0; }
    b"cx" 0 2 { BUILT_IN_CX() 0, 1; }
    b"id" 0 1 { U(ZERO, ZERO, ZERO) 0; }
    b"x" 0 1 { U3(PI, ZERO, PI) 0; }
    b"y" 0 1 { U3(PI, HALF_PI, HALF_PI) 0; }
    b"z" 0 1 { U1(PI) 0; }
    b"h" 0 1 { U2(ZERO, PI) 0; }
    b"s" 0 1 { U1(HALF_PI) 0; }
    b"sdg" 0 1 { U1(MINUS_HALF_PI) 0; }
    b"t" 0 1 { U1(QUARTER_PI) 0; }
    b"tdg" 0 1 { U1(MINUS_QUARTER_PI) 0; }
    b"rx" 1 1 { U3(FIRST_PARAMETER, MINUS_HALF_PI, HALF_PI) 0; }
    b"ry" 1 1 { U3(FIRST_PARAMETER, ZERO, ZERO) 0; }
    b"rz" 1 1 { U1(FIRST_PARAMETER) 0; }
    b"cz" 0 2 { H() 1; CX() 0, 1; H() 1; }
    b"cy" 0 2 { SDG() 1; CX() 0, 1; S() 1; }
    b"ch" 0 2 {
        H() 1; SDG() 1; CX() 0, 1; H() 1; T() 1; CX() 0, 1; T() 1; H() 1; S() 1; X() 1; S() 0;
    }
    b"ccx" 0 3 {
        H() 2; CX() 1, 2; TDG() 2; CX() 0, 2; T() 2; CX() 1, 2; TDG() 2; CX() 0, 2; T() 1; T() 2;
        H() 2; CX() 0, 1; T() 0; TDG() 1; CX() 0, 1;
    }
    b"crz" 1 2 { U1(HALF_PARAMETER) 1; CX() 0, 1; U1(MINUS_HALF_PARAMETER) 1; CX() 0, 1; }
    b"cu1" 1 2 {
        U1(HALF_PARAMETER) 0; CX() 0, 1; U1(MINUS_HALF_PARAMETER) 1; CX() 0, 1;
        U1(HALF_PARAMETER) 1;
    }
};

// Further gates, whose names a program may declare itself.
static FURTHER: [HeaderGate; 11] = gates! {
    b"p" 1 1 { U(ZERO, ZERO, FIRST_PARAMETER) 0; }
    b"u" 3 1 { U(FIRST_PARAMETER, SECOND_PARAMETER, THIRD_PARAMETER) 0; }
    b"swap" 0 2 { CX() 0, 1; CX() 1, 0; CX() 0, 1; }
    b"sx" 0 1 { SDG() 0; H() 0; SDG() 0; }
    b"sxdg" 0 1 { S() 0; H() 0; S() 0; }
    b"cp" 1 2 {
        U1(HALF_PARAMETER) 0; CX() 0, 1; U1(MINUS_HALF_PARAMETER) 1; CX() 0, 1;
        U1(HALF_PARAMETER) 1;
    }
    b"cswap" 0 3 { CX() 2, 1; CCX() 0, 1, 2; CX() 2, 1; }
    b"ccz" 0 3 { H() 2; CCX() 0, 1, 2; H() 2; }
    b"crx" 1 2 { H() 1; CRZ(FIRST_PARAMETER) 0, 1; H() 1; }
    b"cry" 1 2 { RY(HALF_PARAMETER) 1; CX() 0, 1; RY(MINUS_HALF_PARAMETER) 1; CX() 0, 1; }
    b"rzz" 1 2 { CX() 0, 1; U1(FIRST_PARAMETER) 1; CX() 0, 1; }
};

/// The first gates.
pub(crate) fn first_table() -> &'static [HeaderGate]
    ensures names { map (λ gate. gate.name.now) result.now ≡ map (λ form. form.name) first_gates }
    ensures rows { (scope : Scope) → AreFirstRows result.now first_gates (gate_count scope) scope }
{
    &FIRST
}

/// The further gates.
pub(crate) fn further_table() -> &'static [HeaderGate]
    ensures { (scope : Scope) → AreFurtherRows result.now further_gates (gate_count scope)
        (with_first first_gates scope) }
{
    &FURTHER
}
