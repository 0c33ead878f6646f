//! What no clause says: that calls succeed with ample memory, and worked examples.
ghost use Rattle.std.specs.Prelude.{◌≡◌, ◌∷◌, []};
ghost use Rattle.qasm_angle.specs.Trees.{Tree, postfix};

use qasm_angle::{
    Angle, AngleError, Expr, ExprItem, Fraction, Literal, Operation, eval, to_sixteenth,
};
use std::alloc::{AllocError, Global};
use std::test::Fail;

// The numerator and the denominator of a fraction.
type Parts = (i64, u64);

fn parts(fraction: Fraction) -> Parts {
    (fraction.numerator(), fraction.denominator())
}

// The numbers of a number's value.
fn value(text: &[u8]) -> Option<Parts> {
    match Literal::read(text).value() {
        Some(fraction) => Some(parts(fraction)),
        None => None,
    }
}

// Numbers and their values.
const NUMBERS: [(&[u8], Option<Parts>); 20] = [
    (b"0", Some((0, 1))),
    (b"12", Some((12, 1))),
    (b"0.25", Some((1, 4))),
    (b".5", Some((1, 2))),
    (b"3.", Some((3, 1))),
    (b"007.50", Some((15, 2))),
    (b"0.000", Some((0, 1))),
    (b"1.0e3", Some((1000, 1))),
    (b"2.5E+1", Some((25, 1))),
    (b"2.5e-3", Some((1, 400))),
    (b"1152921504606846976", Some((1152921504606846976, 1))),
    (b"1152921504606846977", None),
    (
        b"00100000000000000000000000000000000000000.e-38",
        Some((1, 1)),
    ),
    (b"12345678901234567890123456789012345678.", None),
    (
        b"0.000000000000000055511151231257827021181583404541015625",
        Some((1, 18014398509481984)),
    ),
    (
        b"0.0000000000000000277555756156289135105907917022705078125",
        None,
    ),
    (b"0.0e999999", Some((0, 1))),
    (b"1.0e-000000000000000000000000000000001", Some((1, 10))),
    (b"1.0e18446744073709551616", None),
    (b"1.0e-18446744073709551616", None),
];

#[test]
fn numbers_have_their_values(rt: HostRuntime) {
    for (text, wanted) in &NUMBERS {
        assert_eq!(rt; value(text), *wanted);
    }
}

// Adds a 1 behind 5,000 zeros after the point, times 10 to the power of 5,001.
fn add_one(text: &mut Vec<u8>) -> Result<(), Fail> {
    text.extend_from_slice(b"0.")?;
    for _ in 0..5000 {
        text.push(b'0')?;
    }
    text.extend_from_slice(b"1e5001")?;
    Ok(())
}

#[test]
fn zeros_after_the_point_are_cancelled_by_the_exponent(rt: HostRuntime) -> Result<(), Fail> {
    let mut text = Vec::new(rt.alloc());
    add_one(&mut text)?;
    assert_eq!(rt; value(&text), Some((1, 1)));
    Ok(())
}

// A number or pi.
#[derive(Clone, Copy)]
enum Operand {
    Number(u8),
    Pi,
}

// An operand as a step.
fn step(operand: Operand) -> ExprItem
    ensures { (t : Tree) × (postfix t ≡ result ∷ []) }
{
    match operand {
        Operand::Number(digit) => ExprItem::Number(Literal::read(&[digit])),
        Operand::Pi => ExprItem::Pi,
    }
}

// An operation on two operands.
fn operation(
    alloc: Global,
    operator: Operation,
    left: Operand,
    right: Operand,
) -> Result<Expr, AllocError> {
    let steps = vec![in alloc; step(left), step(right), ExprItem::Binary(operator)]?;
    Ok(Expr::new(steps))
}

// The rational part of an angle, and its multiple of pi.
type Found = Result<(Parts, Parts), AngleError>;

// What an operation on two operands is.
fn angle_of(
    alloc: Global,
    operator: Operation,
    left: Operand,
    right: Operand,
) -> Result<Found, Fail> {
    let e = operation(alloc, operator, left, right)?;
    Ok(match eval(alloc, &e, &[]) {
        Ok(angle) => Ok((parts(angle.rational), parts(angle.multiple))),
        Err(error) => Err(error),
    })
}

const TWO: Operand = Operand::Number(b'2');

const ZERO: Operand = Operand::Number(b'0');

const PI: Operand = Operand::Pi;

// Operations on two operands, and what they are.
const OPERATIONS: [(Operation, Operand, Operand, Found); 7] = [
    (Operation::Add, TWO, PI, Ok(((2, 1), (1, 1)))),
    (Operation::Subtract, TWO, PI, Ok(((2, 1), (-1, 1)))),
    (Operation::Multiply, TWO, PI, Ok(((0, 1), (2, 1)))),
    (Operation::Divide, PI, TWO, Ok(((0, 1), (1, 2)))),
    (Operation::Divide, PI, ZERO, Err(AngleError::Divide)),
    (Operation::Multiply, PI, PI, Err(AngleError::NotAnAngle)),
    (Operation::Divide, TWO, PI, Err(AngleError::NotAnAngle)),
];

#[test]
fn operations_have_their_angles(rt: HostRuntime) -> Result<(), Fail> {
    for (operator, left, right, wanted) in &OPERATIONS {
        let found = angle_of(rt.alloc(), *operator, *left, *right)?;
        assert_eq!(rt; found, *wanted);
    }
    Ok(())
}

// The expression -a/4 of one parameter a.
fn minus_quarter(alloc: Global) -> Result<Expr, AllocError> {
    let steps = vec![in alloc;
        ExprItem::Parameter(0),
        ExprItem::Negate,
        ExprItem::Number(Literal::read(b"4")),
        ExprItem::Binary(Operation::Divide),
    ]?;
    Ok(Expr::new(steps))
}

// The sixteenth turns of an angle.
fn turns_of(angle: &Angle) -> Option<u8> {
    Some(to_sixteenth(angle)?.get())
}

// Those of a multiple of pi.
fn turns(multiple: &[u8]) -> Option<u8> {
    turns_of(&Angle {
        rational: Fraction::zero(),
        multiple: Literal::read(multiple).value()?,
    })
}

// Multiples of pi, and their sixteenth turns.
const MULTIPLES: [(&[u8], Option<u8>); 9] = [
    (b"0", Some(0)),
    (b"0.125", Some(1)),
    (b"0.25", Some(2)),
    (b"0.375", Some(3)),
    (b"1.875", Some(15)),
    (b"2.125", Some(1)),
    (b"0.0625", None),
    (b"1152921504606846976", Some(0)),
    (b"1152921504606846975", Some(8)),
];

#[test]
fn multiples_of_pi_have_their_phases(rt: HostRuntime) {
    for (multiple, wanted) in &MULTIPLES {
        assert_eq!(rt; turns(multiple), *wanted);
    }
}

// The multiple of pi that -a/4 is where a is pi, its sixteenth turns, and the number of steps.
fn minus_quarter_of_pi(alloc: Global) -> Result<(Parts, Option<u8>, usize), Fail> {
    let e = minus_quarter(alloc)?;
    let angle = eval(alloc, &e, &[Angle::pi()])?;
    Ok((parts(angle.multiple), turns_of(&angle), e.steps().len()))
}

#[test]
fn angles_are_sixteenths_of_a_turn(rt: HostRuntime) -> Result<(), Fail> {
    let found = minus_quarter_of_pi(rt.alloc())?;
    assert_eq!(rt; found, ((-1, 4), Some(14), 4));
    Ok(())
}
