//! The angle of an expression.

ghost use Rattle.std.specs.Prelude.{◌≡◌, ◌∷◌, [], reverse, Ok, Err, IfOk, IfErr, OnOk, ok_or, option_map};
ghost use Rattle.std.specs.List.{list_any};
ghost use Rattle.qasm_angle.specs.Values.{value, number};
ghost use Rattle.qasm_angle.specs.Errors.{error_of};
ghost use Rattle.qasm_angle.specs.Internal.Constants.{is_parameter};
ghost use Rattle.qasm_angle.specs.Internal.Stack.{stepped, on_top};
ghost use Rattle.qasm_angle.specs.declared.errors.AngleFault.{AngleFault};
ghost use Rattle.qasm_angle.specs.declared.errors.AngleFault.TheVariants as cause;

use crate::angle::Angle;
use crate::errors::{AngleError, AngleFault};
use crate::expression::{Expr, ExprItem};
use crate::literal::Literal;
use std::alloc::{AllocError, Global};

/// The angle of an expression, where the parameter of index i is the angle `args[i]`. For an expression that has
/// none, the first step in postfix order that gives no angle decides the error.
#[inline(always)]
pub fn eval(alloc: Global, e: &Expr, args: &[Angle]) -> Result<Angle, AngleError>
    ensures value { IfOk result (λ angle. value e.now args.now ≡ Ok angle) }
    ensures divide { result ≡ Err AngleError.Divide → value e.now args.now ≡ Err cause.Divide }
    ensures too_large { result ≡ Err AngleError.TooLarge
        → value e.now args.now ≡ Err cause.TooLarge }
    ensures not_an_angle { result ≡ Err AngleError.NotAnAngle
        → value e.now args.now ≡ Err cause.NotAnAngle }
{
    match e.constant() {
        Some(angle) => Ok(angle),
        None => angle_of(alloc, e, args),
    }
}

// The angle of an expression, by its steps.
#[inline(always)]
fn angle_of(alloc: Global, e: &Expr, args: &[Angle]) -> Result<Angle, AngleError>
    ensures value { IfOk result (λ angle. value e.now args.now ≡ Ok angle) }
    ensures cause { (c : AngleFault) → result ≡ Err (error_of c) → value e.now args.now ≡ Err c }
{
    let Some((last, before)) = e.steps().split_last() else {
        return Err(AngleError::NotAnAngle);
    };
    if before.is_empty() {
        return Ok(angle_alone(last, args)?);
    }
    let mut angles = Vec::new(alloc);
    for step in before {
        push_step(&mut angles, step, args)?;
    }
    Ok(take_step(&mut angles, last, args)?)
}

/// The same expression, and where it is long and names no parameter, with its angle, so that `eval` finds it at
/// once. What is wrong with an expression stays to be found by `eval`.
pub fn folded(alloc: Global, e: Expr) -> Result<Expr, AllocError>
    ensures { IfOk result (λ folded. folded ≡ e) }
{
    if e.steps().len() == 1 || names_parameter(e.steps()) {
        return Ok(e);
    }
    match eval(alloc, &e, &[]) {
        Ok(angle) => e.with_constant(alloc, angle),
        Err(AngleError::NoMemory) => Err(AllocError),
        Err(_) => Ok(e),
    }
}

// Whether a parameter is among the steps.
fn names_parameter(steps: &[ExprItem]) -> bool
    ensures { result ≡ list_any is_parameter steps.now }
{
    steps
        .iter()
        .any(|step| matches!(step, ExprItem::Parameter(_)))
}

// Takes the operands of a step from the end of the angles, and adds what it gives.
fn push_step(angles: &mut Vec<Angle>, step: &ExprItem, args: &[Angle]) -> Result<(), AngleError>
    ensures angles { OnOk result (stepped step.now args.now (reverse angles.old.items)
        ≡ Ok (reverse angles.new.items)) }
    ensures cause { (c : AngleFault) → result ≡ Err (error_of c)
        → stepped step.now args.now (reverse angles.old.items) ≡ Err c }
{
    let angle = take_step(angles, step, args)?;
    angles.push(angle)?;
    Ok(())
}

// Takes the operands of a step from the end of the angles, and gives the step's angle.
fn take_step(angles: &mut Vec<Angle>, step: &ExprItem, args: &[Angle]) -> Result<Angle, AngleFault>
    ensures { on_top result (reverse angles.new.items)
        ≡ stepped step.now args.now (reverse angles.old.items) }
{
    match step {
        ExprItem::Number(literal) => number(literal),
        ExprItem::Pi => Ok(Angle::pi()),
        ExprItem::Parameter(i) => args.get(*i).copied().ok_or(AngleFault::NotAnAngle),
        ExprItem::Negate => {
            let a = pop_angle(angles)?;
            Ok(a.opposite())
        }
        ExprItem::Binary(operator) => {
            let b = pop_angle(angles)?;
            let a = pop_angle(angles)?;
            a.apply(*operator, &b)
        }
    }
}

// The angle of a step that stands alone. Operators lack operands there.
fn angle_alone(step: &ExprItem, args: &[Angle]) -> Result<Angle, AngleFault>
    ensures { on_top result [] ≡ stepped step.now args.now [] }
{
    match step {
        ExprItem::Number(literal) => number(literal),
        ExprItem::Pi => Ok(Angle::pi()),
        ExprItem::Parameter(i) => args.get(*i).copied().ok_or(AngleFault::NotAnAngle),
        ExprItem::Negate | ExprItem::Binary(_) => Err(AngleFault::NotAnAngle),
    }
}

// The angle of a number.
fn number(literal: &Literal) -> Result<Angle, AngleFault>
    ensures { result ≡ ok_or (option_map number literal.now) cause.TooLarge }
{
    match literal.value() {
        Some(value) => Ok(Angle::number(value)),
        None => Err(AngleFault::TooLarge),
    }
}

// Takes the last angle. The steps of an expression never lack one.
fn pop_angle(angles: &mut Vec<Angle>) -> Result<Angle, AngleFault>
    ensures found { IfOk result (λ a. reverse angles.old.items ≡ a ∷ reverse angles.new.items) }
    ensures none { IfErr result (λ c. (c ≡ cause.NotAnAngle) × (reverse angles.old.items ≡ [])) }
{
    angles.pop().ok_or(AngleFault::NotAnAngle)
}
