//! Expressions with names resolved.

ghost use Rattle.std.specs.Prelude.{◌≡◌, map, IfOk, IfSome, IfNone, true, if◌then◌else◌, None, Some};
ghost use Rattle.std.specs.List.{list_any};
ghost use Rattle.qasm_reader.specs.Items.{entry};
ghost use Rattle.qasm_reader.specs.Postfix.{formula_of};
ghost use Rattle.qasm_scope.specs.Angles.{is_power, is_unsupported};
ghost use Rattle.qasm_scope.specs.Faults.{has_other_name};
ghost use Rattle.qasm_names.specs.Internal.Entries.{has_no_place, has_other, is_other_entry, operator_of, IsStep, AreSteps, IsPlaced};
ghost use Rattle.qasm_names.specs.Internal.PlacedAngles.{any_other, ArePlaced};
ghost use Rattle.qasm_names.specs.Places.{place_in};

use crate::places::Places;
use qasm_angle::{Expr, ExprItem, Literal, folded};
use qasm_reader::{Expression, Item, Operator};
use std::alloc::{AllocError, Global};

/// Whether an expression holds `^` or a function.
pub fn is_unsupported(expression: &Expression<'_>) -> bool
    ensures { result ≡ is_unsupported (formula_of expression.now) }
{
    expression.items().iter().any(|item| matches!(
        item,
        Item::Binary(Operator::Power) | Item::Call(_)
    ))
}

/// Whether one of the expressions holds `^` or a function.
pub fn any_unsupported(expressions: &[Expression<'_>]) -> bool
    ensures { result ≡ list_any is_unsupported (map formula_of expressions.now) }
{
    expressions
        .iter()
        .any(|expression| is_unsupported(expression))
}

/// Whether one of the expressions holds a name that isn't among these.
pub fn any_other_name<'a>(places: &Places<'a>, expressions: &[Expression<'a>]) -> bool
    ensures { result ≡ list_any (has_other_name (place_in places.now)) (map formula_of expressions.now) }
{
    for expression in expressions {
        if has_other_name(places, expression) {
            return true;
        }
    }
    false
}

/// The expressions in numbered parameters; none where one of them holds `^`, a function or another name than these.
pub fn all_numbered<'a>(
    alloc: Global,
    places: &Places<'a>,
    expressions: &[Expression<'a>],
) -> Result<Option<Vec<Expr>>, AllocError>
    ensures some { IfOk result (λ found. IfSome found (λ exprs.
        ArePlaced places.now (map formula_of expressions.now) exprs.items)) }
    ensures none { IfOk result (λ found. IfNone found (
        any_other places.now (map formula_of expressions.now) ≡ true)) }
{
    let mut exprs = Vec::with_capacity(alloc, expressions.len())?;
    for expression in expressions {
        let Some(expr) = numbered(alloc, places, expression)? else {
            return Ok(None);
        };
        exprs.push(expr)?;
    }
    Ok(Some(exprs))
}

// Whether an expression holds another name than these.
fn has_other_name<'a>(places: &Places<'a>, expression: &Expression<'a>) -> bool
    ensures { result ≡ has_other_name (place_in places.now) (formula_of expression.now) }
{
    for item in expression.items() {
        if is_other_name(places, item) {
            return true;
        }
    }
    false
}

// Whether the item is another name than these.
fn is_other_name<'a>(places: &Places<'a>, item: &Item<'a>) -> bool
    ensures { result ≡ has_no_place places.now (entry item.now) }
{
    match item {
        Item::Name(name) => places.find(*name).is_none(),
        _ => false,
    }
}

// The expression in numbered parameters; none where it holds `^`, a function or another name than these.
fn numbered<'a>(
    alloc: Global,
    places: &Places<'a>,
    expression: &Expression<'a>,
) -> Result<Option<Expr>, AllocError>
    ensures some { IfOk result (λ found. IfSome found (λ expr.
        IsPlaced places.now (formula_of expression.now) expr)) }
    ensures none { IfOk result (λ found. IfNone found (
        has_other places.now (formula_of expression.now) ≡ true)) }
{
    match steps(alloc, places, expression.items())? {
        Some(steps) => Ok(Some(folded(alloc, Expr::new(steps))?)),
        None => Ok(None),
    }
}

// The steps that the items are; none where one of them is `^`, a function or another name than these.
fn steps<'a>(
    alloc: Global,
    places: &Places<'a>,
    items: &[Item<'a>],
) -> Result<Option<Vec<ExprItem>>, AllocError>
    ensures some { IfOk result (λ found. IfSome found (λ steps.
        AreSteps places.now (map entry items.now) steps.items)) }
    ensures none { IfOk result (λ found. IfNone found (
        list_any (is_other_entry places.now) (map entry items.now) ≡ true)) }
{
    let mut steps = Vec::with_capacity(alloc, items.len())?;
    for item in items {
        let Some(step) = step(places, item) else {
            return Ok(None);
        };
        steps.push(step)?;
    }
    Ok(Some(steps))
}

// The step that an item is; none for `^`, functions and other names than these.
fn step<'a>(places: &Places<'a>, item: &Item<'a>) -> Option<ExprItem>
    ensures some { IfSome result (λ step. IsStep places.now (entry item.now) step) }
    ensures none { IfNone result (is_other_entry places.now (entry item.now) ≡ true) }
{
    match item {
        Item::Number(text) => Some(ExprItem::Number(Literal::read(text))),
        Item::Pi => Some(ExprItem::Pi),
        Item::Name(name) => places.find(*name).map(ExprItem::Parameter),
        Item::Negate => Some(ExprItem::Negate),
        Item::Binary(operator) => operator_of(*operator).map(ExprItem::Binary),
        Item::Call(_) => None,
    }
}

// The operation on angles; `^` is none.
fn operator_of(operator: Operator) -> Option<qasm_angle::Operation>
    ensures { result ≡ (if is_power operator then None else Some (operator_of operator)) }
{
    match operator {
        Operator::Add => Some(qasm_angle::Operation::Add),
        Operator::Subtract => Some(qasm_angle::Operation::Subtract),
        Operator::Multiply => Some(qasm_angle::Operation::Multiply),
        Operator::Divide => Some(qasm_angle::Operation::Divide),
        Operator::Power => None,
    }
}
