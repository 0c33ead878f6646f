//! Expressions of angles.

ghost use Rattle.std.specs.Prelude.{◌≡◌, map};
ghost use Rattle.qasm_reader.specs.Postfix.{IsPostfix};
ghost use Rattle.qasm_reader.specs.Items.{entry};

use std::marker::Model;

/// An operator between two operands.
#[derive(Clone, Copy, Debug, PartialEq, Eq)]
pub enum Operator {
    /// `+`
    Add,
    /// `-`
    Subtract,
    /// `*`
    Multiply,
    /// `/`
    Divide,
    /// `^`
    Power,
}

/// A function.
#[derive(Clone, Copy, Debug, PartialEq, Eq)]
pub enum Function {
    /// `sin`
    Sin,
    /// `cos`
    Cos,
    /// `tan`
    Tan,
    /// `exp`
    Exp,
    /// `ln`
    Ln,
    /// `sqrt`
    Sqrt,
}

/// An item of an expression in postfix order.
#[derive(Clone, Copy, Debug)]
pub enum Item<'a> {
    /// A whole or decimal number, as it is spelled.
    Number(&'a [u8]),
    /// The number pi.
    Pi,
    /// A parameter, by its name.
    Name(&'a [u8]),
    /// The negative of the operand before.
    Negate,
    /// The operator, applied to the two operands before.
    Binary(Operator),
    /// The function, applied to the operand before.
    Call(Function),
}

/// An expression, as the list of its items in postfix order: operands before what is applied to them.
#[derive(Drop)]
pub struct Expression<'a> {
    items: Vec<Item<'a>>,
}

impl<'a> Model for Expression<'a> {
    ghost use Rattle.std.specs.Prelude.{List, map};
    ghost use Rattle.qasm_reader.specs.Postfix.{Entry, IsPostfix};
    ghost use Rattle.qasm_reader.specs.Items.{entry};

    ghost Value = { List Entry };

    ghost view = { λ expression. map entry expression.items.items };

    ghost invariant = { λ expression. IsPostfix (map entry expression.items.items) };
}

impl<'a> Expression<'a> {
    /// The expression with these items.
    pub fn new(items: Vec<Item<'a>>) -> Expression<'a>
        requires { IsPostfix (map entry items.items) }
        ensures { result ≡ map entry items.entry.items }
    {
        Expression { items }
    }

    /// Its items in postfix order.
    pub fn items(&self) -> &[Item<'a>]
        ensures value { map entry result.now ≡ self.now }
        ensures postfix { IsPostfix self.now }
    {
        &self.items
    }
}
