//! Expressions, as lists of steps.

ghost use Rattle.std.specs.Prelude.{◌≡◌, List, Ok, IfSome, IfOk};
ghost use Rattle.qasm_angle.specs.Trees.{Tree, postfix};
ghost use Rattle.qasm_angle.specs.Values.{value};
ghost use Rattle.qasm_angle.specs.declared.angle.Angle.{Angle};

use crate::angle::Angle;
use crate::literal::Literal;
use std::alloc::{AllocError, Global};
use std::marker::Model;

/// An operation on two angles.
#[derive(Clone, Copy, Debug, PartialEq, Eq)]
pub enum Operation {
    /// The sum.
    Add,
    /// The first minus the second.
    Subtract,
    /// The product.
    Multiply,
    /// The first divided by the second.
    Divide,
}

/// A step of an expression. It takes its operands from what the steps before it gave.
#[derive(Clone, Copy, Debug)]
pub enum ExprItem {
    /// A number.
    Number(Literal),
    /// The number pi.
    Pi,
    /// The parameter of that index, counted from 0.
    Parameter(usize),
    /// The last angle with the other sign.
    Negate,
    /// The operation on the last two angles.
    Binary(Operation),
}

/// An expression, as the list of its steps in postfix order: each operator stands after its operands. Of one without
/// parameters the angle may be kept beside them, so that it isn't evaluated again.
#[derive(Debug, Drop)]
pub struct Expr {
    steps: Vec<ExprItem>,
    constant: Option<Box<Angle>>,
}

impl Model for Expr {
    ghost use Rattle.std.specs.Prelude.{option_map, box_value};
    ghost use Rattle.qasm_angle.specs.Trees.{Tree, tree_of};
    ghost use Rattle.qasm_angle.specs.Internal.TreeCode.{tree_code};
    ghost use Rattle.qasm_angle.specs.Internal.Constants.{IsExpr};

    ghost Value = { Tree };

    ghost coded = { tree_code };

    ghost view = { λ e. tree_of e.steps.items };

    ghost invariant = { λ e. IsExpr e.steps.items (option_map box_value e.constant) };
}

impl Expr {
    /// The expression of these steps, which are to be those of a tree in postfix order.
    pub fn new(steps: Vec<ExprItem>) -> Expr
        requires { (t : Tree) × (steps.items ≡ postfix t) }
        ensures tree { (t : Tree) → steps.items ≡ postfix t → result ≡ t }
        ensures steps { postfix result ≡ steps.items }
    {
        Expr {
            steps,
            constant: None,
        }
    }

    // The same expression, with the angle that it has for all arguments.
    pub(crate) fn with_constant(self, alloc: Global, angle: Angle) -> Result<Expr, AllocError>
        requires { (args : List Angle) → value self args ≡ Ok angle }
        ensures { IfOk result (λ e. e ≡ self) }
    {
        let constant = Some(Box::new(alloc, angle)?);
        Ok(Expr {
            steps: self.steps,
            constant,
        })
    }

    // Its angle, where that is kept.
    pub(crate) fn constant(&self) -> Option<Angle>
        ensures { IfSome result (λ angle. (args : List Angle) → value self.now args ≡ Ok angle) }
    {
        self.constant.as_deref().copied()
    }

    /// Its steps.
    pub fn steps(&self) -> &[ExprItem]
        ensures { result.now ≡ postfix self.now }
    {
        self.steps.as_slice()
    }
}
