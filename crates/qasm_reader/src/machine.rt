//! Expressions by the strength of their operators: operands are put out as they come, operators when all is there
//! that they are applied to.

ghost use Rattle.std.specs.Prelude.{◌≡◌, map, reverse, true, OnOk, IfOk, ◌∷◌, [], ◌++◌};
ghost use Rattle.std.specs.Option.{option_map};
ghost use Rattle.qasm_lexer.specs.Tokens.{lexemes};
ghost use Rattle.qasm_reader.specs.Items.{entry};
ghost use Rattle.qasm_reader.specs.Postfix.{formula_of};
ghost use Rattle.qasm_reader.specs.Internal.Taking.{Gives, Reads};
ghost use Rattle.qasm_reader.specs.Internal.Machine.{machine_state, start};
ghost use Rattle.qasm_reader.specs.Internal.Machine as spec;

use crate::expression::{Expression, Function, Item, Operator};
use crate::step_error::StepError;
use crate::tokens::Taken;
use qasm_lexer::{Token, TokenKind};
use std::alloc::{AllocError, Global};

// What waits for its operand, or for the parenthesis that closes it.
#[derive(Clone, Copy, Debug)]
pub(crate) enum Pending {
    // A minus sign before its operand.
    Negate,
    // An operator after its left operand.
    Binary(Operator),
    // An open parenthesis.
    Parenthesis,
    // An open parenthesis after a function.
    Call(Function),
}

// What may come next.
#[derive(Clone, Copy, Debug)]
pub(crate) enum Awaited {
    // An operand.
    Operand,
    // The parenthesis after this function.
    Parenthesis(Function),
    // An operator, a parenthesis that closes, or the end.
    Operator,
}

// An expression that is read in part.
#[derive(Drop)]
pub(crate) struct Machine<'a> {
    // What may come next.
    awaited: Awaited,
    // The items that are put out.
    output: Vec<Item<'a>>,
    // What waits, the last that came after all others.
    pending: Vec<Pending>,
}

impl<'a> Machine<'a> {
    // A machine that has read nothing.
    fn new(alloc: Global) -> Machine<'a>
        ensures { machine_state result ≡ start }
    {
        Machine {
            awaited: Awaited::Operand,
            output: Vec::new(alloc),
            pending: Vec::new(alloc),
        }
    }

    // Takes the tokens of an expression, and answers those that follow.
    #[tactic(auto, unfolding(crate::specs::Internal::Machine::run))]
    fn run<'t>(&mut self, tokens: &'t [Token<'a>]) -> Result<&'t [Token<'a>], AllocError>
        ensures { IfOk result (λ rest. spec.run (lexemes tokens.now) (machine_state self.old)
            ≡ (machine_state self.new, lexemes rest.now)) }
    {
        let mut rest = tokens;
        while let [token, others @ ..] = rest {
            if !self.step(token)? {
                return Ok(rest);
            }
            rest = others;
        }
        Ok(rest)
    }

    // Takes a token, and answers whether it belongs to the expression.
    #[tactic(auto, unfolding(crate::specs::Internal::Machine::step))]
    fn step(&mut self, token: &Token<'a>) -> Result<bool, AllocError>
        ensures { IfOk result (λ belongs. spec.step (machine_state self.old) token.now.kind
            token.now.slice.now ≡ (belongs, machine_state self.new)) }
    {
        match self.awaited {
            Awaited::Operand => self.operand(token),
            Awaited::Parenthesis(function) => self.parenthesis(function, token.kind),
            Awaited::Operator => self.operator(token.kind),
        }
    }

    // Takes a token where an operand may come.
    fn operand(&mut self, token: &Token<'a>) -> Result<bool, AllocError>
        ensures { IfOk result (λ belongs. spec.on_operand
            (spec.operand_of token.now.kind token.now.slice.now) token.now.kind (machine_state self.old)
            ≡ (belongs, machine_state self.new)) }
    {
        if let Some(item) = operand_of(token) {
            put_item(&mut self.output, item)?;
            self.awaited = Awaited::Operator;
        } else if let Some(prefix) = prefix_of(token.kind) {
            put_pending(&mut self.pending, prefix)?;
        } else if let Some(function) = function_of(token.kind) {
            self.awaited = Awaited::Parenthesis(function);
        } else {
            return Ok(false);
        }
        Ok(true)
    }

    // Takes a token after the name of a function.
    fn parenthesis(&mut self, function: Function, kind: TokenKind) -> Result<bool, AllocError>
        ensures { IfOk result (λ belongs. spec.on_left (spec.is_left kind) function
            (machine_state self.old) ≡ (belongs, machine_state self.new)) }
    {
        if !is_left(kind) {
            return Ok(false);
        }
        put_pending(&mut self.pending, Pending::Call(function))?;
        self.awaited = Awaited::Operand;
        Ok(true)
    }

    // Takes a token where an operator may come.
    fn operator(&mut self, kind: TokenKind) -> Result<bool, AllocError>
        ensures { IfOk result (λ belongs. spec.on_operator (spec.operator_of kind) kind
            (machine_state self.old) ≡ (belongs, machine_state self.new)) }
    {
        if let Some(operator) = operator_of(kind) {
            release(bound(operator), &mut self.output, &mut self.pending)?;
            put_pending(&mut self.pending, Pending::Binary(operator))?;
            self.awaited = Awaited::Operand;
            return Ok(true);
        }
        if !is_right(kind) {
            return Ok(false);
        }
        self.close()
    }

    // Closes a parenthesis, and answers whether one was open.
    fn close(&mut self) -> Result<bool, AllocError>
        ensures { IfOk result (λ belongs. spec.on_right true (machine_state self.old)
            ≡ (belongs, machine_state self.new)) }
    {
        release(1, &mut self.output, &mut self.pending)?;
        self.awaited = Awaited::Operator;
        match self.pending.pop() {
            Some(Pending::Parenthesis) => Ok(true),
            Some(Pending::Call(function)) => {
                put_item(&mut self.output, Item::Call(function))?;
                Ok(true)
            }
            Some(other) => {
                put_pending(&mut self.pending, other)?;
                Ok(false)
            }
            None => Ok(false),
        }
    }

    // The items of the expression, if it is whole.
    #[tactic(auto, unfolding(crate::specs::Internal::Machine::finished))]
    fn finish(self) -> Result<Vec<Item<'a>>, StepError>
        ensures { Gives (λ items. map entry items.items) result
            (spec.finished (machine_state self.entry)) }
    {
        let Machine {
            awaited,
            mut output,
            mut pending,
        } = self;
        let Awaited::Operator = awaited else {
            return Err(StepError::Misfit);
        };
        release(1, &mut output, &mut pending)?;
        if pending.is_empty() {
            Ok(output)
        } else {
            Err(StepError::Misfit)
        }
    }
}

// The expression at the start of the tokens, and what follows.
#[tactic(auto, unfolding(crate::specs::Internal::Machine::take_entries, crate::specs::Internal::Machine::take_expression))]
pub(crate) fn expression<'t, 'a>(
    alloc: Global,
    tokens: &'t [Token<'a>],
) -> Taken<'t, 'a, Expression<'a>>
    ensures { Reads formula_of result (spec.take_expression (lexemes tokens.now)) }
{
    let mut machine = Machine::new(alloc);
    let rest = machine.run(tokens)?;
    let items = machine.finish()?;
    Ok((Expression::new(items), rest))
}

// Puts out all that wait and are at least so strong, from the last that came on.
fn release(
    bound: u8,
    output: &mut Vec<Item<'_>>,
    pending: &mut Vec<Pending>,
) -> Result<(), AllocError>
    ensures { OnOk result (spec.release bound (map entry output.old.items)
        (reverse pending.old.items) ≡ (map entry output.new.items, reverse pending.new.items)) }
{
    while let Some(last) = pending.last() {
        let Some(item) = released(bound, *last) else {
            return Ok(());
        };
        put_item(output, item)?;
        pending.pop();
    }
    Ok(())
}

// Adds an item.
fn put_item<'a>(output: &mut Vec<Item<'a>>, item: Item<'a>) -> Result<(), AllocError>
    ensures { OnOk result (map entry output.new.items
        ≡ map entry output.old.items ++ entry item.entry ∷ []) }
{
    output.push(item)?;
    Ok(())
}

// Adds what waits.
fn put_pending(pending: &mut Vec<Pending>, last: Pending) -> Result<(), AllocError>
    ensures { OnOk result (reverse pending.new.items ≡ last ∷ reverse pending.old.items) }
{
    pending.push(last)?;
    Ok(())
}

// The item of what waits, if it is at least so strong.
fn released<'a>(bound: u8, pending: Pending) -> Option<Item<'a>>
    ensures { option_map entry result ≡ spec.released bound pending }
{
    match pending {
        Pending::Negate => Some(Item::Negate),
        Pending::Binary(operator) if bound <= strength(operator) => Some(Item::Binary(operator)),
        _ => None,
    }
}

// How strongly an operator binds.
fn strength(operator: Operator) -> u8
    ensures { result ≡ spec.strength operator }
{
    match operator {
        Operator::Add | Operator::Subtract => 1,
        Operator::Multiply | Operator::Divide => 2,
        Operator::Power => 3,
    }
}

// How strong what waits has to be, to be applied before an operator comes.
fn bound(operator: Operator) -> u8
    ensures { result ≡ spec.bound operator }
{
    match operator {
        Operator::Add | Operator::Subtract => 1,
        Operator::Multiply | Operator::Divide => 2,
        Operator::Power => 4,
    }
}

// The operand that a token is.
fn operand_of<'a>(token: &Token<'a>) -> Option<Item<'a>>
    ensures { option_map entry result ≡ spec.operand_of token.now.kind token.now.slice.now }
{
    match token.kind {
        TokenKind::Real | TokenKind::Natural => Some(Item::Number(token.slice)),
        TokenKind::Pi => Some(Item::Pi),
        TokenKind::Identifier => Some(Item::Name(token.slice)),
        _ => None,
    }
}

// What stands before an operand.
fn prefix_of(kind: TokenKind) -> Option<Pending>
    ensures { result ≡ spec.prefix_of kind }
{
    match kind {
        TokenKind::Minus => Some(Pending::Negate),
        TokenKind::LeftParenthesis => Some(Pending::Parenthesis),
        _ => None,
    }
}

// The function that a word names.
fn function_of(kind: TokenKind) -> Option<Function>
    ensures { result ≡ spec.function_of kind }
{
    match kind {
        TokenKind::Sin => Some(Function::Sin),
        TokenKind::Cos => Some(Function::Cos),
        TokenKind::Tan => Some(Function::Tan),
        TokenKind::Exp => Some(Function::Exp),
        TokenKind::Ln => Some(Function::Ln),
        TokenKind::Sqrt => Some(Function::Sqrt),
        _ => None,
    }
}

// The operator that a sign stands for between two operands.
fn operator_of(kind: TokenKind) -> Option<Operator>
    ensures { result ≡ spec.operator_of kind }
{
    match kind {
        TokenKind::Plus => Some(Operator::Add),
        TokenKind::Minus => Some(Operator::Subtract),
        TokenKind::Star => Some(Operator::Multiply),
        TokenKind::Slash => Some(Operator::Divide),
        TokenKind::Caret => Some(Operator::Power),
        _ => None,
    }
}

// Whether a token is a left parenthesis.
fn is_left(kind: TokenKind) -> bool
    ensures { result ≡ spec.is_left kind }
{
    matches!(kind, TokenKind::LeftParenthesis)
}

// Whether a token is a right parenthesis.
fn is_right(kind: TokenKind) -> bool
    ensures { result ≡ spec.is_right kind }
{
    matches!(kind, TokenKind::RightParenthesis)
}
