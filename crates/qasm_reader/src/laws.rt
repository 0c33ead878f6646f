//! Laws of the grammar.

ghost use Rattle.std.specs.Prelude.{◌≡◌, ◌↔◌, ◌⊎◌, ◌++◌, List, ℕ, None, Some};
ghost use Rattle.qasm_lexer.specs.Tokens.{Lexeme};
ghost use Rattle.qasm_reader.specs.Depth.{too_deep, IsShallow, IsTooDeep};
ghost use Rattle.qasm_reader.specs.Grammar.{IsExpression, IsStatement, IsProgram, IsSyntaxFault};
ghost use Rattle.qasm_reader.specs.Postfix.{postfix, formula_of};
ghost use Rattle.qasm_reader.specs.Syntax.{Formula, Sentence, Placed};

/// Tokens are one program at most.
pub fn one_program()
    ensures { (ts : List Lexeme) (a b : List Placed) → IsProgram ts a → IsProgram ts b → a ≡ b }
{}

/// Tokens are one expression at most.
pub fn one_expression()
    ensures { (ts : List Lexeme) (f g : Formula) → IsExpression f ts → IsExpression g ts → f ≡ g }
{}

/// No statement begins another: where two of them begin the same tokens, they are one, and so is what follows.
pub fn no_statement_begins_another()
    ensures { (a b : Sentence) (us vs x y : List Lexeme) → IsStatement a us → IsStatement b vs
        → us ++ x ≡ vs ++ y → (a ≡ b) × (us ≡ vs) × (x ≡ y) }
{}

/// Tokens are a program or have a syntax fault, never both, and one syntax fault at most.
pub fn one_syntax_fault()
    ensures either { (ts : List Lexeme) → ((statements : List Placed) × IsProgram ts statements)
        ⊎ ((at : ℕ) × IsSyntaxFault ts at) }
    ensures one { (ts : List Lexeme) (m n : ℕ) → IsSyntaxFault ts m → IsSyntaxFault ts n → m ≡ n }
    ensures none { (ts : List Lexeme) (statements : List Placed) (n : ℕ) → IsProgram ts statements
        → IsSyntaxFault ts n → ⊥ }
{}

/// What is too deep, said by prefixes of the tokens.
pub fn depth_by_prefixes()
    ensures deep { (ts : List Lexeme) (at : ℕ) → (too_deep ts ≡ Some at) ↔ IsTooDeep ts at }
    ensures shallow { (ts : List Lexeme) → (too_deep ts ≡ None) ↔ IsShallow ts }
{}

/// An expression is told by its postfix order.
pub fn postfix_order_tells_the_expression()
    ensures { (f : Formula) → formula_of (postfix f) ≡ f }
{}
