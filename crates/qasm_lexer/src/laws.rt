//! What holds of the cuts of every text.

ghost use Rattle.std.specs.Prelude.{◌≡◌, ◌⊎◌, ◌<◌, ◌+◌, ◌^◌, ◌++◌, ℕ, List, length, codes};
ghost use Rattle.qasm_lexer.specs.Tokens.{Lexeme, IsCut, IsBadByte, AreInPlace};
ghost use Rattle.qasm_lexer.specs.Worked.{gate_line, gate_line_tokens, gate_on, gate_on_tokens};

/// A text has one cut or one bad byte, and never both.
pub fn one_cut()
    ensures either { (text : List ℕ) → ((tokens : List Lexeme) × IsCut 0 text tokens)
        ⊎ ((at : ℕ) × IsBadByte text at) }
    ensures same_tokens { (text : List ℕ) (place : ℕ) (these those : List Lexeme)
        → IsCut place text these → IsCut place text those → these ≡ those }
    ensures same_byte { (text : List ℕ) (this that : ℕ) → IsBadByte text this → IsBadByte text that
        → this ≡ that }
    ensures not_both { (text : List ℕ) (tokens : List Lexeme) (at : ℕ) → IsCut 0 text tokens
        → IsBadByte text at → ⊥ }
    ensures in_place { (text : List ℕ) (tokens : List Lexeme) → IsCut 0 text tokens
        → AreInPlace 0 text tokens }
{}

/// A cut of a text that ends with a line feed, and a cut of what follows it, are a cut of both together.
pub fn cuts_of_lines_go_together()
    ensures { (place : ℕ) (line after : List ℕ) (these those : List Lexeme) → IsCut place (line ++ codes "\n") these
        → IsCut (place + length (line ++ codes "\n")) after those
        → IsCut place ((line ++ codes "\n") ++ after) (these ++ those) }
{}

/// A line, a line with a number in it wherever it stands, and one after the other.
pub fn worked_cuts()
    ensures line { IsCut 0 gate_line gate_line_tokens }
    ensures number { (place n : ℕ) → n < 2 ^ 64 → IsCut place (gate_on n) (gate_on_tokens place n) }
    ensures both { (n : ℕ) → n < 2 ^ 64 → IsCut 0 (gate_line ++ gate_on n)
        (gate_line_tokens ++ gate_on_tokens (length gate_line) n) }
{}
