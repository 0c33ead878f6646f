//! Laws of diagram files.

ghost use Rattle.std.specs.Prelude.{◌≡◌, ◌≤◌, ◌⊎◌, ℕ, List, length};
ghost use Rattle.zx_diagram.specs.Diagram.{Diagram};
ghost use Rattle.zx_text.specs.Reading.{most_bytes};
ghost use Rattle.diagram_text.specs.Reading.{SpellsDiagram, IsBadLine};

/// A text is the file of one diagram at most, has one bad line at most, and is no file if it has
/// one.
pub fn texts_have_one_reading()
    ensures one_diagram { (text : List ℕ) (d e : Diagram) → length text ≤ most_bytes →
        SpellsDiagram text d → SpellsDiagram text e → d ≡ e }
    ensures one_bad_line { (text : List ℕ) (line other : ℕ) →
        IsBadLine text line → IsBadLine text other → line ≡ other }
    ensures no_file { (text : List ℕ) (line : ℕ) (d : Diagram) →
        IsBadLine text line → SpellsDiagram text d → ⊥ }
{}

/// A text of at most 16,777,216 bytes is a file or has a bad line, never both.
pub fn each_text_is_a_file_or_has_a_bad_line()
    ensures either { (text : List ℕ) → length text ≤ most_bytes →
        ((d : Diagram) × SpellsDiagram text d) ⊎ ((line : ℕ) × IsBadLine text line) }
    ensures never_both { (text : List ℕ) (line : ℕ) (d : Diagram) →
        IsBadLine text line → SpellsDiagram text d → ⊥ }
{}
