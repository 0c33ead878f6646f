//! Laws of graph files.

ghost use Rattle.std.specs.Prelude.{◌≡◌, ◌≤◌, ◌⊎◌, ℕ, List, Option, IfSome, true, length};
ghost use Rattle.zx_calculus.specs.Graph.{Graph, WellFormed};
ghost use Rattle.gflow_laws.specs.Flow.{Correction};
ghost use Rattle.zx_text.specs.Files.{Two, spelled};
ghost use Rattle.zx_text.specs.Numbered.{numbered, numbered_flow};
ghost use Rattle.zx_text.specs.Reading.{most_bytes, most_ends, Wanted, is_wanted, IsFlowOfFile, Spells, IsFileText, IsBadLine};

/// A text is the file of one graph and one flow at most, has one bad line at most, and is no file if
/// it has one.
pub fn texts_have_one_reading()
    ensures one_file { (text : List ℕ) (g h : Graph) (table other : Option (List Correction)) →
        length text ≤ most_bytes → Spells text g table → Spells text h other →
        (g ≡ h) × (table ≡ other) }
    ensures one_bad_line { (wanted : Wanted) (text : List ℕ) (line other : ℕ) →
        IsBadLine wanted text line → IsBadLine wanted text other → line ≡ other }
    ensures no_file { (wanted : Wanted) (text : List ℕ) (line : ℕ) (g : Graph)
        (table : Option (List Correction)) → IsBadLine wanted text line → Spells text g table →
        is_wanted wanted table ≡ true → ⊥ }
{}

/// A text of at most 16,777,216 bytes is a file or has a bad line, never both; and so for the files
/// that have a flow.
pub fn each_text_is_a_file_or_has_a_bad_line()
    ensures either { (wanted : Wanted) (text : List ℕ) → length text ≤ most_bytes →
        IsFileText wanted text ⊎ ((line : ℕ) × IsBadLine wanted text line) }
    ensures never_both { (wanted : Wanted) (text : List ℕ) (line : ℕ) →
        IsBadLine wanted text line → IsFileText wanted text → ⊥ }
{}

/// The file of a graph with at most 1,024 inputs and as many outputs spells the graph and its flow,
/// with the vertices numbered from 0 by rising id.
pub fn files_spell_numbered_graphs()
    ensures spells { (g : Graph) (flow : Option (List Correction)) → WellFormed g →
        length g.inputs ≤ most_ends → length g.outputs ≤ most_ends → IfSome flow (IsFlowOfFile g) →
        Spells (spelled Two (numbered g) (numbered_flow g flow)) (numbered g) (numbered_flow g flow) }
{}
