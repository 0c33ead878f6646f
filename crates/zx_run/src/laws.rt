//! Laws of texts: what is accepted, and what is refused.

ghost use Rattle.std.specs.Prelude.{◌≡◌, ◌⊎◌, ℕ, List};
ghost use Rattle.zx_gates.specs.declared.elementary.Elementary.{Elementary};
ghost use Rattle.zx_diagram.specs.Diagram.{Diagram};
ghost use Rattle.zx_run.specs.declared.status.Fault.{Fault};
ghost use Rattle.zx_run.specs.FirstFault.{IsAccepted, IsFaultless, IsFirstFault, MeansCircuit};
ghost use Rattle.zx_run.specs.DiagramFiles.{IsDiagramFile, IsFirstDiagramFault, IsFirstSquareFault, IsSquare};
ghost use Rattle.zx_run.specs.TwoTexts.{AreAccepted, IsFirstFaultOfTwo};

/// A text is accepted or has a first fault, never both; it has one first fault at most, and means
/// one circuit at most.
pub fn each_text_is_accepted_or_has_a_first_fault()
    ensures either { (text : List ℕ) →
        IsFaultless text ⊎ ((fault : Fault) × IsFirstFault text fault) }
    ensures never_both { (text : List ℕ) (fault : Fault) →
        IsFirstFault text fault → IsFaultless text → ⊥ }
    ensures one_fault { (text : List ℕ) (this that : Fault) → IsFirstFault text this
        → IsFirstFault text that → this ≡ that }
    ensures one_circuit { (text : List ℕ) (this that : Elementary) → IsAccepted text this
        → IsAccepted text that → this ≡ that }
{}

/// A text means one circuit at most, also where it is longer or makes more calls than a text that
/// is read may.
pub fn each_text_means_one_circuit_at_most()
    ensures { (text : List ℕ) (this that : Elementary) → MeansCircuit text this
        → MeansCircuit text that → this ≡ that }
{}

/// Two texts in one are accepted or have a first fault, never both; they have one first fault at
/// most, and mean one pair of circuits at most.
pub fn two_texts_are_accepted_or_have_a_first_fault()
    ensures either { (text : List ℕ) → ((one other : Elementary) × AreAccepted text one other)
        ⊎ ((fault : Fault) × IsFirstFaultOfTwo text fault) }
    ensures never_both { (text : List ℕ) (fault : Fault) (one other : Elementary) →
        IsFirstFaultOfTwo text fault → AreAccepted text one other → ⊥ }
    ensures one_fault { (text : List ℕ) (this that : Fault) → IsFirstFaultOfTwo text this
        → IsFirstFaultOfTwo text that → this ≡ that }
    ensures one_pair { (text : List ℕ) (a b c d : Elementary) → AreAccepted text a b
        → AreAccepted text c d → (a ≡ c) × (b ≡ d) }
{}

/// A text is the file of one diagram at most, has one first fault at most as such a file, and is no
/// file if it has one; likewise where the diagram is to have as many outputs as inputs.
pub fn diagram_files_have_one_reading()
    ensures one_diagram { (text : List ℕ) (d e : Diagram) →
        IsDiagramFile text d → IsDiagramFile text e → d ≡ e }
    ensures one_fault { (text : List ℕ) (this that : Fault) →
        IsFirstDiagramFault text this → IsFirstDiagramFault text that → this ≡ that }
    ensures no_file { (text : List ℕ) (fault : Fault) (d : Diagram) →
        IsFirstDiagramFault text fault → IsDiagramFile text d → ⊥ }
    ensures one_square_fault { (text : List ℕ) (this that : Fault) →
        IsFirstSquareFault text this → IsFirstSquareFault text that → this ≡ that }
    ensures no_square_file { (text : List ℕ) (fault : Fault) (d : Diagram) →
        IsFirstSquareFault text fault → IsDiagramFile text d → IsSquare d → ⊥ }
{}
