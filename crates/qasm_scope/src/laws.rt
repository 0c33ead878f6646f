//! Laws of the header.

ghost use Rattle.std.specs.Prelude.{◌≡◌, false, ◌∷◌, List, ℕ, map, None, ◌++◌};
ghost use Rattle.std.specs.List.{list_any};
ghost use Rattle.qasm_reader.specs.Syntax.{DeclareGate, GateForm, Placed};
ghost use Rattle.qasm_scope.specs.Faults.{wrong_in};
ghost use Rattle.qasm_scope.specs.HeaderGates.{first_gates, further_gates};
ghost use Rattle.qasm_scope.specs.HeaderTrees.{first_trees, further_trees};
ghost use Rattle.qasm_scope.specs.Meaning.{with_first, with_further};
ghost use Rattle.qasm_scope.specs.ProgramTexts.{GatesOf, IsProgramText};
ghost use Rattle.qasm_scope.specs.Scope.{Scope, is_declared};

/// A text is one program at most, and declares one list of gates at most. So it doesn't matter by which proof it is shown
/// which gates the header's texts declare.
pub fn a_text_declares_one_list_of_gates()
    ensures programs { (text : List ℕ) (a b : List Placed) → IsProgramText text a
        → IsProgramText text b → a ≡ b }
    ensures gates { (text : List ℕ) (a b : GatesOf text) → a.gates ≡ b.gates }
{}

/// The texts of the header declare the gates that are written out as trees.
pub fn the_header_declares_its_gates()
    ensures first { first_gates ≡ first_trees }
    ensures further { further_gates ≡ further_trees }
{}

/// Where no name of the first gates is declared, no declaration of the header has a fault: neither a first gate after
/// those that stand before it, nor a further gate whose name is free after those.
pub fn the_header_is_faultless()
    ensures first { (scope : Scope) (prefix : List GateForm) (form : GateForm) (back : List GateForm)
        → list_any (λ form. is_declared form.name scope) first_gates ≡ false
        → first_gates ≡ prefix ++ form ∷ back → wrong_in (with_first prefix scope) (DeclareGate form) ≡ None }
    ensures further { (scope : Scope) (prefix : List GateForm) (form : GateForm) (back : List GateForm)
        → further_gates ≡ prefix ++ form ∷ back → let before = with_further prefix (with_first first_gates scope) in
        is_declared form.name before ≡ false → wrong_in before (DeclareGate form) ≡ None }
{}
