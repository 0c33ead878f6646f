//! Laws on the circuits of seeds, and worked ones.

ghost use Rattle.std.specs.Prelude.{◌≡◌, ℕ, [], ◌∷◌, length};
ghost use Rattle.rand_core.specs.Steps.{first_words};
ghost use Rattle.rand_pcg.specs.Pcg.{pcg32};
ghost use Rattle.zx_model.specs.Phase.{eighth_turn, opposite_phase};
ghost use Rattle.zx_gates.specs.declared.gate.Gate.TheVariants.{H, Phase, Cz, Cx};
ghost use Rattle.zx_gen.specs.Generator.{seeded, generated};

/// A seed's circuit has as many gates as are asked for.
pub fn circuits_have_as_many_gates_as_asked()
    ensures { (seed n count : ℕ) → length (generated seed n count) ≡ count }
{}

/// The first words of a seed, and the circuits that they give.
pub fn worked_circuits()
    ensures words_of_7 { first_words pcg32 4 (seeded 7)
        ≡ 0xf2393151 ∷ 0x7fbbcd3a ∷ 0xa3537acf ∷ 0xc9ca4c3f ∷ [] }
    ensures three_qubits { generated 7 3 5
        ≡ Phase 1 (opposite_phase eighth_turn) ∷ Cx 2 0 ∷ Cz 2 1 ∷ Phase 0 eighth_turn ∷
        Cx 1 2 ∷ [] }
    ensures one_qubit { generated 7 1 5
        ≡ Phase 0 (opposite_phase eighth_turn) ∷ H 0 ∷ H 0 ∷ H 0 ∷ Phase 0 eighth_turn ∷ [] }
    ensures no_gate { generated 7 1 0 ≡ [] }
{}
