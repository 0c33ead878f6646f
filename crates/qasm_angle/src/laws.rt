//! Laws of lowest terms, of expressions and of sixteenth turns, and worked examples. The functions
//! do nothing: their contracts are the laws.

ghost use Rattle.std.specs.Prelude.{◌≡◌, ◌<◌, ◌++◌, ◌∷◌, [], ℕ, List, ℤ, pos, negsuc, neg_ℤ, ◌*ℤ◌, unsigned_abs, Some, None, Ok, Err, codes};
ghost use Rattle.std.specs.Int.{IsGcd};
ghost use Rattle.qasm_angle.specs.Ratio.{Ratio, gcd, lowest};
ghost use Rattle.qasm_angle.specs.Literals.{literal_value};
ghost use Rattle.qasm_angle.specs.Trees.{Tree, Number, Pi, Negate, Binary, postfix, tree_of};
ghost use Rattle.qasm_angle.specs.Values.{value};
ghost use Rattle.zx_model.specs.Phase.{eighth_turn, opposite_phase};
ghost use Rattle.qasm_angle.specs.Sixteenths.{IsSixteenths, phase_of_angle};
ghost use Rattle.qasm_angle.specs.Worked.{ratio, numeral, of_pi};
ghost use Rattle.qasm_angle.specs.declared.angle.Angle.{Angle};
ghost use Rattle.qasm_angle.specs.declared.errors.AngleFault.TheVariants as cause;
ghost use Rattle.qasm_angle.specs.declared.expression.Operation.{Operation};
ghost use Rattle.qasm_angle.specs.declared.expression.Operation.TheVariants as operator;
ghost use Rattle.qasm_angle.specs.declared.expression.ExprItem.TheVariants as step;

/// Lowest terms are those of school.
pub fn lowest_terms()
    ensures greatest_common_divisor { (a b : ℕ) → IsGcd a b (gcd a b) }
    ensures positive { (a : ℤ) (b : ℕ) → 0 < b → 0 < (lowest a b).denominator }
    ensures no_common_divisor { (a : ℤ) (b : ℕ) → 0 < b
        → gcd (unsigned_abs (lowest a b).numerator) (lowest a b).denominator ≡ 1 }
    ensures same_fraction { (a : ℤ) (b : ℕ) → 0 < b
        → (lowest a b).numerator *ℤ pos b ≡ a *ℤ pos (lowest a b).denominator }
    // Equal fractions in lowest terms have the same numerator and denominator.
    ensures unique { (x y : Ratio) → 0 < x.denominator → 0 < y.denominator →
        gcd (unsigned_abs x.numerator) x.denominator ≡ 1 → gcd (unsigned_abs y.numerator) y.denominator ≡ 1 →
        x.numerator *ℤ pos y.denominator ≡ y.numerator *ℤ pos x.denominator → x ≡ y }
{}

/// The steps of an expression give its tree back, and they are put together from those of its operands.
pub fn steps_of_trees()
    ensures back { (t : Tree) → tree_of (postfix t) ≡ t }
    ensures one_tree { (t u : Tree) → postfix t ≡ postfix u → t ≡ u }
    ensures negation { (a : Tree) → postfix (Negate a) ≡ postfix a ++ step.Negate ∷ [] }
    ensures operation { (operator : Operation) (a b : Tree)
        → postfix (Binary operator a b) ≡ postfix a ++ postfix b ++ step.Binary operator ∷ [] }
{}

/// An angle is n*pi/8 for one whole number n at most.
pub fn sixteenths_are_unique()
    ensures { (a : Angle) (m n : ℤ) → 0 < a.multiple.denominator →
        IsSixteenths a m → IsSixteenths a n → m ≡ n }
{}

/// Numbers and their values.
#[tactic(auto, unfolding(crate::specs::Ratio::gcd, crate::specs::Ratio::lowest, crate::specs::Ratio::limited, crate::specs::Literals::decimal, crate::specs::Literals::literal_value))]
pub fn worked_numbers()
    ensures quarter { literal_value (codes "0.25") ≡ Some (ratio (pos 1) 4) }
    ensures no_whole_part { literal_value (codes ".5") ≡ Some (ratio (pos 1) 2) }
    ensures no_places { literal_value (codes "3.") ≡ Some (ratio (pos 3) 1) }
    ensures zeros { literal_value (codes "007.50") ≡ Some (ratio (pos 15) 2) }
    ensures zero { literal_value (codes "0.000") ≡ Some (ratio (pos 0) 1) }
    ensures raised { literal_value (codes "1.0e3") ≡ Some (ratio (pos 1000) 1) }
    ensures lowered { literal_value (codes "2.5e-3") ≡ Some (ratio (pos 1) 400) }
    ensures largest { literal_value (codes "1152921504606846976")
        ≡ Some (ratio (pos 1152921504606846976) 1) }
    ensures past_the_largest { literal_value (codes "1152921504606846977") ≡ None }
    ensures most_digits { literal_value
        (codes "0.000000000000000055511151231257827021181583404541015625")
        ≡ Some (ratio (pos 1) 18014398509481984) }
    ensures too_many_digits { literal_value
        (codes "0.0000000000000000277555756156289135105907917022705078125") ≡ None }
{}

/// Expressions and their angles.
#[tactic(auto, unfolding(crate::specs::Ratio::gcd, crate::specs::Ratio::lowest, crate::specs::Ratio::limited, crate::specs::Literals::decimal, crate::specs::Literals::literal_value, crate::specs::Values::applied))]
pub fn worked_angles()
    ensures half { value (Binary operator.Divide Pi (numeral 2)) [] ≡ Ok (of_pi (pos 1) 2) }
    ensures minus_quarter { value (Binary operator.Divide (Negate Pi) (numeral 4)) []
        ≡ Ok (of_pi (neg_ℤ (pos 1)) 4) }
    ensures three_quarters { value (Binary operator.Divide (Binary operator.Multiply (numeral 3) Pi)
        (numeral 4)) [] ≡ Ok (of_pi (pos 3) 4) }
    ensures decimal { value (Binary operator.Multiply (Number (literal_value (codes "0.25"))) Pi) []
        ≡ Ok (of_pi (pos 1) 4) }
    ensures twice_half { value (Binary operator.Multiply (numeral 2)
        (Binary operator.Divide Pi (numeral 2))) [] ≡ Ok (of_pi (pos 1) 1) }
    ensures by_zero { value (Binary operator.Divide Pi (numeral 0)) [] ≡ Err cause.Divide }
    ensures pi_squared { value (Binary operator.Multiply Pi Pi) [] ≡ Err cause.NotAnAngle }
    ensures by_pi { value (Binary operator.Divide (numeral 1) Pi) [] ≡ Err cause.NotAnAngle }
    ensures past_the_limit { value (Binary operator.Add (numeral 1152921504606846976) (numeral 1))
        [] ≡ Err cause.TooLarge }
    ensures at_the_limit { value (Binary operator.Subtract (numeral 1152921504606846976)
        (numeral 0)) [] ≡
        Ok (record { rational = ratio (pos 1152921504606846976) 1; multiple = ratio (pos 0) 1 }) }
{}

/// Angles and their phases.
#[tactic(auto, unfolding(crate::specs::Sixteenths::phase_of_angle))]
pub fn worked_phases()
    ensures zero { phase_of_angle (of_pi (pos 0) 1) ≡ Some 0 }
    ensures quarter { phase_of_angle (of_pi (pos 1) 4) ≡ Some eighth_turn }
    ensures minus_quarter { phase_of_angle (of_pi (neg_ℤ (pos 1)) 4) ≡ Some (opposite_phase eighth_turn) }
    ensures seven_quarters { phase_of_angle (of_pi (pos 7) 4) ≡ Some (opposite_phase eighth_turn) }
    ensures nine_quarters { phase_of_angle (of_pi (pos 9) 4) ≡ Some eighth_turn }
    ensures eighth { phase_of_angle (of_pi (pos 1) 8) ≡ Some 1 }
    ensures minus_eighth { phase_of_angle (of_pi (neg_ℤ (pos 1)) 8) ≡ Some 15 }
    ensures sixteenth { phase_of_angle (of_pi (pos 1) 16) ≡ None }
    ensures rational { phase_of_angle (record { rational = ratio (pos 1) 1; multiple = ratio (pos 1) 4 })
        ≡ None }
{}
