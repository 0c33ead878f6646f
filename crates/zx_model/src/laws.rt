//! The laws of the exact numbers, of proportionality, of bits and of sums over labels. The functions do
//! nothing: their contracts are the laws.

ghost use Rattle.std.specs.Prelude.{◌≡◌, ◌≢◌, ◌<◌, ◌≤◌, ◌+◌, ℕ, Bool, false, ◌&&◌, List, ◌∷◌, ◌++◌, map, length};
ghost use Rattle.zx_model.specs.Number.{Number, zero, one, add, neg, mul, root_power, sign};
ghost use Rattle.zx_model.specs.Phase.{turn, half_turn, quarter_turn, sum_of_phases, opposite_phase, is_odd};
ghost use Rattle.zx_model.specs.Bits.{xor, one_if};
ghost use Rattle.zx_model.specs.Sums.{total, all_labels, label_of, over, sum_over};
ghost use Rattle.zx_model.specs.Proportional.{Proportional};
ghost use Rattle.zx_model.specs.declared.scalar.Scalar.{Scalar};
ghost use Rattle.zx_model.specs.Scalar.{IsScaled, one_scalar, product_of_scalars, quotient_of_scalars};

/// Numbers form a commutative ring.
pub fn numbers_form_a_commutative_ring()
    ensures sum_commutes { (a b : Number) → add a b ≡ add b a }
    ensures sum_associates { (a b c : Number) → add (add a b) c ≡ add a (add b c) }
    ensures zero_is_neutral { (a : Number) → add a zero ≡ a }
    ensures opposites { (a : Number) → add a (neg a) ≡ zero }

    ensures product_commutes { (a b : Number) → mul a b ≡ mul b a }
    ensures product_associates { (a b c : Number) → mul (mul a b) c ≡ mul a (mul b c) }
    ensures one_is_neutral { (a : Number) → mul a one ≡ a }
    ensures product_distributes { (a b c : Number) → mul a (add b c) ≡ add (mul a b) (mul a c) }
{}

/// The powers of z are the values exp(i*pi/8*k): a half turn is minus one, a whole turn is one, and
/// phases add.
pub fn root_is_a_primitive_sixteenth_root()
    ensures half_turn_is_minus_one { root_power half_turn ≡ neg one }
    ensures whole_turn_is_one { root_power turn ≡ one }
    ensures phases_add { (j k : ℕ) → root_power (sum_of_phases j k) ≡ mul (root_power j) (root_power k) }
    ensures opposite_phases_cancel { (k : ℕ) → k < turn → mul (root_power (opposite_phase k)) (root_power k) ≡ one }
    ensures powers_are_nonzero { (k : ℕ) → root_power k ≢ zero }
{}

/// Which phases are odd: those that are no sum of quarter turns. An even phase that is added changes
/// nothing, and a sum counts at most as its two phases do.
pub fn which_phases_are_odd()
    ensures quarter { (k : ℕ) → is_odd (sum_of_phases k quarter_turn) ≡ is_odd k }
    ensures opposite { (k : ℕ) → k < turn → is_odd (opposite_phase k) ≡ is_odd k }
    ensures even_added { (j k : ℕ) → is_odd k ≡ false → is_odd (sum_of_phases j k) ≡ is_odd j }
    ensures counted { (j k : ℕ) →
        one_if (is_odd (sum_of_phases j k)) ≤ one_if (is_odd j) + one_if (is_odd k) }
{}

/// A product is zero only where a factor is, so that factors other than zero cancel.
pub fn numbers_have_no_zero_divisors()
    ensures one_is_nonzero { one ≢ zero }
    ensures product_is_nonzero { (a b : Number) → a ≢ zero → b ≢ zero → mul a b ≢ zero }
    ensures factor_cancels { (a b c : Number) → a ≢ zero → mul a b ≡ mul a c → b ≡ c }
{}

/// Being equal up to a scalar other than zero is an equivalence.
pub fn proportionality_is_an_equivalence()
    ensures reflexive { (n m : ℕ) (f : List Bool → List Bool → Number) → Proportional n m f f }
    ensures symmetric { (n m : ℕ) (f g : List Bool → List Bool → Number) → Proportional n m f g → Proportional n m g f }
    ensures transitive { (n m : ℕ) (f g h : List Bool → List Bool → Number) →
        Proportional n m f g → Proportional n m g h → Proportional n m f h }
{}

/// A matrix that is a scalar times another, times another again, is the product times that; the quotient goes
/// back. So matrices are equal up to scalars other than zero.
pub fn scalars_multiply()
    ensures unit { (n m : ℕ) (f : List Bool → List Bool → Number) → IsScaled n m f one_scalar f }
    ensures products { (n m : ℕ) (f g h : List Bool → List Bool → Number) (s t : Scalar) →
        IsScaled n m f s g → IsScaled n m g t h → IsScaled n m f (product_of_scalars s t) h }
    ensures quotients { (n m : ℕ) (f g h : List Bool → List Bool → Number) (s t : Scalar) → t.turn < turn →
        IsScaled n m f s g → IsScaled n m h t g → IsScaled n m f (quotient_of_scalars s t) h }
    ensures proportional { (n m : ℕ) (f g : List Bool → List Bool → Number) (s : Scalar) →
        IsScaled n m f s g → Proportional n m f g }
{}

/// Bits form a field, with `xor` as the sum and `&&` as the product; `sign` takes their sum to a product.
pub fn bits_form_a_field()
    ensures sum_commutes { (a b : Bool) → xor a b ≡ xor b a }
    ensures sum_associates { (a b c : Bool) → xor (xor a b) c ≡ xor a (xor b c) }
    ensures each_is_its_opposite { (a : Bool) → xor a a ≡ false }
    ensures product_distributes { (a b c : Bool) → (a && xor b c) ≡ xor (a && b) (a && c) }
    ensures signs_multiply { (a b : Bool) → mul (sign a) (sign b) ≡ sign (xor a b) }
{}

/// Sums over the labels of named things.
pub fn sums_over_labels()
    // The sum over all lists of bits, read as labels of the listed names, is the sum name by name.
    ensures all_lists { (vs : List ℕ) (f : (ℕ → Bool) → Number) →
        total (map (λ hs. f (label_of vs hs)) (all_labels (length vs))) ≡ sum_over vs f }

    // The order of summation doesn't matter, whether or not the names differ.
    ensures order { (u v : ℕ) (f : (ℕ → Bool) → Number) (label : ℕ → Bool) →
        over u (over v f) label ≡ over v (over u f) label }
    ensures pulled_to_the_front { (pre : List ℕ) (u : ℕ) (post : List ℕ) (f : (ℕ → Bool) → Number) →
        sum_over (pre ++ u ∷ post) f ≡ sum_over (pre ++ post) (over u f) }

    // A constant factor of each summand is one of the sum.
    ensures scaled { (c d : Number) (vs : List ℕ) (f g : (ℕ → Bool) → Number) →
        ((label : ℕ → Bool) → mul c (f label) ≡ mul d (g label)) →
        mul c (sum_over vs f) ≡ mul d (sum_over vs g) }
{}
