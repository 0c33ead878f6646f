//! The laws: what calls of the header's gates come to, and the definitions in other words.

ghost use Rattle.std.specs.Prelude.{◌≡◌, ℕ, ◌+◌, ◌*◌, Bool, false, ◌&&◌, if◌then◌else◌, List, [], ◌∷◌, length, Some, Ok, codes};
ghost use Rattle.zx_model.specs.Number.{zero, one, neg, mul, sign, root_power};
ghost use Rattle.zx_model.specs.Phase.{half_turn, quarter_turn, eighth_turn, opposite_phase};
ghost use Rattle.zx_model.specs.Bits.{xor, bit};
ghost use Rattle.zx_gates.specs.Maps.{phase, same_bits, swap_two};
ghost use Rattle.qasm_angle.specs.Sixteenths.{phase_of_angle};
ghost use Rattle.qasm_angle.specs.declared.angle.Angle.{Angle};
ghost use Rattle.qasm_scope.specs.Calls.{expand_declared};
ghost use Rattle.qasm_scope.specs.Meaning.{with_header};
ghost use Rattle.qasm_scope.specs.Scope.{Scope, is_declared};
ghost use Rattle.header_laws.specs.Calls.{HasMap, half_of};
ghost use Rattle.zx_model.specs.Constants.{i, two, root_of_two};
ghost use Rattle.header_laws.specs.Gates.{product, identity, pauli_x, pauli_y, pauli_z, hadamard, root_of_x, other_root_of_x, rotation_x, rotation_y, rotation_z, rotation_zz, three_rotations, single, controlled};

/// Gates without angles are the gates of their names.
pub fn gates_without_angles()
    // on one qubit
    ensures id { HasMap (codes "id") [] (0 ∷ []) (single identity) }
    ensures x { HasMap (codes "x") [] (0 ∷ []) (single pauli_x) }
    ensures y { HasMap (codes "y") [] (0 ∷ []) (single pauli_y) }
    ensures z { HasMap (codes "z") [] (0 ∷ []) (single pauli_z) }
    ensures h { HasMap (codes "h") [] (0 ∷ []) (single hadamard) }
    ensures s { HasMap (codes "s") [] (0 ∷ []) (single (phase quarter_turn)) }
    ensures sdg { HasMap (codes "sdg") [] (0 ∷ []) (single (phase (half_turn + quarter_turn))) }
    ensures t { HasMap (codes "t") [] (0 ∷ []) (single (phase eighth_turn)) }
    ensures tdg { HasMap (codes "tdg") [] (0 ∷ []) (single (phase (opposite_phase eighth_turn))) }
    ensures sx { HasMap (codes "sx") [] (0 ∷ []) (single root_of_x) }
    ensures sxdg { HasMap (codes "sxdg") [] (0 ∷ []) (single other_root_of_x) }

    // on two qubits
    ensures cx { HasMap (codes "cx") [] (0 ∷ 1 ∷ []) (controlled one (single pauli_x)) }
    ensures cy { HasMap (codes "cy") [] (0 ∷ 1 ∷ []) (controlled one (single pauli_y)) }
    ensures cz { HasMap (codes "cz") [] (0 ∷ 1 ∷ []) (controlled one (single pauli_z)) }
    ensures ch { HasMap (codes "ch") [] (0 ∷ 1 ∷ []) (controlled root_of_two (single hadamard)) }
    ensures swap { HasMap (codes "swap") [] (0 ∷ 1 ∷ []) swap_two }

    // on three qubits: the Toffoli gate, the Fredkin gate, and Z under two controls
    ensures ccx { HasMap (codes "ccx") [] (0 ∷ 1 ∷ 2 ∷ [])
        (controlled one (controlled one (single pauli_x))) }
    ensures cswap { HasMap (codes "cswap") [] (0 ∷ 1 ∷ 2 ∷ [])
        (controlled one swap_two) }
    ensures ccz { HasMap (codes "ccz") [] (0 ∷ 1 ∷ 2 ∷ [])
        (controlled one (controlled one (single pauli_z))) }
{}

/// Gates with angles are the gates of their names, where their angles are whole numbers of sixteenth
/// turns.
pub fn gates_with_angles()
    // on one qubit
    ensures u1 { (a : Angle) (k : ℕ) → phase_of_angle a ≡ Some k
        → HasMap (codes "u1") (a ∷ []) (0 ∷ []) (single (phase k)) }
    ensures p { (a : Angle) (k : ℕ) → phase_of_angle a ≡ Some k
        → HasMap (codes "p") (a ∷ []) (0 ∷ []) (single (phase k)) }
    ensures rx { (a : Angle) (k : ℕ) → phase_of_angle a ≡ Some k
        → HasMap (codes "rx") (a ∷ []) (0 ∷ []) (single (rotation_x k)) }
    ensures ry { (a : Angle) (k : ℕ) → phase_of_angle a ≡ Some k
        → HasMap (codes "ry") (a ∷ []) (0 ∷ []) (single (rotation_y k)) }
    ensures rz { (a : Angle) (k : ℕ) → phase_of_angle a ≡ Some k
        → HasMap (codes "rz") (a ∷ []) (0 ∷ []) (single (rotation_z k)) }
    ensures u2 { (a b : Angle) (j k : ℕ) → phase_of_angle a ≡ Some j → phase_of_angle b ≡ Some k →
        HasMap (codes "u2") (a ∷ b ∷ []) (0 ∷ []) (single (three_rotations quarter_turn j k)) }
    ensures u3 { (a b c : Angle) (i j k : ℕ) → phase_of_angle a ≡ Some i → phase_of_angle b ≡ Some j
        → phase_of_angle c ≡ Some k →
        HasMap (codes "u3") (a ∷ b ∷ c ∷ []) (0 ∷ []) (single (three_rotations i j k)) }
    ensures u { (a b c : Angle) (i j k : ℕ) → phase_of_angle a ≡ Some i → phase_of_angle b ≡ Some j
        → phase_of_angle c ≡ Some k →
        HasMap (codes "u") (a ∷ b ∷ c ∷ []) (0 ∷ []) (single (three_rotations i j k)) }

    // on two qubits
    ensures rzz { (a : Angle) (k : ℕ) → phase_of_angle a ≡ Some k
        → HasMap (codes "rzz") (a ∷ []) (0 ∷ 1 ∷ []) (rotation_zz k) }
{}

/// Gates that halve an angle are the gates of their names, where the half is a whole number k of
/// sixteenth turns. The angle is 2*k sixteenth turns then, up to two whole turns, and the scalar
/// exp(i*angle/2) of the rotations is z^k.
pub fn gates_with_half_angles()
    ensures crx { (a half : Angle) (k : ℕ) → half_of a ≡ Ok half → phase_of_angle half ≡ Some k
        → HasMap (codes "crx") (a ∷ []) (0 ∷ 1 ∷ [])
        (controlled (mul two (root_power k)) (single (rotation_x (2 * k)))) }
    ensures cry { (a half : Angle) (k : ℕ) → half_of a ≡ Ok half → phase_of_angle half ≡ Some k
        → HasMap (codes "cry") (a ∷ []) (0 ∷ 1 ∷ [])
        (controlled (mul two (root_power k)) (single (rotation_y (2 * k)))) }
    ensures crz { (a half : Angle) (k : ℕ) → half_of a ≡ Ok half → phase_of_angle half ≡ Some k
        → HasMap (codes "crz") (a ∷ []) (0 ∷ 1 ∷ [])
        (controlled (root_power k) (single (rotation_z (2 * k)))) }
    ensures cu1 { (a half : Angle) (k : ℕ) → half_of a ≡ Ok half → phase_of_angle half ≡ Some k →
        HasMap (codes "cu1") (a ∷ []) (0 ∷ 1 ∷ []) (controlled one (single (phase (2 * k)))) }
    ensures cp { (a half : Angle) (k : ℕ) → half_of a ≡ Ok half → phase_of_angle half ≡ Some k →
        HasMap (codes "cp") (a ∷ []) (0 ∷ 1 ∷ []) (controlled one (single (phase (2 * k)))) }
{}

/// Whatever is declared before the header, a name that isn't declared there comes to the same after the header.
pub fn the_header_means_the_same_in_each_scope()
    ensures { (scope : Scope) (name : List ℕ) → is_declared name scope ≡ false → (depth : ℕ)
        (angles : List Angle) (qubits : List ℕ) → expand_declared (with_header scope) name depth angles qubits
        ≡ expand_declared (with_header []) name depth angles qubits }
{}

/// The definitions in other words.
pub fn worked_definitions()
    ensures i_is_a_root_of_minus_one { mul i i ≡ neg one }
    ensures root_of_two_squared { mul root_of_two root_of_two ≡ two }
    ensures hadamard_squared { (row column : Bool)
        → product hadamard hadamard row column ≡ mul two (identity row column) }
    ensures x_y { (row column : Bool)
        → product pauli_x pauli_y row column ≡ mul i (pauli_z row column) }
    ensures root_of_x_squared { (row column : Bool)
        → product root_of_x root_of_x row column ≡ mul two (mul two (pauli_x row column)) }
    ensures roots_of_x { (row column : Bool)
        → product root_of_x other_root_of_x row column ≡ mul two (mul two (identity row column)) }
    // half a turn about x and about y, times 2*exp(i*pi/2) = 2*i
    ensures half_turn_x { (row column : Bool)
        → rotation_x half_turn row column ≡ mul two (pauli_x row column) }
    ensures half_turn_y { (row column : Bool)
        → rotation_y half_turn row column ≡ mul two (pauli_y row column) }
    // the third bit changes where the others are 1
    ensures toffoli { (x y : List Bool) → length x ≡ 3 → length y ≡ 3 →
        controlled one (controlled one (single pauli_x)) x y
        ≡ (if same_bits (bit x 0 ∷ bit x 1 ∷ xor (bit x 0 && bit x 1) (bit x 2) ∷ []) y then one else zero) }
    // the second and the third bit change places where the first is 1
    ensures fredkin { (x y : List Bool) → length x ≡ 3 → length y ≡ 3
        → controlled one swap_two x y ≡ (if same_bits
        (if bit x 0 then bit x 0 ∷ bit x 2 ∷ bit x 1 ∷ [] else x) y then one else zero) }
    // the sign changes where all bits are 1
    ensures controlled_z { (x y : List Bool) → length x ≡ 3 → length y ≡ 3 →
        controlled one (controlled one (single pauli_z)) x y
        ≡ (if same_bits x y then sign (bit x 0 && bit x 1 && bit x 2) else zero) }
{}
