//! Gates that are peeled off a graph one after the other make a circuit.

ghost use Rattle.std.specs.Prelude.{◌≡◌, ◌≢◌, ◌<◌, ℕ, Bool, List, [], ◌∷◌, ◌++◌, length};
ghost use Rattle.zx_model.specs.Number.{Number, zero, one, mul};
ghost use Rattle.zx_model.specs.Phase.{half_turn};
ghost use Rattle.zx_model.specs.Proportional.{Proportional};
ghost use Rattle.zx_calculus.specs.Graph.{Graph};
ghost use Rattle.zx_model.specs.Constants.{two};
ghost use Rattle.zx_calculus.specs.Sum.{graph_sum};
ghost use Rattle.zx_gates.specs.Maps.{amp};
ghost use Rattle.circuit_laws.specs.Followed.{followed, Peels, PeelsAt, Ends, EndsAt, IsMultiple};

use zx_gates::Gate;

/// Gates that are peeled off one after the other, from the last one on, are the circuit. Others with the same map
/// may stand in their place.
pub fn peeling_composes()
    ensures then { (g h k : Graph) (first second : List Gate) →
        Peels g second h → Peels h first k → Peels g (first ++ second) k }
    ensures end { (g h : Graph) (first second : List Gate) →
        Peels g second h → Ends h first → Ends g (first ++ second) }
    ensures other { (g h : Graph) (gates others : List Gate) (d : Number) → d ≢ zero →
        Peels g gates h → IsMultiple d (length h.outputs) gates others → Peels g others h }
{}

/// The same with the costs, which multiply.
pub fn costs_multiply()
    ensures nothing { (g : Graph) → PeelsAt one g [] g }
    ensures then { (c d : Number) (g h k : Graph) (first second : List Gate) →
        PeelsAt c g second h → PeelsAt d h first k → PeelsAt (mul c d) g (first ++ second) k }
    ensures end { (c d : Number) (g h : Graph) (first second : List Gate) →
        PeelsAt c g second h → EndsAt d h first → EndsAt (mul c d) g (first ++ second) }
    ensures other { (c d : Number) (g h : Graph) (gates others : List Gate) → d ≢ zero →
        PeelsAt c g gates h → IsMultiple d (length h.outputs) gates others →
        PeelsAt (mul c d) g others h }
{}

/// What a graph makes of functions of its output bits has its sum in it, and a graph that is gates has their map.
pub fn the_sum_of_peeled_graphs()
    ensures entry { (g : Graph) (x y : List Bool) → length y ≡ length g.outputs →
        followed g (λ z. amp [] z y) x ≡ graph_sum g x y }
    ensures map { (g : Graph) (gates : List Gate) → Ends g gates →
        Proportional (length g.inputs) (length g.outputs) (graph_sum g) (amp gates) }
    ensures exact { (c : Number) (g : Graph) (gates : List Gate) → EndsAt c g gates →
        (x y : List Bool) → length x ≡ length g.inputs → length y ≡ length g.outputs →
        graph_sum g x y ≡ mul c (amp gates x y) }
{}

/// Cx is H, Cz and H, and Not is H, a half turn and H, with a factor two.
pub fn gates_by_hadamards()
    ensures cx { (n c t : ℕ) → t < n → c ≢ t →
        IsMultiple two n (Gate.H t ∷ Gate.Cz c t ∷ Gate.H t ∷ []) (Gate.Cx c t ∷ []) }
    ensures not { (n q : ℕ) → q < n →
        IsMultiple two n (Gate.H q ∷ Gate.Phase q half_turn ∷ Gate.H q ∷ []) (Gate.Not q ∷ []) }
{}
