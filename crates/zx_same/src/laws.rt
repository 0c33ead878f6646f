//! The laws of bare graphs. The functions do nothing: their contracts are the laws.

ghost use Rattle.std.specs.Prelude.{◌≡◌, ◌↔◌, [], true, length};
ghost use Rattle.zx_model.specs.Proportional.{Proportional};
ghost use Rattle.zx_calculus.specs.Graph.{Graph, WellFormed};
ghost use Rattle.zx_calculus.specs.Sum.{graph_sum};
ghost use Rattle.zx_gates.specs.Maps.{amp};
ghost use Rattle.zx_same.specs.Bare.{has_only_ends, is_bare};

/// The sum of a bare graph is the identity's map, up to a number other than 0.
pub fn bare_graphs_are_the_identity()
    ensures { (g : Graph) → WellFormed g → is_bare g ≡ true →
        Proportional (length g.inputs) (length g.inputs) (graph_sum g) (amp []) }
{}

/// A graph of which no vertex is interior has the identity's map, up to a number other than 0, exactly
/// where it is bare.
pub fn identity_graphs_are_bare()
    ensures { (g : Graph) → WellFormed g → has_only_ends g ≡ true → length g.inputs ≡ length g.outputs →
        (is_bare g ≡ true) ↔ Proportional (length g.inputs) (length g.inputs) (graph_sum g) (amp []) }
{}
