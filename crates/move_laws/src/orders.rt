//! The laws of orders and ranks.

ghost use Rattle.std.specs.Prelude.{◌≡◌, ◌<◌, ◌≤◌, ℕ, suc, List, false};
ghost use Rattle.zx_calculus.specs.Graph.{Graph, WellFormed};
ghost use Rattle.zx_calculus.specs.Splits.{new_vertex};
ghost use Rattle.zx_calculus.specs.Steps.{Step, IsStep, SplitInput, SplitOutput};
ghost use Rattle.move_laws.specs.Orders.{HasFlowAlong, order_after, is_split};
ghost use Rattle.move_laws.specs.Ranks.{HasFlowBy, ranked};

/// Where a graph has a flow along an order, the graph after a rewrite has one along the order after
/// it.
pub fn each_rewrite_keeps_a_flow_along()
    ensures { (g : Graph) (s : Step) (h : Graph) (order : List ℕ) → WellFormed g → IsStep g s h →
        HasFlowAlong g order → HasFlowAlong h (order_after g s order) }
{}

/// A rewrite that splits nothing leaves all ranks as they are, also that of a vertex that goes. A
/// split of an input gives the new vertex a rank below all others, one of an output gives the old
/// vertex a rank above them.
pub fn each_rewrite_keeps_a_flow_by_rank()
    ensures no_split { (g : Graph) (s : Step) (h : Graph) (rank : ℕ → ℕ) (low high : ℕ) →
        WellFormed g → is_split s ≡ false → IsStep g s h → HasFlowBy g rank low high →
        HasFlowBy h rank low high }
    ensures split_input { (g : Graph) (b : ℕ) (h : Graph) (rank : ℕ → ℕ) (low high : ℕ) →
        WellFormed g → IsStep g (SplitInput b) h → HasFlowBy g rank (suc low) high → low < high →
        HasFlowBy h (ranked (new_vertex g) low rank) low high }
    ensures split_output { (g : Graph) (b : ℕ) (h : Graph) (rank : ℕ → ℕ) (low high : ℕ) →
        WellFormed g → IsStep g (SplitOutput b) h → HasFlowBy g rank low high → low ≤ high →
        HasFlowBy h (ranked b high rank) low (suc high) }
{}
