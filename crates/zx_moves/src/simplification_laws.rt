//! What moves of simplification are. The functions do nothing: their contracts are the laws.

ghost use Rattle.std.specs.Prelude.{◌≡◌, ◌<◌, ◌≤◌, ◌+◌, ◌*◌, ℕ, true, List, ◌∷◌, length};
ghost use Rattle.zx_calculus.specs.Graph.{XY, Graph, plane_of, IsVertex, WellFormed};
ghost use Rattle.zx_calculus.specs.Moves.{IsStuck};
ghost use Rattle.zx_calculus.specs.Reduced.{IsReduced};
ghost use Rattle.zx_calculus.specs.Steps as calculus;
ghost use Rattle.zx_calculus.specs.Steps.{IsRun, allowed};
ghost use Rattle.gflow_laws.specs.Flow.{Correction, IsFlow};
ghost use Rattle.gflow_laws.specs.Kept.{IsKept};
ghost use Rattle.zx_moves.specs.declared.moves.Move.{Move};
ghost use Rattle.zx_moves.specs.Search.{AppliesAt, IsOfFirstKind};
ghost use Rattle.zx_moves.specs.Moving.{steps_of, IsMoved, AreMoves, most_moves};

/// Each move lowers the number of moves that a graph allows at most, and consists of one to six
/// rewrites.
pub fn moves_are_short()
    ensures lowers { (g h : Graph) (m : Move) → WellFormed g → AppliesAt g m →
        IsRun g (steps_of g m) h → most_moves h < most_moves g }
    ensures some { (g : Graph) (m : Move) → 1 ≤ length (steps_of g m) }
    ensures six { (g : Graph) (m : Move) → length (steps_of g m) ≤ 6 }
{}

/// Where a move of the first kind applies, each of its rewrites can be done after those before it.
pub fn moves_can_be_made()
    ensures { (g : Graph) (m : Move) → WellFormed g → AppliesAt g m → IsOfFirstKind g m →
        (h : Graph) × IsMoved g m h }
{}

/// Where a move of the first kind that applies anywhere is made, the rewrite that it begins with is
/// allowed. So the one neighbour of a single gadget is XY, and twins aren't adjacent.
pub fn moves_begin_allowed()
    ensures { (g : Graph) (m : Move) (s : calculus.Step) (rest : List calculus.Step) →
        WellFormed g → AppliesAt g m → IsOfFirstKind g m → steps_of g m ≡ s ∷ rest →
        allowed g s ≡ true }
{}

/// Moves one after the other are a run, of at most six rewrites for each. They are no more than the
/// number that they lower. A graph with a flow keeps one, its sum up to a scalar other than zero,
/// and gains no odd phases.
pub fn moves_are_a_run()
    ensures run { (g : Graph) (n : ℕ) (steps : List calculus.Step) (h : Graph) →
        AreMoves g n steps h → IsRun g steps h }
    ensures six { (g : Graph) (n : ℕ) (steps : List calculus.Step) (h : Graph) →
        AreMoves g n steps h → length steps ≤ 6 * n }
    ensures few { (g : Graph) (n : ℕ) (steps : List calculus.Step) (h : Graph) → WellFormed g →
        AreMoves g n steps h → n + most_moves h ≤ most_moves g }
    ensures kept { (g : Graph) (n : ℕ) (steps : List calculus.Step) (h : Graph)
        (table : List Correction) → WellFormed g → IsFlow g table → AreMoves g n steps h →
        IsKept g h }
{}

/// A graph all of whose vertices are XY, as that of a circuit, allows at most twice as many moves
/// as it has vertices.
pub fn graphs_of_circuits_allow_few_moves()
    ensures most { (g : Graph) → WellFormed g → ((v : ℕ) → IsVertex g v → plane_of g v ≡ XY) →
        most_moves g ≤ 2 * length g.vertices }
    ensures moves { (g : Graph) (n : ℕ) (steps : List calculus.Step) (h : Graph) → WellFormed g →
        ((v : ℕ) → IsVertex g v → plane_of g v ≡ XY) → AreMoves g n steps h →
        n ≤ 2 * length g.vertices }
{}

/// In a graph with a flow, no move is left exactly where it is reduced.
pub fn moves_end_in_reduced_graphs()
    ensures reduced { (g : Graph) (table : List Correction) → WellFormed g → IsFlow g table →
        IsStuck g → IsReduced g }
    ensures stuck { (g : Graph) → WellFormed g → IsReduced g → IsStuck g }
{}
