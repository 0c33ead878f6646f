//! How much room simplification needs. The functions do nothing: their contracts are the laws.

ghost use Rattle.std.specs.Prelude.{◌≡◌, ◌≤◌, ◌+◌, ◌++◌, ℕ, List, length};
ghost use Rattle.zx_calculus.specs.Graph.{Graph, WellFormed};
ghost use Rattle.zx_calculus.specs.Steps as calculus;
ghost use Rattle.zx_calculus.specs.Steps.{IsRun};
ghost use Rattle.move_laws.specs.Demand.{demand};
ghost use Rattle.open_graph.specs.OpenGraph.{OpenGraph};
ghost use Rattle.zx_flow.specs.Flows.{Flow};
ghost use Rattle.zx_moves.specs.declared.moves.Move.{Move};
ghost use Rattle.zx_moves.specs.Moving.{steps_of, AreMoves};
ghost use Rattle.flow_rewrites.specs.Rooms.{HasRoom, IsNumberedXY, IsReservedFor};
ghost use Rattle.zx_moves.specs.Traces.{Trace};

/// A graph's demand for ids, one for each vertex and one more for each with both ends, isn't higher
/// after a move, and inside it at most one higher. It is at most one for each vertex and each input.
pub fn moves_raise_no_demand()
    ensures inside { (g : Graph) (m : Move) (first rest : List calculus.Step) (k : Graph) →
        WellFormed g → first ++ rest ≡ steps_of g m → IsRun g first k → demand k ≤ demand g + 1 }
    ensures after { (g : Graph) (m : Move) (h : Graph) → WellFormed g → IsRun g (steps_of g m) h →
        demand h ≤ demand g }
    ensures along { (g : Graph) (n : ℕ) (steps : List calculus.Step) (h : Graph) → WellFormed g →
        AreMoves g n steps h → demand h ≤ demand g }
    ensures most { (g : Graph) → WellFormed g →
        demand g ≤ length g.vertices + length g.inputs }
{}

/// The graph of a circuit of n qubits, all of whose vertices are XY and have the numbers below
/// theirs as ids, has room for simplification once memory was taken for as many vertices, twice n
/// and two more, and for twelve steps a vertex.
pub fn reserved_room_suffices()
    ensures { (g : OpenGraph) (f : Flow) (trace : Trace) → WellFormed g.graph →
        IsNumberedXY g.graph → IsReservedFor g f trace → HasRoom g f trace }
{}
