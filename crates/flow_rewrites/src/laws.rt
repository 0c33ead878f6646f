//! What steps keep, in any order. The functions do nothing: their contracts are the laws.

ghost use Rattle.std.specs.Prelude.{List, map};
ghost use Rattle.zx_calculus.specs.Graph.{Graph, WellFormed};
ghost use Rattle.zx_calculus.specs.Steps.{IsRun};
ghost use Rattle.gflow_laws.specs.Flow.{Correction, IsFlow};
ghost use Rattle.gflow_laws.specs.Kept.{IsKept};
ghost use Rattle.graph_rewrites.specs.declared.step.Step.{Step};
ghost use Rattle.graph_rewrites.specs.Steps.{step_named};
ghost use Rattle.flow_rewrites.specs.Applied.{State, AreApplied};

/// Whatever a list of steps leads to from a graph with a flow has a flow, a sum that is the old one
/// up to a scalar other than zero, and no more odd phases.
pub fn every_run_keeps_a_flow()
    ensures { (g : Graph) (steps : List Step) (h : Graph) (table : List Correction) →
        WellFormed g → IsFlow g table → IsRun g (map step_named steps) h → IsKept g h }
{}

/// Where `apply` answers Ok each time, the steps are a run from the first graph to the last, and the
/// flow that is kept beside the last graph is one of it.
pub fn applied_steps_are_a_run()
    ensures run { (s : State) (steps : List Step) (t : State) → AreApplied s steps t →
        IsRun s.graph (map step_named steps) t.graph }
    ensures kept { (s : State) (steps : List Step) (t : State) → WellFormed s.graph →
        IsFlow s.graph s.flow → AreApplied s steps t → IsKept s.graph t.graph }
    ensures flow { (s : State) (steps : List Step) (t : State) → WellFormed s.graph →
        IsFlow s.graph s.flow → AreApplied s steps t → IsFlow t.graph t.flow }
{}
