//! The verdict on a table of corrections.

ghost use Rattle.std.specs.Prelude.{◌≡◌, ◌↔◌, ℕ, IfOk};
ghost use Rattle.gflow_laws.specs.Seen.{seen};
ghost use Rattle.gflow_laws.specs.Flow.{IsTableOf, IsFlow};
ghost use Rattle.flow_check.specs.declared.verdict.Condition.{Condition};
ghost use Rattle.flow_check.specs.declared.verdict.Verdict.TheVariants.{Flow, Fails};
ghost use Rattle.flow_check.specs.Failures.{IsFirstFailure};

use crate::conditions::{first_failing, input_set};
use crate::verdict::Verdict;
use open_graph::{OpenGraph, VertexSet};
use std::alloc::{AllocError, Global};
use zx_flow::FlowTable;

/// Whether a table is a generalised flow of a graph, or where it fails first. Each set costs as
/// much as the rows of its members.
///
/// # Errors
///
/// Where memory runs out.
pub fn check(alloc: Global, g: &OpenGraph, t: &FlowTable) -> Result<Verdict, AllocError>
    requires { IsTableOf (seen g.now.graph) t.now.table }
    ensures flow { IfOk result (λ verdict. (verdict ≡ Flow) ↔ IsFlow g.now.graph t.now.table) }
    ensures fails { IfOk result (λ verdict. (v : ℕ) (condition : Condition) →
        (verdict ≡ Fails v condition) ↔
        IsFirstFailure (seen g.now.graph) t.now.table v condition) }
{
    let inputs = input_set(alloc, g)?;
    let mut passed = VertexSet::new(alloc);
    for v in t.order() {
        if let Some(condition) = first_failing(alloc, g, t, &inputs, &passed, *v)? {
            return Ok(Verdict::Fails {
                vertex: *v,
                condition,
            });
        }
        passed.toggle(*v)?;
    }
    Ok(Verdict::Flow)
}
