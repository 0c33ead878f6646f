//! Which steps are tried at a vertex.

ghost use Rattle.zx_calculus.specs.Graph.{IsVertex};

use crate::levels::{LEVELS, level_in};
use crate::twins::Twins;
use graph_rewrites::{Step, is_gadget};
use open_graph::{OpenGraph, Plane, VertexId};
use zx_model::Sixteenth;
use zx_moves::pivot_cost;

// A spider with more neighbours isn't moved along its wire at once.
const MOST_MOVED: usize = 32;

// A spider that goes with an end alone has this level, the highest: it waits until all other moves are made. So ends are
// split along a ladder of CX, and not against it, and the flow's rows stay short.
const LEVEL_OF_ENDS: u8 = 15;

// What is to be done at a vertex.
#[derive(Clone, Copy, Debug)]
pub(crate) enum Plan {
    // A step, and where it was done perhaps another one.
    Steps(Step, Option<Step>),
    // The vertex waits for groups of blocks of this level to end.
    Wait(u8),
    // A pivot with a neighbour of which the ends are split.
    AtEnd(VertexId),
    // Nothing.
    Nothing,
}

// What is told of all vertices: their levels, by number, and whether gates still come.
#[derive(Clone, Copy, Debug)]
pub(crate) struct Setting<'a> {
    pub(crate) levels: &'a [u8],
    pub(crate) takes_gates: bool,
}

// What is to be done at a vertex.
pub(crate) fn plan_at(g: &OpenGraph, u: VertexId, setting: Setting<'_>, twins: &mut Twins) -> Plan {
    if !g.is_live(u) || !g.is_interior(u) {
        return Plan::Nothing;
    }
    let (plane, phase) = g.weight(u);
    match plane {
        Plane::XY => spider_plan(g, u, phase, setting),
        Plane::XZ if phase.is_half_turns() => Plan::Steps(Step::Delete(u), None),
        Plane::XZ => Plan::Steps(Step::LocalComplement(u), None),
        Plane::YZ => gadget_plan(g, u, phase, twins),
    }
}

// The step by which a spider goes that is between another one and the last one of its wire, and the first of the
// vertices that become one: the other two where they do so by a pivot, or the last alone where an edge joins them.
pub(crate) fn plan_between(g: &OpenGraph, u: VertexId, last: VertexId) -> Option<(Step, VertexId)> {
    if !g.is_live(u) || !g.is_interior(u) || g.degree(u) != 2 {
        return None;
    }
    let (plane, phase) = g.weight(u);
    if plane != Plane::XY || phase.is_odd() {
        return None;
    }
    if phase.is_quarter_turn() {
        return Some((Step::LocalComplement(u), last));
    }
    for v in g.neighbours(u) {
        if may_move(g, v) {
            return Some((Step::Pivot(u, v), v));
        }
    }
    None
}

// Whether a vertex may be moved along its wire at once.
fn may_move(g: &OpenGraph, v: VertexId) -> bool
    requires { IsVertex g.now.graph v }
{
    g.is_interior(v) && g.degree(v) <= MOST_MOVED
}

// A spider of a quarter turn goes by a local complement, one of half turns by a pivot.
fn spider_plan(g: &OpenGraph, u: VertexId, phase: Sixteenth, setting: Setting<'_>) -> Plan
    requires { IsVertex g.now.graph u }
{
    if phase.is_odd() {
        return Plan::Nothing;
    }
    if phase.is_quarter_turn() {
        return Plan::Steps(Step::LocalComplement(u), Some(Step::Delete(u)));
    }
    match partner_of(g, u, setting) {
        Partner::Found(v) => Plan::Steps(Step::Pivot(u, v), Some(Step::Delete(u))),
        Partner::Later(level) => Plan::Wait(level),
        Partner::Never if setting.takes_gates => Plan::Nothing,
        Partner::Never => match g.neighbours(u).next() {
            Some(_) if level_in(setting.levels, u) < usize::from(LEVEL_OF_ENDS) => {
                Plan::Wait(LEVEL_OF_ENDS)
            }
            Some(v) => Plan::AtEnd(v),
            None => Plan::Nothing,
        },
    }
}

// A gadget goes where its phase is even, and is fused where it can be.
fn gadget_plan(g: &OpenGraph, u: VertexId, phase: Sixteenth, twins: &mut Twins) -> Plan
    requires { IsVertex g.now.graph u }
{
    if phase.is_half_turns() {
        return Plan::Steps(Step::Delete(u), None);
    }
    if phase.is_quarter_turn() {
        return Plan::Steps(Step::LocalComplement(u), Some(Step::Delete(u)));
    }
    if g.degree(u) == 0 {
        return Plan::Steps(Step::DropLone(u), None);
    }
    if let Some(v) = g.neighbours(u).find(|v| is_gadget(g, *v)) {
        return Plan::Steps(Step::Pivot(u, v), None);
    }
    if g.degree(u) == 1 {
        return Plan::Steps(Step::FuseInto(u), None);
    }
    match twins.find(g, u) {
        Some(twin) => Plan::Steps(Step::FuseTwin(twin, u), None),
        None => Plan::Nothing,
    }
}

// With which vertex another may be pivoted: a neighbour without ends, of no higher level.
#[derive(Clone, Copy, Debug)]
enum Partner {
    Found(VertexId),
    // With one of this level.
    Later(u8),
    Never,
}

// Of the partners of a vertex the one whose pivot costs least.
fn partner_of(g: &OpenGraph, u: VertexId, setting: Setting<'_>) -> Partner
    requires { IsVertex g.now.graph u }
{
    let own = level_in(setting.levels, u);
    let mut best = None;
    let mut least = 0;
    let mut higher = LEVELS;
    for v in g.neighbours(u) {
        let its = level_beside(g, v, setting, own);
        if its > own {
            higher = higher.min(its);
            continue;
        }
        let cost = pivot_cost(g, u, v);
        if best.is_none() || cost < least {
            best = Some(v);
            least = cost;
        }
    }
    match best {
        Some(v) => Partner::Found(v),
        None if higher < LEVELS => Partner::Later(higher as u8),
        None => Partner::Never,
    }
}

// At which level a neighbour of a vertex of a level may be its partner: one with an output later, while gates come,
// any other one with an end never.
fn level_beside(g: &OpenGraph, v: VertexId, setting: Setting<'_>, own: usize) -> usize
    requires { IsVertex g.now.graph v }
{
    if g.is_interior(v) {
        return level_in(setting.levels, v);
    }
    if setting.takes_gates && g.output_at(v).is_some() {
        return own.saturating_add(1);
    }
    LEVELS
}
