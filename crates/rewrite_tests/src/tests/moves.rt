//! The next move of small graphs, drawn by hand: new vertices have the ids 0, 1, 2 and so on.

use super::drawings::{add_input, id, join};
use open_graph::{OpenGraph, Plane};
use std::alloc::Global;
use std::process::Abort;
use std::test::Fail;
use zx_model::Sixteenth;
use zx_moves::{KINDS, Move, next_move};

// What is done with a graph: vertices are added, joined and given inputs, and the next move is told.
#[derive(Clone, Copy)]
enum Act {
    Vertex(Plane, u8),
    Edge(usize, usize),
    Input(usize),
    Next(Option<Move>),
}

// Adds an XY vertex of so many sixteenth turns.
fn xy(turns: u8) -> Act {
    Act::Vertex(Plane::XY, turns)
}

// Adds a YZ vertex of so many sixteenth turns.
fn yz(turns: u8) -> Act {
    Act::Vertex(Plane::YZ, turns)
}

// The next move is this one.
fn next(wanted: Move) -> Act {
    Act::Next(Some(wanted))
}

// Does one act after the other with a graph without vertices.
fn follow(rt: &impl Abort, alloc: Global, acts: &[Act]) -> Result<(), Fail> {
    follow_on(rt, &mut OpenGraph::new(alloc), acts)
}

// At a place of the acts, the next move is this one.
fn is_next(rt: &impl Abort, graph: &OpenGraph, wanted: Option<Move>, place: usize) {
    assert_eq!(rt; next_move(graph), wanted, "at {place}");
}

fn follow_on(rt: &impl Abort, graph: &mut OpenGraph, acts: &[Act]) -> Result<(), Fail> {
    for (i, act) in acts.iter().enumerate() {
        match act {
            Act::Vertex(plane, turns) => {
                graph.add_vertex(*plane, Sixteenth::new(*turns % 16))?;
            }
            Act::Edge(u, v) => join(rt, graph, id(*u), id(*v))?,
            Act::Input(v) => add_input(rt, graph, id(*v), false)?,
            Act::Next(wanted) => is_next(rt, graph, *wanted, i),
        }
    }
    Ok(())
}

// A spider of a quarter turn, interior, and then earlier kinds at later vertices.
#[test]
fn vertices_that_go_by_themselves(rt: HostRuntime) -> Result<(), Fail> {
    assert!(rt; Move::Delete(id(4)).kind() == KINDS[0]);
    let acts = [
        Act::Next(None),
        xy(2),
        Act::Next(None),
        xy(12),
        Act::Edge(0, 1),
        next(Move::QuarterSpider(id(1))),
        Act::Vertex(Plane::XZ, 6),
        Act::Edge(0, 2),
        next(Move::FromXZ(id(2))),
        yz(4),
        Act::Edge(0, 3),
        next(Move::QuarterGadget(id(3))),
        yz(8),
        Act::Edge(0, 4),
        next(Move::Delete(id(4))),
    ];
    follow(&rt, rt.alloc(), &acts)
}

// A spider of half a turn beside a vertex with an input, and then with more neighbours.
#[test]
fn pivots(rt: HostRuntime) -> Result<(), Fail> {
    let acts = [
        xy(8),
        xy(0),
        Act::Input(1),
        Act::Edge(0, 1),
        next(Move::BoundaryPivot(id(0), id(1))),
        // Two interior neighbours: the pivot with the second one adds fewer edges.
        xy(2),
        xy(6),
        xy(10),
        Act::Edge(0, 2),
        Act::Edge(0, 3),
        Act::Edge(2, 1),
        Act::Edge(2, 4),
        next(Move::InnerPivot(id(0), id(3))),
        // The first one has more neighbours, but the pivot with it takes out more edges.
        Act::Edge(3, 1),
        Act::Edge(4, 1),
        next(Move::InnerPivot(id(0), id(2))),
    ];
    follow(&rt, rt.alloc(), &acts)
}

// Two gadgets, at first without legs.
#[test]
fn gadgets_go_alone_and_in_pairs(rt: HostRuntime) -> Result<(), Fail> {
    let acts = [
        yz(2),
        next(Move::LoneGadget(id(0))),
        yz(6),
        Act::Edge(0, 1),
        next(Move::GadgetPair(id(0), id(1))),
    ];
    follow(&rt, rt.alloc(), &acts)
}

// The spiders 0, 1 and 2, and gadgets on them: 3 on 0 and 1, 4 on 0 and 2, and one more on 0, and then on
// 0 and 1.
#[test]
fn gadgets_are_fused(rt: HostRuntime) -> Result<(), Fail> {
    let acts = [
        xy(2),
        xy(6),
        xy(10),
        yz(14),
        Act::Edge(3, 0),
        Act::Edge(3, 1),
        yz(2),
        Act::Edge(4, 0),
        Act::Edge(4, 2),
        Act::Next(None),
        yz(6),
        Act::Edge(5, 0),
        next(Move::SingleGadget(id(5))),
        Act::Edge(5, 1),
        next(Move::Twins(id(3), id(5))),
    ];
    follow(&rt, rt.alloc(), &acts)
}
