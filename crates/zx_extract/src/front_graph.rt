//! A graph under extraction, whose edges between outputs and other vertices stand in rows of the outputs alone.

ghost use Rattle.std.specs.Prelude.{◌≡◌, ◌≢◌, ◌<◌, ◌≤◌, ℕ, true, false, not, ◌&&◌, ◌∷◌, [], length, remove, slice_get, slice_set, Some, IfOk, OnOk};
ghost use Rattle.zx_model.specs.Bits.{member};
ghost use Rattle.zx_calculus.specs.Graph.{End as SeenEnd, kind_of, plane_of, joined, end_vertices, neighbours, with_kinds, is_interior, IsVertex, Interior, WellFormed, plain};
ghost use Rattle.zx_calculus.specs.Graph as zx;
ghost use Rattle.zx_calculus.specs.Turns.{in_plane};
ghost use Rattle.zx_calculus.specs.Edits.{IsToggle, IsRemoval, at_vertex};
ghost use Rattle.zx_calculus.specs.Toggles.{IsToggled, across};
ghost use Rattle.open_graph.specs.Planes.{plane_named};
ghost use Rattle.open_graph.specs.OpenGraph.{most_vertices_in_memory};
ghost use Rattle.circuit_laws.specs.Peeling.{HasPlainOutput};
ghost use Rattle.zx_extract.specs.Internal.FrontGraphs.{row_has, AreOutputsApart, HasRows, IsRowPut, IsMet, IsRowTaken};

use open_graph::{End, OpenGraph, Plane, VertexId, VertexSet};
use std::alloc::{AllocError, Global};
use std::marker::Model;
use zx_flow::VertexSets;
use zx_model::Sixteenth;

// A graph, seen as its vertices and ends, its edges between two outputs or two other vertices, and for each output's
// vertex a row: the other vertices that are adjacent to it. What the graph itself tells of edges between outputs and
// other vertices doesn't matter, so a row changes without the rows of those in it.
#[derive(Drop)]
pub(crate) struct FrontGraph {
    inner: OpenGraph,
    rows: VertexSets,
}

impl Model for FrontGraph {
    ghost use Rattle.zx_extract.specs.Internal.FrontGraphs.{FrontGraph as Seen};

    ghost Value = { Seen };

    ghost use Rattle.zx_calculus.specs.Graph.{WellFormed};
    ghost use Rattle.zx_extract.specs.Internal.FrontGraphs.{front_graph};

    ghost view = { λ f. record { graph = front_graph f.inner.graph f.rows.lists } };

    ghost invariant = { λ f. WellFormed f.inner.graph };
}

impl FrontGraph {
    // The same graph.
    pub(crate) fn of_graph(alloc: Global, graph: OpenGraph) -> Result<FrontGraph, AllocError>
        ensures { IfOk result (λ f. f.graph ≡ graph.graph) }
    {
        let rows = rows_of(alloc, &graph)?;
        Ok(FrontGraph { inner: graph, rows })
    }

    // The inputs.
    pub(crate) fn inputs(&self) -> &[End]
        ensures value { result.now ≡ self.now.graph.inputs }
        ensures valid { WellFormed self.now.graph }
    {
        self.inner.inputs()
    }

    // The outputs.
    pub(crate) fn outputs(&self) -> &[End]
        ensures value { result.now ≡ self.now.graph.outputs }
        ensures valid { WellFormed self.now.graph }
    {
        self.inner.outputs()
    }

    // The vertex of an output.
    pub(crate) fn output_vertex(&self, i: usize) -> VertexId
        requires { i < length self.now.graph.outputs }
        ensures value { slice_get (end_vertices self.now.graph.outputs) i ≡ Some result }
        ensures valid { WellFormed self.now.graph }
    {
        self.inner.output_vertex(i)
    }

    // Whether a vertex has an input.
    pub(crate) fn has_input(&self, v: VertexId) -> bool
        requires { IsVertex self.now.graph v }
        ensures { result ≡ member v (end_vertices self.now.graph.inputs) }
    {
        self.inner.input_at(v).is_some()
    }

    // How many vertices there are.
    pub(crate) fn vertex_count(&self) -> usize
        ensures value { result ≡ length self.now.graph.vertices }
        ensures few { length self.now.graph.vertices ≤ most_vertices_in_memory }
    {
        self.inner.vertex_count()
    }

    // Plane and phase of a vertex.
    pub(crate) fn weight(&self, v: VertexId) -> (Plane, Sixteenth)
        requires { IsVertex self.now.graph v }
        ensures value { in_plane (plane_named result.0) result.1 ≡ kind_of self.now.graph.vertices v }
        ensures valid { WellFormed self.now.graph }
    {
        self.inner.weight(v)
    }

    // Gives a vertex another plane and phase.
    pub(crate) fn set_weight(&mut self, v: VertexId, plane: Plane, phase: Sixteenth)
        requires live { IsVertex self.old.graph v }
        requires plane { is_interior self.old.graph v ≡ false → plane_named plane ≡ zx.XY }
        ensures ok { self.new.graph ≡ record self.old.graph {
          vertices = with_kinds (at_vertex v (λ _. in_plane (plane_named plane) phase)) self.old.graph.vertices;
        } }
        ensures valid { WellFormed self.new.graph }
    {
        self.inner.set_weight(v, plane, phase);
    }

    // Gives an output another end at the same vertex.
    pub(crate) fn set_output(&mut self, i: usize, end: End)
        requires same { (e : SeenEnd) × (slice_get self.old.graph.outputs i ≡ Some e) × (e.vertex ≡ end.vertex) }
        requires in_range { i < length self.old.graph.outputs }
        requires live { IsVertex self.old.graph end.vertex }
        requires plane { plane_of self.old.graph end.vertex ≡ zx.XY }
        requires free { member end.vertex (end_vertices (remove self.old.graph.outputs i)) ≡ false }
        ensures ok { self.new.graph ≡ record self.old.graph { outputs = slice_set self.old.graph.outputs i end } }
        ensures valid { WellFormed self.new.graph }
    {
        self.inner.move_output(i, end);
    }

    // Whether the vertex u of an output has a neighbour v that is none.
    pub(crate) fn has(&self, u: VertexId, v: VertexId) -> bool
        ensures { member u (end_vertices self.now.graph.outputs) ≡ true → IsVertex self.now.graph v →
            member v (end_vertices self.now.graph.outputs) ≡ false → result ≡ joined self.now.graph.edges v u }
    {
        self.rows.get(u).contains(v)
    }

    // How many neighbours that are no outputs the vertex of an output has.
    pub(crate) fn degree(&self, u: VertexId) -> usize {
        self.rows.get(u).len()
    }

    // Whether the vertices of two outputs are adjacent.
    pub(crate) fn has_edge(&self, u: VertexId, v: VertexId) -> bool
        requires u_output { member u (end_vertices self.now.graph.outputs) ≡ true }
        requires v_output { member v (end_vertices self.now.graph.outputs) ≡ true }
        ensures value { result ≡ joined self.now.graph.edges u v }
        ensures valid { WellFormed self.now.graph }
    {
        self.inner.has_edge(u, v)
    }

    // Toggles the edge between the vertices of two outputs.
    pub(crate) fn toggle_edge(&mut self, u: VertexId, v: VertexId) -> Result<(), AllocError>
        requires u_output { member u (end_vertices self.old.graph.outputs) ≡ true }
        requires v_output { member v (end_vertices self.old.graph.outputs) ≡ true }
        requires different { u ≢ v }
        ensures ok { OnOk result (IsToggle self.old.graph u v self.new.graph) }
        ensures valid { WellFormed self.new.graph }
    {
        self.inner.toggle_edge(u, v)
    }

    // Adds the row of an output's vertex to that of another, where no edge joins outputs.
    pub(crate) fn add_row(&mut self, u: VertexId, v: VertexId) -> Result<(), AllocError>
        requires u_output { member u (end_vertices self.old.graph.outputs) ≡ true }
        requires v_output { member v (end_vertices self.old.graph.outputs) ≡ true }
        requires apart { AreOutputsApart self.old.graph }
        ensures ok { OnOk result
            (IsToggled self.old.graph (across (v ∷ []) (neighbours self.old.graph u)) self.new.graph) }
        ensures valid { WellFormed self.new.graph }
    {
        self.rows.toggle_set(v, u)
    }

    // Gives the vertex u of an output the neighbours of v that aren't outputs, in place of its own, where no edge joins
    // outputs.
    pub(crate) fn replace_row(&mut self, v: VertexId, u: VertexId) -> Result<(), AllocError>
        requires live { IsVertex self.old.graph v }
        requires no_output { member v (end_vertices self.old.graph.outputs) ≡ false }
        requires u_output { member u (end_vertices self.old.graph.outputs) ≡ true }
        requires apart { AreOutputsApart self.old.graph }
        ensures { OnOk result (IsRowTaken self.old.graph v u self.new.graph) }
    {
        let row = inner_row(&self.inner, v)?;
        put_row(&mut self.rows, u, &row)
    }

    // Moves an output from its vertex u, which goes, to a vertex v.
    pub(crate) fn move_output(
        &mut self,
        t: usize,
        u: VertexId,
        v: VertexId,
    ) -> Result<(), AllocError>
        requires output { HasPlainOutput self.old.graph t u }
        requires live { IsVertex self.old.graph v }
        requires plane { plane_of self.old.graph v ≡ zx.XY }
        requires no_output { member v (end_vertices self.old.graph.outputs) ≡ false }
        requires no_input { member u (end_vertices self.old.graph.inputs) ≡ false }
        ensures { OnOk result (IsRemoval
            (record self.old.graph { outputs = slice_set self.old.graph.outputs t (plain v) }) u self.new.graph) }
    {
        let row = inner_row(&self.inner, v)?;
        meet_outputs(&mut self.inner, &self.rows, v)?;
        self.inner.move_output(t, End::plain(v));
        self.inner.remove_vertex(u);
        self.rows.clear(u);
        put_row(&mut self.rows, v, &row)?;
        forget(&mut self.rows, self.inner.outputs(), v)
    }

    // Takes away a vertex without ends.
    pub(crate) fn remove_vertex(&mut self, v: VertexId) -> Result<(), AllocError>
        requires live { IsVertex self.old.graph v }
        requires interior { Interior self.old.graph v }
        ensures { OnOk result (IsRemoval self.old.graph v self.new.graph) }
    {
        forget(&mut self.rows, self.inner.outputs(), v)?;
        self.inner.remove_vertex(v);
        Ok(())
    }
}

// The row of each output.
fn rows_of(alloc: Global, g: &OpenGraph) -> Result<VertexSets, AllocError>
    ensures rows { IfOk result (λ rows. HasRows g.now.graph (end_vertices g.now.graph.outputs) rows.lists) }
    ensures valid { WellFormed g.now.graph }
{
    let mut rows = VertexSets::new(alloc);
    for output in g.outputs() {
        let row = inner_row(g, output.vertex)?;
        put_row(&mut rows, output.vertex, &row)?;
    }
    Ok(rows)
}

// Puts a row in the place of that of a vertex.
fn put_row(rows: &mut VertexSets, u: VertexId, row: &VertexSet) -> Result<(), AllocError>
    ensures { OnOk result (IsRowPut rows.old.lists u row.now.ids rows.new.lists) }
{
    rows.clear(u);
    rows.toggle(u, row)
}

// The neighbours of a vertex that aren't outputs.
fn inner_row(g: &OpenGraph, v: VertexId) -> Result<VertexSet, AllocError>
    requires { IsVertex g.now.graph v }
    ensures { IfOk result (λ row. (w : ℕ) → member w row.ids ≡
        (joined g.now.graph.edges v w && not (member w (end_vertices g.now.graph.outputs)))) }
{
    let row = g.neighbour_set(v).clone()?;
    without_ends(row, g.outputs())
}

// A set without the vertices of ends.
fn without_ends(set: VertexSet, ends: &[End]) -> Result<VertexSet, AllocError>
    ensures { IfOk result (λ left. (w : ℕ) → member w left.ids ≡
        (member w set.ids && not (member w (end_vertices ends.now)))) }
{
    let mut left = set;
    for end in ends {
        if !left.contains(end.vertex) {
            continue;
        }
        left.toggle(end.vertex)?;
    }
    Ok(left)
}

// Makes a vertex adjacent to the outputs whose rows have it, and to no others.
fn meet_outputs(g: &mut OpenGraph, rows: &VertexSets, v: VertexId) -> Result<(), AllocError>
    requires live { IsVertex g.old.graph v }
    requires no_output { member v (end_vertices g.old.graph.outputs) ≡ false }
    ensures met { OnOk result
        (IsMet g.old.graph rows.now.lists v (end_vertices g.old.graph.outputs) g.new.graph) }
    ensures valid { WellFormed g.new.graph }
{
    let end = g.outputs().len();
    for i in 0..end {
        let output = g.output_vertex(i);
        if rows.get(output).contains(v) == g.has_edge(v, output) {
            continue;
        }
        g.toggle_edge(v, output)?;
    }
    Ok(())
}

// Takes a vertex out of the rows of outputs.
fn forget(rows: &mut VertexSets, outputs: &[End], v: VertexId) -> Result<(), AllocError>
    ensures { OnOk result ((p q : ℕ) → q ≢ v → row_has rows.new.lists p q ≡ row_has rows.old.lists p q) }
{
    for output in outputs {
        if !rows.get(output.vertex).contains(v) {
            continue;
        }
        rows.toggle_one(output.vertex, v)?;
    }
    Ok(())
}
