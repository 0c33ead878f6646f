//! Open graphs.

ghost use Rattle.std.specs.Prelude.{◌≡◌, ◌≢◌, ◌↔◌, ◌<◌, ◌≤◌, ◌+◌, ◌-◌, ◌++◌, ℕ, [], ◌∷◌, true, false, length, slice_set, remove, is_some, slice_get};
ghost use Rattle.std.specs.Prelude.{IsOk, IfOk, OnOk, OnErr, IfSome};
ghost use Rattle.zx_model.specs.Bits.{member};
ghost use Rattle.zx_calculus.specs.Graph.{ids, is_XY, kind_of, plane_of, joined, end_vertices, insert_vertex, with_kinds, IsVertex, WellFormed, Interior, is_interior};
ghost use Rattle.zx_calculus.specs.Graph as zx;
ghost use Rattle.zx_calculus.specs.Turns.{in_plane, quarter_turned};
ghost use Rattle.zx_calculus.specs.Splits.{least_free};
ghost use Rattle.zx_calculus.specs.Worked.{vertex};
ghost use Rattle.zx_calculus.specs.Edits.{IsToggle, IsRemoval, at_vertex};
ghost use Rattle.zx_calculus.specs.Toggles.{IsToggled, across, among};
ghost use Rattle.zx_bits.specs.Rows.{IsFirstFrom};
ghost use Rattle.zx_bits.specs.Sets.{IsBelow};
ghost use Rattle.open_graph.specs.Planes.{plane_named};
ghost use Rattle.open_graph.specs.Turns.{turned_in, powers_of};
ghost use Rattle.open_graph.specs.OpenGraph.{most_vertices_in_memory};
ghost use Rattle.open_graph.specs.Rooms.{without_place, with_place, IsLeft, IsAtLeast};
ghost use Rattle.open_graph.specs.Internal.Slots.{Tells};

use crate::end::End;
use crate::id::VertexId;
use crate::ids::Ids;
use crate::plane::Plane;
use crate::scratch::Scratch;
use crate::side::{self, Side};
use crate::slot::Slot;
use crate::slot_table::SlotTable;
use crate::slots;
use crate::turn::Turn;
use crate::vertex_set::VertexSet;
use crate::vertices::Vertices;
use std::alloc::{AllocError, Global};
use std::marker::Model;
use zx_model::Sixteenth;

/// An open graph: vertices with planes and phases, edges, and lists of inputs and outputs. It has a
/// reach, 0 at first: edges between vertices whose ids are below it are toggled without memory.
/// Ids are below 2^32: a call that would go past that fails as where memory runs out.
#[derive(Drop)]
pub struct OpenGraph {
    alloc: Global,
    slots: SlotTable,
    inputs: Vec<End>,
    outputs: Vec<End>,
    // Empty rows, from which those of the ids below the reach that no vertex has are taken.
    kept: Vec<VertexSet>,
    // Sets that calls fill, with room for all ids below the reach.
    scratch: Scratch,
    // Each id below it has a row, of its vertex or kept, with room for all ids below it.
    reach: usize,
}

impl Model for OpenGraph {
    ghost use Rattle.open_graph.specs.OpenGraph.{OpenGraph as Seen};

    ghost Value = { Seen };

    ghost use Rattle.open_graph.specs.Internal.Slots.{graph_of};
    ghost use Rattle.open_graph.specs.Internal.Room.{vacant_in, IsStored};

    ghost view = { λ g. record {
      graph = graph_of g.slots.slots g.inputs.items g.outputs.items;
      room = record { spare = vacant_in g.slots.slots; reach = g.reach };
    } };

    ghost invariant = { λ g.
        IsStored g.slots.slots g.inputs.items g.outputs.items g.kept.items g.scratch g.reach };
}

impl OpenGraph {
    /// The graph without vertices and ends.
    pub fn new(alloc: Global) -> OpenGraph
        ensures { result.graph ≡ record { vertices = []; edges = []; inputs = []; outputs = [] } }
    {
        OpenGraph {
            alloc,
            slots: SlotTable::new(alloc),
            inputs: Vec::new(alloc),
            outputs: Vec::new(alloc),
            kept: Vec::new(alloc),
            scratch: Scratch::new(alloc),
            reach: 0,
        }
    }

    /// Adds a vertex without edges and ends, of the least id that is free. Where memory runs out, and
    /// where that id isn't below 2^32, the graph stays as it was.
    pub fn add_vertex(&mut self, plane: Plane, phase: Sixteenth) -> Result<VertexId, AllocError>
        ensures fresh { IfOk result (λ v. member v (ids self.old.graph.vertices) ≡ false) }
        ensures least { IfOk result (λ v. v ≡ least_free (ids self.old.graph.vertices)) }
        ensures ok { IfOk result (λ v. self.new.graph ≡ record self.old.graph {
          vertices = insert_vertex (vertex v (plane_named plane) phase) self.old.graph.vertices;
        }) }
        ensures err { OnErr result (self.new.graph ≡ self.old.graph) }
        ensures has_room { 0 < self.old.room.spare → IsOk result }
        ensures room { OnOk result (self.new.room ≡ without_place self.old.room) }
        ensures same_room { OnErr result (self.new.room ≡ self.old.room) }
        ensures valid { WellFormed self.new.graph }
    {
        slots::add(&mut self.slots, &mut self.kept, self.alloc, plane, phase)
    }

    /// Adds an input after all others. Where memory runs out the graph stays as it was.
    pub fn add_input(&mut self, end: End) -> Result<(), AllocError>
        requires live { IsVertex self.old.graph end.vertex }
        requires plane { plane_of self.old.graph end.vertex ≡ zx.XY }
        requires free { member end.vertex (end_vertices self.old.graph.inputs) ≡ false }
        ensures ok { OnOk result (self.new.graph ≡
            record self.old.graph { inputs = self.old.graph.inputs ++ end ∷ [] }) }
        ensures err { OnErr result (self.new.graph ≡ self.old.graph) }
        ensures room { self.new.room ≡ self.old.room }
        ensures valid { WellFormed self.new.graph }
    {
        side::add_end(&mut self.inputs, &mut self.slots, Side::Input, end)
    }

    /// Adds an output after all others. Where memory runs out the graph stays as it was.
    pub fn add_output(&mut self, end: End) -> Result<(), AllocError>
        requires live { IsVertex self.old.graph end.vertex }
        requires plane { plane_of self.old.graph end.vertex ≡ zx.XY }
        requires free { member end.vertex (end_vertices self.old.graph.outputs) ≡ false }
        ensures ok { OnOk result (self.new.graph ≡
            record self.old.graph { outputs = self.old.graph.outputs ++ end ∷ [] }) }
        ensures err { OnErr result (self.new.graph ≡ self.old.graph) }
        ensures room { self.new.room ≡ self.old.room }
        ensures valid { WellFormed self.new.graph }
    {
        side::add_end(&mut self.outputs, &mut self.slots, Side::Output, end)
    }

    /// Replaces the input at a place.
    pub fn move_input(&mut self, i: usize, end: End)
        requires in_range { i < length self.old.graph.inputs }
        requires live { IsVertex self.old.graph end.vertex }
        requires plane { plane_of self.old.graph end.vertex ≡ zx.XY }
        requires free { member end.vertex (end_vertices (remove self.old.graph.inputs i)) ≡ false }
        ensures ok { self.new.graph ≡ record self.old.graph { inputs = slice_set self.old.graph.inputs i end } }
        ensures room { self.new.room ≡ self.old.room }
        ensures valid { WellFormed self.new.graph }
    {
        side::move_end(&mut self.inputs, &mut self.slots, Side::Input, i, end);
    }

    /// Replaces the output at a place.
    pub fn move_output(&mut self, i: usize, end: End)
        requires in_range { i < length self.old.graph.outputs }
        requires live { IsVertex self.old.graph end.vertex }
        requires plane { plane_of self.old.graph end.vertex ≡ zx.XY }
        requires free { member end.vertex (end_vertices (remove self.old.graph.outputs i)) ≡ false }
        ensures ok { self.new.graph ≡ record self.old.graph { outputs = slice_set self.old.graph.outputs i end } }
        ensures room { self.new.room ≡ self.old.room }
        ensures valid { WellFormed self.new.graph }
    {
        side::move_end(&mut self.outputs, &mut self.slots, Side::Output, i, end);
    }

    /// Removes a vertex without ends, and its edges.
    pub fn remove_vertex(&mut self, v: VertexId)
        requires live { IsVertex self.old.graph v }
        requires interior { Interior self.old.graph v }
        ensures ok { IsRemoval self.old.graph v self.new.graph }
        ensures room { self.new.room ≡ with_place self.old.room }
        ensures valid { WellFormed self.new.graph }
    {
        slots::remove(&mut self.slots, &mut self.kept, v);
    }

    /// Adds the edge between two vertices where there is none, and takes it out where there is one. Where memory runs
    /// out the graph stays as it was; below the reach none is needed.
    pub fn toggle_edge(&mut self, u: VertexId, v: VertexId) -> Result<(), AllocError>
        requires u_live { IsVertex self.old.graph u }
        requires v_live { IsVertex self.old.graph v }
        requires different { u ≢ v }
        ensures ok { OnOk result (IsToggle self.old.graph u v self.new.graph) }
        ensures err { OnErr result (self.new.graph ≡ self.old.graph) }
        ensures room { self.new.room ≡ self.old.room }
        ensures has_room { u < self.old.room.reach → v < self.old.room.reach → IsOk result }
        ensures valid { WellFormed self.new.graph }
    {
        slots::toggle(&mut self.slots, self.reach, u, v)
    }

    /// Toggles each edge between a vertex on the left and one on the right: twice, so not at all,
    /// where it is one either way round. Where memory runs out the graph is left empty, with its reach;
    /// below the reach none is needed.
    pub fn toggle_across(&mut self, left: &VertexSet, right: &VertexSet) -> Result<(), AllocError>
        requires left_live { (p : ℕ) → member p left.now.ids ≡ true → IsVertex self.old.graph p }
        requires right_live { (p : ℕ) → member p right.now.ids ≡ true → IsVertex self.old.graph p }
        ensures ok { OnOk result
            (IsToggled self.old.graph (across left.now.ids right.now.ids) self.new.graph) }
        ensures err { OnErr result (self.new.graph ≡
            record { vertices = []; edges = []; inputs = []; outputs = [] }) }
        ensures room { OnOk result (self.new.room ≡ self.old.room) }
        ensures left { IsLeft self.old.room self.new.room }
        ensures has_room { IsBelow self.old.room.reach left.now.ids →
            IsBelow self.old.room.reach right.now.ids → IsOk result }
        ensures was_valid { WellFormed self.old.graph }
        ensures valid { WellFormed self.new.graph }
    {
        if let Err(error) = slots::toggle_across(&mut self.slots, self.reach, left, right) {
            // Some edges may stand in one of their two rows alone.
            side::clear(
                &mut self.slots,
                &mut self.kept,
                &mut self.inputs,
                &mut self.outputs,
            );
            return Err(error);
        }
        Ok(())
    }

    /// Toggles each edge between two of these vertices. Where memory runs out the graph is left empty,
    /// with its reach; below the reach none is needed.
    pub fn toggle_among(&mut self, vertices: &VertexSet) -> Result<(), AllocError>
        requires { (p : ℕ) → member p vertices.now.ids ≡ true → IsVertex self.old.graph p }
        ensures ok { OnOk result (IsToggled self.old.graph (among vertices.now.ids) self.new.graph) }
        ensures err { OnErr result (self.new.graph ≡
            record { vertices = []; edges = []; inputs = []; outputs = [] }) }
        ensures room { OnOk result (self.new.room ≡ self.old.room) }
        ensures left { IsLeft self.old.room self.new.room }
        ensures has_room { IsBelow self.old.room.reach vertices.now.ids → IsOk result }
        ensures was_valid { WellFormed self.old.graph }
        ensures valid { WellFormed self.new.graph }
    {
        if let Err(error) = slots::toggle_among(&mut self.slots, self.reach, vertices) {
            // Some edges may stand in one of their two rows alone.
            side::clear(
                &mut self.slots,
                &mut self.kept,
                &mut self.inputs,
                &mut self.outputs,
            );
            return Err(error);
        }
        Ok(())
    }

    /// Toggles each edge between two neighbours of a vertex. Where memory runs out the graph is left
    /// empty, with its reach; where its neighbours are below the reach none is needed.
    pub fn toggle_neighbours(&mut self, u: VertexId) -> Result<(), AllocError>
        requires { IsVertex self.old.graph u }
        ensures ok { OnOk result
            (IsToggled self.old.graph (among (zx.neighbours self.old.graph u)) self.new.graph) }
        ensures err { OnErr result (self.new.graph ≡
            record { vertices = []; edges = []; inputs = []; outputs = [] }) }
        ensures room { OnOk result (self.new.room ≡ self.old.room) }
        ensures left { IsLeft self.old.room self.new.room }
        ensures has_room { IsBelow self.old.room.reach (zx.neighbours self.old.graph u) → IsOk result }
        ensures was_valid { WellFormed self.old.graph }
        ensures valid { WellFormed self.new.graph }
    {
        if let Err(error) = slots::toggle_near(&mut self.slots, &mut self.scratch, self.reach, u) {
            // Some edges may stand in one of their two rows alone.
            side::clear(
                &mut self.slots,
                &mut self.kept,
                &mut self.inputs,
                &mut self.outputs,
            );
            return Err(error);
        }
        Ok(())
    }

    /// Toggles each edge between u or a neighbour of it and v or a neighbour of it: twice, so not at
    /// all, where it is one either way round. Where memory runs out the graph is left empty, with its
    /// reach; below the reach none is needed.
    pub fn toggle_around(&mut self, u: VertexId, v: VertexId) -> Result<(), AllocError>
        requires u_live { IsVertex self.old.graph u }
        requires v_live { IsVertex self.old.graph v }
        ensures ok { let near = u ∷ zx.neighbours self.old.graph u in
            let far = v ∷ zx.neighbours self.old.graph v in
            OnOk result (IsToggled self.old.graph (across near far) self.new.graph) }
        ensures err { OnErr result (self.new.graph ≡
            record { vertices = []; edges = []; inputs = []; outputs = [] }) }
        ensures room { OnOk result (self.new.room ≡ self.old.room) }
        ensures left { IsLeft self.old.room self.new.room }
        ensures has_room { IsBelow self.old.room.reach (u ∷ zx.neighbours self.old.graph u) →
            IsBelow self.old.room.reach (v ∷ zx.neighbours self.old.graph v) → IsOk result }
        ensures was_valid { WellFormed self.old.graph }
        ensures valid { WellFormed self.new.graph }
    {
        if let Err(error) = slots::toggle_around(
            &mut self.slots,
            &mut self.scratch,
            self.reach,
            u,
            v,
        ) {
            // Some edges may stand in one of their two rows alone.
            side::clear(
                &mut self.slots,
                &mut self.kept,
                &mut self.inputs,
                &mut self.outputs,
            );
            return Err(error);
        }
        Ok(())
    }

    /// Gives a vertex another plane and phase. A vertex with an end stays XY.
    pub fn set_weight(&mut self, v: VertexId, plane: Plane, phase: Sixteenth)
        requires live { IsVertex self.old.graph v }
        requires plane { is_interior self.old.graph v ≡ false → plane_named plane ≡ zx.XY }
        ensures ok { self.new.graph ≡ record self.old.graph {
          vertices = with_kinds (at_vertex v (λ _. in_plane (plane_named plane) phase)) self.old.graph.vertices;
        } }
        ensures room { self.new.room ≡ self.old.room }
        ensures valid { WellFormed self.new.graph }
    {
        slots::set_kind(&mut self.slots, v, plane, phase);
    }

    /// Turns a vertex by a quarter about the Z axis.
    pub fn add_quarter(&mut self, v: VertexId)
        requires { IsVertex self.old.graph v }
        ensures ok { self.new.graph ≡ record self.old.graph {
          vertices = with_kinds (at_vertex v quarter_turned) self.old.graph.vertices;
        } }
        ensures room { self.new.room ≡ self.old.room }
        ensures valid { WellFormed self.new.graph }
    {
        let (plane, phase) = self.weight(v);
        let (plane, phase) = plane.with_quarter(phase);
        self.set_weight(v, plane, phase);
    }

    /// Turns each neighbour of a vertex about the Z axis, and answers the power of z that the sum gets by
    /// that, in sixteenth turns.
    pub fn turn_neighbours(&mut self, u: VertexId, turn: Turn) -> Sixteenth
        requires { IsVertex self.old.graph u }
        ensures ok { self.new.graph ≡ record self.old.graph {
          vertices = with_kinds (turned_in turn (zx.neighbours self.old.graph u)) self.old.graph.vertices;
        } }
        ensures power { result ≡ powers_of turn self.old.graph (zx.neighbours self.old.graph u) }
        ensures room { self.new.room ≡ self.old.room }
        ensures was_valid { WellFormed self.old.graph }
        ensures valid { WellFormed self.new.graph }
    {
        slots::turn_near(&mut self.slots, self.alloc, u, turn)
    }

    /// Takes the memory for so many more vertices, and moves the reach as far past all ids, with the
    /// memory for all edges below it: a bit for each two ids. Where it runs out, some may be taken.
    pub fn reserve(&mut self, vertices: usize) -> Result<(), AllocError>
        ensures same { self.new.graph ≡ self.old.graph }
        ensures room { OnOk result (IsAtLeast (record { spare = vertices; reach = vertices }) self.new.room) }
        ensures reach { OnOk result ((v : ℕ) → IsVertex self.old.graph v →
            v + vertices < self.new.room.reach) }
        ensures keeps_room { IsAtLeast self.old.room self.new.room }
        ensures valid { WellFormed self.new.graph }
    {
        let Some(reach) = self.slots.len().checked_add(vertices) else {
            return Err(AllocError);
        };
        self.reserve_room(vertices, reach)
    }

    /// Takes the memory that another graph has: for as many vertices in all, and for all edges below its
    /// reach. Where it runs out, some may be taken.
    pub fn reserve_like(&mut self, other: &OpenGraph) -> Result<(), AllocError>
        ensures same { self.new.graph ≡ self.old.graph }
        ensures places { OnOk result (other.now.room.spare + length other.now.graph.vertices
            ≤ self.new.room.spare + length self.new.graph.vertices) }
        ensures reach { OnOk result (other.now.room.reach ≤ self.new.room.reach) }
        ensures keeps_room { IsAtLeast self.old.room self.new.room }
        ensures valid { WellFormed self.new.graph }
    {
        let vacant = other.slots.len().saturating_sub(self.slots.filled());
        self.reserve_room(vacant, other.reach)
    }

    // Takes the memory for so many more vertices, and moves the reach up to a bound at least. Where it
    // runs out, some may be taken.
    fn reserve_room(&mut self, vertices: usize, bound: usize) -> Result<(), AllocError>
        ensures same { self.new.graph ≡ self.old.graph }
        ensures room { OnOk result (IsAtLeast (record { spare = vertices; reach = bound }) self.new.room) }
        ensures keeps_room { IsAtLeast self.old.room self.new.room }
        ensures valid { WellFormed self.new.graph }
    {
        self.slots.reserve(vertices)?;
        self.extend_reach(bound)
    }

    // Moves the reach up to a bound at least, with the memory for all edges below it: a bit for each
    // two ids. Where it runs out, some may be taken.
    fn extend_reach(&mut self, bound: usize) -> Result<(), AllocError>
        ensures same { self.new.graph ≡ self.old.graph }
        ensures spare { self.new.room.spare ≡ self.old.room.spare }
        ensures ok { OnOk result (bound ≤ self.new.room.reach) }
        ensures least { OnOk result (self.old.room.reach ≤ bound → self.new.room.reach ≡ bound) }
        ensures keeps { self.old.room.reach ≤ self.new.room.reach }
        ensures valid { WellFormed self.new.graph }
    {
        if bound <= self.reach {
            return Ok(());
        }
        slots::reserve(&mut self.slots, &mut self.kept, self.alloc, bound)?;
        self.scratch.reserve(bound)?;
        self.reach = bound;
        Ok(())
    }

    /// The same graph once more, with memory for as many vertices more, and with the same reach.
    pub fn copy(&self) -> Result<OpenGraph, AllocError>
        ensures ok { IfOk result (λ copy. copy.graph ≡ self.now.graph) }
        ensures room { IfOk result (λ copy. copy.room ≡ self.now.room) }
        ensures valid { WellFormed self.now.graph }
    {
        let mut copy = self.copy_without_reach()?;
        copy.extend_reach(self.reach)?;
        Ok(copy)
    }

    // The same graph once more, of reach 0.
    fn copy_without_reach(&self) -> Result<OpenGraph, AllocError>
        ensures ok { IfOk result (λ copy. copy.graph ≡ self.now.graph) }
        ensures room { IfOk result (λ copy. copy.room ≡ record self.now.room { reach = 0 }) }
        ensures valid { WellFormed self.now.graph }
    {
        Ok(OpenGraph {
            alloc: self.alloc,
            slots: self.slots.clone()?,
            inputs: Vec::from_slice(self.alloc, &self.inputs)?,
            outputs: Vec::from_slice(self.alloc, &self.outputs)?,
            kept: Vec::new(self.alloc),
            scratch: Scratch::new(self.alloc),
            reach: 0,
        })
    }

    /// Whether an edge joins two vertices.
    pub fn has_edge(&self, u: VertexId, v: VertexId) -> bool
        requires { IsVertex self.now.graph u }
        ensures value { result ≡ joined self.now.graph.edges u v }
        ensures valid { WellFormed self.now.graph }
    {
        self.slot(u).row.contains(v)
    }

    /// The vertices adjacent to a vertex, by rising id.
    pub fn neighbours(&self, v: VertexId) -> Ids<'_>
        requires { IsVertex self.now.graph v }
        ensures value { result ≡ zx.neighbours self.now.graph v }
        ensures valid { WellFormed self.now.graph }
    {
        self.slot(v).row.iter()
    }

    /// The vertices adjacent to a vertex, as a set.
    pub fn neighbour_set(&self, v: VertexId) -> &VertexSet
        requires { IsVertex self.now.graph v }
        ensures members { (p : ℕ) → member p result.now.ids ≡ joined self.now.graph.edges v p }
        ensures live { (p : ℕ) → member p result.now.ids ≡ true → IsVertex self.now.graph p }
        ensures valid { WellFormed self.now.graph }
    {
        &self.slot(v).row
    }

    /// How many vertices are adjacent to a vertex.
    pub fn degree(&self, v: VertexId) -> usize
        requires { IsVertex self.now.graph v }
        ensures value { result ≡ length (zx.neighbours self.now.graph v) }
        ensures valid { WellFormed self.now.graph }
    {
        self.slot(v).row.len()
    }

    /// The adjacent vertex of the least id that isn't below a number.
    pub fn neighbour_from(&self, v: VertexId, start: usize) -> Option<VertexId>
        requires { IsVertex self.now.graph v }
        ensures first { IsFirstFrom (joined self.now.graph.edges v) start result }
        ensures live { IfSome result (λ w. IsVertex self.now.graph w) }
        ensures bounded { IfSome result (λ w. w < usize.MAX) }
        ensures valid { WellFormed self.now.graph }
    {
        self.slot(v).row.first_from(start)
    }

    /// Plane and phase of a vertex.
    pub fn weight(&self, v: VertexId) -> (Plane, Sixteenth)
        requires { IsVertex self.now.graph v }
        ensures value { in_plane (plane_named result.0) result.1 ≡ kind_of self.now.graph.vertices v }
        ensures valid { WellFormed self.now.graph }
    {
        let slot = self.slot(v);
        (slot.plane, slot.phase)
    }

    /// Whether a vertex is of the XY plane.
    pub fn is_xy(&self, v: VertexId) -> bool
        requires { IsVertex self.now.graph v }
        ensures value { result ≡ is_XY (plane_of self.now.graph v) }
        ensures valid { WellFormed self.now.graph }
    {
        matches!(self.weight(v).0, Plane::XY)
    }

    /// Whether a vertex has neither an input nor an output.
    pub fn is_interior(&self, v: VertexId) -> bool
        requires { IsVertex self.now.graph v }
        ensures value { result ≡ is_interior self.now.graph v }
        ensures valid { WellFormed self.now.graph }
    {
        let slot = self.slot(v);
        slot.input.is_none() && slot.output.is_none()
    }

    /// Whether an id is that of a vertex.
    pub fn is_live(&self, v: VertexId) -> bool
        ensures value { result ≡ member v (ids self.now.graph.vertices) }
        ensures valid { WellFormed self.now.graph }
    {
        self.slots.contains(v.get())
    }

    /// The place of a vertex's input among the inputs, where it has one.
    pub fn input_at(&self, v: VertexId) -> Option<usize>
        requires { IsVertex self.now.graph v }
        ensures found { is_some result ≡ member v (end_vertices self.now.graph.inputs) }
        ensures place { IfSome result (λ i. slice_get (end_vertices self.now.graph.inputs) i ≡ Some v) }
        ensures valid { WellFormed self.now.graph }
    {
        self.slot(v).input
    }

    /// The place of a vertex's output among the outputs, where it has one.
    pub fn output_at(&self, v: VertexId) -> Option<usize>
        requires { IsVertex self.now.graph v }
        ensures found { is_some result ≡ member v (end_vertices self.now.graph.outputs) }
        ensures place { IfSome result (λ i. slice_get (end_vertices self.now.graph.outputs) i ≡ Some v) }
        ensures valid { WellFormed self.now.graph }
    {
        self.slot(v).output
    }

    /// The inputs, in their order.
    pub fn inputs(&self) -> &[End]
        ensures value { result.now ≡ self.now.graph.inputs }
        ensures valid { WellFormed self.now.graph }
    {
        &self.inputs
    }

    /// The outputs, in their order.
    pub fn outputs(&self) -> &[End]
        ensures value { result.now ≡ self.now.graph.outputs }
        ensures valid { WellFormed self.now.graph }
    {
        &self.outputs
    }

    /// The vertex of the output at a place.
    pub fn output_vertex(&self, i: usize) -> VertexId
        requires { i < length self.now.graph.outputs }
        ensures value { slice_get (end_vertices self.now.graph.outputs) i ≡ Some result }
        ensures valid { WellFormed self.now.graph }
    {
        self.outputs[i].vertex
    }

    /// The vertices, by rising id.
    pub fn vertices(&self) -> Vertices<'_>
        ensures value { result ≡ ids self.now.graph.vertices }
        ensures valid { WellFormed self.now.graph }
    {
        Vertices {
            slots: &self.slots,
            next: 0,
        }
    }

    /// The vertex of the least id that isn't below a number, if there is one. It takes no memory.
    pub fn vertex_from(&self, start: usize) -> Option<VertexId>
        ensures first { IsFirstFrom (λ v. member v (ids self.now.graph.vertices)) start result }
        ensures bounded { IfSome result (λ v. v < usize.MAX) }
        ensures few { IfSome result (λ v. v < most_vertices_in_memory) }
        ensures valid { WellFormed self.now.graph }
    {
        self.slots.first_from(start).map(VertexId::new)
    }

    /// The number of vertices.
    pub fn vertex_count(&self) -> usize
        ensures value { result ≡ length self.now.graph.vertices }
        ensures few { length self.now.graph.vertices ≤ most_vertices_in_memory }
    {
        self.slots.filled()
    }

    /// The id that the next vertex gets: the least that no vertex has.
    pub fn next_id(&self) -> usize
        ensures value { result ≡ least_free (ids self.now.graph.vertices) }
        ensures few { result ≤ most_vertices_in_memory }
        ensures valid { WellFormed self.now.graph }
    {
        self.slots.next_id()
    }

    /// How many vertices can be added without memory.
    pub fn spare(&self) -> usize
        ensures { result ≡ self.now.room.spare }
    {
        self.slots.vacant()
    }

    /// The bound below which edges are toggled without memory.
    pub fn reach(&self) -> usize
        ensures { result ≡ self.now.room.reach }
    {
        self.reach
    }

    /// Whether the ids of all vertices are below a bound.
    pub fn is_below(&self, bound: usize) -> bool
        ensures value { (result ≡ true) ↔ IsBelow bound (ids self.now.graph.vertices) }
        ensures valid { WellFormed self.now.graph }
    {
        self.vertex_from(bound).is_none()
    }

    // What is kept of a vertex.
    fn slot(&self, v: VertexId) -> &Slot
        requires { IsVertex self.now.graph v }
        ensures { Tells self.now.graph v result.now }
    {
        &self.slots[v.get()]
    }
}
