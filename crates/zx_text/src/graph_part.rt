//! The lines of vertices, edges, inputs and outputs of a file.

ghost use Rattle.std.specs.Prelude.{◌≡◌, ◌+◌, ◌&&◌, ◌<◌, ◌^◌, true, ltb, length, nat_le, IfOk};
ghost use Rattle.std.specs.List.{list_all};
ghost use Rattle.zx_calculus.specs.Graph.{edge_before, IsVertex};
ghost use Rattle.open_graph.specs.Planes.{plane_named};
ghost use Rattle.zx_text.specs.Versions.{version_named};
ghost use Rattle.zx_text.specs.Internal.Stepping.{begun, vertex_fits, edge_fits, end_fits};
ghost use Rattle.zx_text.specs.Internal.Stepping.{vertex_added, edge_added, input_added, output_added};
ghost use Rattle.zx_text.specs.Internal.Parts.{rank_of};

use crate::version::Version;
use open_graph::{End, OpenGraph, Plane, VertexId};
use std::alloc::{AllocError, Global};
use std::marker::Model;

// How many inputs a file may have, and how many outputs.
const MOST_ENDS: usize = 1024;

// What the last line was about. The lines come in this order.
#[derive(Clone, Copy, Debug, PartialEq, Eq)]
pub(crate) enum Section {
    Vertices,
    Edges,
    Inputs,
    Outputs,
}

impl Section {
    // Its place in a file.
    fn rank(self) -> u8
        ensures { result ≡ rank_of self }
    {
        match self {
            Section::Vertices => 0,
            Section::Edges => 1,
            Section::Inputs => 2,
            Section::Outputs => 3,
        }
    }
}

// What these lines say so far.
#[derive(Drop)]
pub(crate) struct GraphPart {
    section: Section,
    pub(crate) graph: OpenGraph,
    // How many vertices there are; their ids are the numbers below.
    pub(crate) vertices: usize,
    // The last edge: a further one comes after it.
    last_edge: Option<(usize, usize)>,
}

impl Model for GraphPart {
    ghost use Rattle.zx_text.specs.Internal.Parts.{rank_of, IsNumbered, IsLastOf};
    ghost use Rattle.zx_text.specs.Internal.Stepping.{Part};

    ghost Value = { Part };

    ghost view = { λ p. record { section = rank_of p.section; graph = p.graph.graph } };

    ghost invariant = { λ p. IsNumbered p.graph.graph p.vertices × IsLastOf p.graph.graph.edges p.last_edge };
}

// Whether the edge between two vertices comes before that between two others.
fn comes_before(lower: usize, higher: usize, a: usize, b: usize) -> bool
    ensures { result ≡ edge_before
        (record { lower = lower; higher = higher }) (record { lower = a; higher = b }) }
{
    lower < a || (lower == a && higher < b)
}

impl GraphPart {
    // Before the first line after the header.
    pub(crate) fn new(alloc: Global) -> GraphPart
        ensures { result ≡ begun }
    {
        GraphPart {
            section: Section::Vertices,
            graph: OpenGraph::new(alloc),
            vertices: 0,
            last_edge: None,
        }
    }

    // Adds a vertex, and tells whether its line fits.
    pub(crate) fn take_vertex(
        &mut self,
        version: Version,
        number: usize,
        plane: Plane,
        phase: usize,
    ) -> Result<bool, AllocError>
        requires room { length self.old.graph.vertices < 2 ^ 32 }
        ensures fits { IfOk result (λ fits. fits ≡ vertex_fits (version_named version) self.old number phase) }
        ensures added { IfOk result (λ fits. fits ≡ true →
            self.new ≡ vertex_added (version_named version) self.old number (plane_named plane) phase) }
    {
        let Some(turns) = version.phase(phase) else {
            return Ok(false);
        };
        if self.section != Section::Vertices || number != self.vertices {
            return Ok(false);
        }
        self.graph.add_vertex(plane, turns)?;
        self.vertices += 1;
        Ok(true)
    }

    // Adds an edge, and tells whether its line fits.
    pub(crate) fn take_edge(&mut self, a: usize, b: usize) -> Result<bool, AllocError>
        ensures fits { IfOk result (λ fits. fits ≡ edge_fits self.old a b) }
        ensures added { IfOk result (λ fits. fits ≡ true → self.new ≡ edge_added self.old a b) }
    {
        if !self.has_place_for(a, b) {
            return Ok(false);
        }
        self.graph.toggle_edge(VertexId::new(a), VertexId::new(b))?;
        self.section = Section::Edges;
        self.last_edge = Some((a, b));
        Ok(true)
    }

    // Whether an edge may follow.
    fn has_place_for(&self, a: usize, b: usize) -> bool
        ensures { result ≡ edge_fits self.now a b }
    {
        self.section.rank() <= 1 && a < b && b < self.vertices && self.is_after_last(a, b)
    }

    // Whether an edge comes after the last one.
    fn is_after_last(&self, a: usize, b: usize) -> bool
        ensures { result ≡ list_all
            (λ d. edge_before d (record { lower = a; higher = b })) self.now.graph.edges }
    {
        match self.last_edge {
            Some((lower, higher)) => comes_before(lower, higher, a, b),
            None => true,
        }
    }

    // Whether a number is that of a vertex.
    pub(crate) fn is_vertex(&self, v: usize) -> bool
        ensures value { result ≡ ltb v (length self.now.graph.vertices) }
        ensures live { result ≡ true → IsVertex self.now.graph v }
    {
        v < self.vertices
    }

    // Adds an input, and tells whether its line fits.
    pub(crate) fn take_input(&mut self, v: usize, hadamard: bool) -> Result<bool, AllocError>
        ensures fits { IfOk result (λ fits.
            fits ≡ (nat_le self.old.section 2 && end_fits self.old.graph self.old.graph.inputs v)) }
        ensures added { IfOk result (λ fits. fits ≡ true → self.new ≡ input_added self.old v hadamard) }
    {
        if !self.may_have_input(v) {
            return Ok(false);
        }
        let vertex = VertexId::new(v);
        self.graph.add_input(End { vertex, hadamard })?;
        self.section = Section::Inputs;
        Ok(true)
    }

    // Whether an input may follow at a vertex.
    fn may_have_input(&self, v: usize) -> bool
        ensures { result ≡ (nat_le self.now.section 2 && end_fits self.now.graph self.now.graph.inputs v) }
    {
        self.section.rank() <= 2
            && self.graph.inputs().len() < MOST_ENDS
            && self.is_vertex(v)
            && self.graph.weight(VertexId::new(v)).0 == Plane::XY
            && self.graph.input_at(VertexId::new(v)).is_none()
    }

    // Adds an output, and tells whether its line fits.
    pub(crate) fn take_output(&mut self, v: usize, hadamard: bool) -> Result<bool, AllocError>
        ensures fits { IfOk result (λ fits.
            fits ≡ (nat_le self.old.section 3 && end_fits self.old.graph self.old.graph.outputs v)) }
        ensures added { IfOk result (λ fits. fits ≡ true → self.new ≡ output_added self.old v hadamard) }
    {
        if !self.may_have_output(v) {
            return Ok(false);
        }
        let vertex = VertexId::new(v);
        self.graph.add_output(End { vertex, hadamard })?;
        self.section = Section::Outputs;
        Ok(true)
    }

    // Whether an output may follow at a vertex.
    fn may_have_output(&self, v: usize) -> bool
        ensures { result ≡ (nat_le self.now.section 3 && end_fits self.now.graph self.now.graph.outputs v) }
    {
        self.section.rank() <= 3
            && self.graph.outputs().len() < MOST_ENDS
            && self.is_vertex(v)
            && self.graph.weight(VertexId::new(v)).0 == Plane::XY
            && self.graph.output_at(VertexId::new(v)).is_none()
    }
}
