//! Which gates hold their phases together while the graph of their circuit is rewritten.

ghost use Rattle.std.specs.Prelude.{◌≡◌, ◌==◌, ℕ, true, Option, None, IfOk, OnOk};
ghost use Rattle.zx_calculus.specs.Steps.{allowed};
ghost use Rattle.graph_rewrites.specs.Steps.{step_named};
ghost use Rattle.phase_groups.specs.Groups.{Phases as Seen, group_of, phase_of_gate, joined_groups, turned_group};
ghost use Rattle.phase_groups.specs.Groups.{AreNone, HavePhase, IsAdded, IsLost, ArePutTogether, ArePhasesJoined};
ghost use Rattle.phase_groups.specs.Groups.{IsFused, IsFollowed};
ghost use Rattle.phase_groups.specs.Internal.Noting.{stands_odd};
ghost use Rattle.phase_groups.specs.Internal.Taking.{IsEmptied, IsTaken};
ghost use Rattle.teleport_laws.specs.Shifts.{signed};
ghost use Rattle.zx_model.specs.Phase.{sum_of_phases};

use crate::notes::{Note, Parting, note_of};
use graph_rewrites::Step;
use open_graph::{OpenGraph, VertexId};
use std::alloc::{AllocError, Global};
use std::marker::Model;
use vertex_map::{Values, VertexMap};
use zx_model::Sixteenth;

/// The gates whose phases a vertex holds: the first of them, which has the phases of all, and whether its phase is held
/// negated.
#[derive(Clone, Copy, Debug)]
pub struct Group {
    /// The number of the first gate.
    pub first: usize,
    /// Whether its phase is negated.
    pub negated: bool,
}

// The groups of vertices, by their numbers; none where no gate's phase is held.
struct Held;

impl Values for Held {
    type Value = Option<Group>;

    ghost absent = { λ _. None };

    fn absent(_: usize) -> Option<Group> {
        None
    }
}

/// For each vertex the gates whose phases it holds, and for each gate the phase that it has by now.
#[derive(Drop)]
pub struct PhaseGroups {
    alloc: Global,
    held: VertexMap<Held>,
    phases: Vec<Sixteenth>,
}

impl Model for PhaseGroups {
    ghost use Rattle.phase_groups.specs.Groups.{Phases as Seen};

    ghost Value = { Seen };

    ghost view = { λ p. record { held = p.held; phases = p.phases.items } };
}

impl PhaseGroups {
    /// No vertex holds a phase, and each of so many gates has phase 0.
    ///
    /// # Errors
    ///
    /// Only where memory runs out.
    pub fn new(alloc: Global, gates: usize) -> Result<PhaseGroups, AllocError>
        ensures { IfOk result (AreNone gates) }
    {
        Ok(PhaseGroups {
            alloc,
            held: VertexMap::new(alloc),
            phases: vec![in alloc; Sixteenth::new(0); gates]?,
        })
    }

    /// The phase that a gate has by now.
    pub fn phase(&self, gate: usize) -> Sixteenth
        ensures { result ≡ phase_of_gate self.now gate }
    {
        match self.phases.get(gate) {
            Some(phase) => *phase,
            None => Sixteenth::new(0),
        }
    }

    /// A vertex holds the phase of a gate as well, which comes after all gates before it.
    ///
    /// # Errors
    ///
    /// Only where memory runs out.
    pub fn add(&mut self, gate: usize, v: VertexId, phase: Sixteenth) -> Result<(), AllocError>
        ensures { OnOk result (IsAdded gate v phase self.old self.new) }
    {
        match self.held.get(v.get()) {
            Some(group) => {
                self.gain(group.first, signed(group.negated, phase));
                Ok(())
            }
            None => {
                self.gain(gate, phase);
                let group = Group {
                    first: gate,
                    negated: false,
                };
                self.held.set(v.get(), Some(group))
            }
        }
    }

    /// Does what a step that is allowed does to the groups of the vertices of a graph, in which it is still to be done.
    ///
    /// # Errors
    ///
    /// Only where memory runs out.
    pub fn follow(&mut self, graph: &OpenGraph, step: &Step) -> Result<(), AllocError>
        requires { allowed graph.now.graph (step_named step.now) ≡ true }
        ensures { OnOk result (IsFollowed graph.now.graph (step_named step.now) self.old self.new) }
    {
        let note = note_of(self.alloc, graph, step)?;
        self.take(&note)
    }

    // What a step does to the groups, by its note.
    fn take(&mut self, note: &Note) -> Result<(), AllocError>
        ensures { OnOk result (IsTaken note.now self.old self.new) }
    {
        self.turn(&note.negated)?;
        match note.parting {
            Parting::Nowhere => Ok(()),
            Parting::Deleted(u) => {
                self.held.remove(u.get());
                Ok(())
            }
            Parting::Dropped(u) => {
                self.drop_from(u);
                Ok(())
            }
            Parting::Fused(from, into) => self.fuse(from, into),
        }
    }

    // A vertex is dropped, with the phase of its group.
    fn drop_from(&mut self, u: VertexId)
        ensures groups { IsEmptied u self.old self.new }
        ensures lost { IsLost (group_of self.old u) self.old self.new }
    {
        if let Some(group) = self.held.get(u.get()) {
            self.lose(group.first);
        }
        self.held.remove(u.get());
    }

    // Negates what vertices hold.
    fn turn(&mut self, vertices: &[VertexId]) -> Result<(), AllocError>
        ensures groups { OnOk result ((w : ℕ) →
            group_of self.new w ≡ turned_group (stands_odd vertices.now w) (group_of self.old w)) }
        ensures phases { self.new.phases ≡ self.old.phases }
    {
        for v in vertices {
            self.turn_at(*v)?;
        }
        Ok(())
    }

    // Negates what a vertex holds.
    fn turn_at(&mut self, v: VertexId) -> Result<(), AllocError>
        ensures groups { OnOk result ((w : ℕ) →
            group_of self.new w ≡ turned_group (w == v) (group_of self.old w)) }
        ensures phases { self.new.phases ≡ self.old.phases }
    {
        let Some(group) = self.held.get(v.get()) else {
            return Ok(());
        };
        let turned = Group {
            first: group.first,
            negated: !group.negated,
        };
        self.held.set(v.get(), Some(turned))
    }

    // What a vertex held another one holds as well.
    fn fuse(&mut self, from: VertexId, into: VertexId) -> Result<(), AllocError>
        ensures { OnOk result (IsFused from into self.old self.new) }
    {
        let gone = self.held.get(from.get());
        let there = self.held.get(into.get());
        self.held.remove(from.get());
        self.held.set(into.get(), first_of(gone, there))?;
        self.put_together(gone, there);
        Ok(())
    }

    // The first gate of two groups gets the phases of both.
    fn put_together(&mut self, gone: Option<Group>, there: Option<Group>)
        ensures phases { ArePhasesJoined gone there self.old self.new }
        ensures held { self.new.held ≡ self.old.held }
    {
        let (Some(gone), Some(there)) = (gone, there) else {
            return;
        };
        if gone.first < there.first {
            self.join(gone, there);
        } else {
            self.join(there, gone);
        }
    }

    // The first gate of the one group gets the phase of that of the other.
    fn join(&mut self, one: Group, other: Group)
        ensures phases { ArePutTogether one other self.old self.new }
        ensures held { self.new.held ≡ self.old.held }
    {
        let phase = self.phase(other.first);
        self.lose(other.first);
        self.gain(one.first, signed(one.negated != other.negated, phase));
    }

    // A phase is added to that of a gate.
    fn gain(&mut self, gate: usize, phase: Sixteenth)
        ensures phases { HavePhase gate (sum_of_phases (phase_of_gate self.old gate) phase) self.old self.new }
        ensures held { self.new.held ≡ self.old.held }
    {
        let sum = self.phase(gate).add(phase);
        self.put(gate, sum);
    }

    // A gate has no phase from now on.
    fn lose(&mut self, gate: usize)
        ensures phases { HavePhase gate 0 self.old self.new }
        ensures held { self.new.held ≡ self.old.held }
    {
        self.put(gate, Sixteenth::new(0));
    }

    // A gate has this phase from now on.
    fn put(&mut self, gate: usize, phase: Sixteenth)
        ensures phases { HavePhase gate phase self.old self.new }
        ensures held { self.new.held ≡ self.old.held }
    {
        if gate < self.phases.len() {
            self.phases[gate] = phase;
        }
    }
}

// The group of two vertices together.
fn first_of(gone: Option<Group>, there: Option<Group>) -> Option<Group>
    ensures { result ≡ joined_groups gone there }
{
    match (gone, there) {
        (None, there) => there,
        (gone, None) => gone,
        (Some(gone), Some(there)) => {
            if gone.first < there.first {
                Some(gone)
            } else {
                Some(there)
            }
        }
    }
}

// The phase, negated or not.
fn signed(negated: bool, phase: Sixteenth) -> Sixteenth
    ensures { result ≡ signed negated phase }
{
    if negated { phase.neg() } else { phase }
}
