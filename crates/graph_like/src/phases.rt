//! The phases of classes.

ghost use Rattle.std.specs.Prelude.{◌≡◌, ◌<◌, ◌+◌, ◌*◌, ℕ, [], ◌∷◌, length, slice_index, slice_index_or, slice_set, IfOk};
ghost use Rattle.std.specs.List.{All};
ghost use Rattle.zx_model.specs.Phase.{half_turn, sum_of_phases};
ghost use Rattle.zx_diagram.specs.Diagram.{IsEdgeOf};
ghost use Rattle.graph_like.specs.LikeForm.{phases_at, loops_at, class_phase};
ghost use Rattle.graph_like.specs.Internal.Homes.{home_of, AreHomesOf};
ghost use Rattle.graph_like.specs.Internal.Phases.{AreBelowATurn, AreAdded};

use crate::homes::Homes;
use crate::marks::edge_mark;
use std::alloc::{AllocError, Global};
use zx_diagram::{Diagram, Spider, Wire};
use zx_model::Sixteenth;

// The phase of each class: the sum of its spiders', and half a turn for each Hadamard edge inside it.
pub(crate) fn class_phases(
    alloc: Global,
    d: &Diagram,
    homes: &Homes,
) -> Result<Vec<Sixteenth>, AllocError>
    requires { AreHomesOf (length d.now.spiders) homes.now.count homes.now }
    ensures length { IfOk result (λ phases. length phases.items ≡ homes.now.count) }
    ensures phases { IfOk result (λ phases. (p o : ℕ) → p < homes.now.count →
        slice_index_or phases.items p o ≡ class_phase d.now (home_of homes.now) p) }
{
    let mut phases = no_phases(alloc, homes.count())?;
    add_spiders(&mut phases, homes, d.spiders());
    add_loops(&mut phases, homes, d.spiders(), d.edges());
    Ok(phases)
}

// So many phases of 0.
fn no_phases(alloc: Global, count: usize) -> Result<Vec<Sixteenth>, AllocError>
    ensures length { IfOk result (λ phases. length phases.items ≡ count) }
    ensures zero { IfOk result (λ phases. (p o : ℕ) → p < count → slice_index_or phases.items p o ≡ 0) }
{
    let mut phases = Vec::new(alloc);
    for _ in 0..count {
        phases.push(Sixteenth::new(0))?;
    }
    Ok(phases)
}

// Adds the phase of each spider to that of its class.
fn add_spiders(phases: &mut [Sixteenth], homes: &Homes, spiders: &[Spider])
    requires below { AreBelowATurn phases.old }
    requires homes { AreHomesOf (length spiders.now) (length phases.old) homes.now }
    ensures phases { AreAdded phases.old (λ p. phases_at (home_of homes.now) p 0 spiders.now) phases.new }
{
    for u in 0..spiders.len() {
        add_phase(phases, homes.of(u), spiders[u].phase);
    }
}

// Adds half a turn to the phase of a class for each Hadamard edge inside it.
fn add_loops(phases: &mut [Sixteenth], homes: &Homes, spiders: &[Spider], edges: &[Wire])
    requires below { AreBelowATurn phases.old }
    requires edges { All (IsEdgeOf (length spiders.now)) edges.now }
    requires homes { AreHomesOf (length spiders.now) (length phases.old) homes.now }
    ensures phases { AreAdded phases.old
        (λ p. half_turn * loops_at spiders.now (home_of homes.now) p edges.now) phases.new }
{
    for i in 0..edges.len() {
        add_loop(phases, homes, spiders, edges[i]);
    }
}

// Adds half a turn to the phase of a class where the edge is a Hadamard edge inside it.
fn add_loop(phases: &mut [Sixteenth], homes: &Homes, spiders: &[Spider], edge: Wire)
    requires below { AreBelowATurn phases.old }
    requires edge { IsEdgeOf (length spiders.now) edge }
    requires homes { AreHomesOf (length spiders.now) (length phases.old) homes.now }
    ensures phases { AreAdded phases.old
        (λ p. half_turn * loops_at spiders.now (home_of homes.now) p (edge ∷ [])) phases.new }
{
    let home = homes.of(edge.a);
    if edge_mark(spiders, edge) && home == homes.of(edge.b) {
        add_phase(phases, home, Sixteenth::half_turn());
    }
}

// Adds a phase to one of the list.
fn add_phase(phases: &mut [Sixteenth], p: usize, phase: Sixteenth)
    requires { p < length phases.old }
    ensures { phases.new ≡ slice_set phases.old p (sum_of_phases (slice_index phases.old p) phase) }
{
    phases[p] = phases[p].add(phase);
}
