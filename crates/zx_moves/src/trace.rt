//! Traces of steps.

ghost use Rattle.std.specs.Prelude.{◌≡◌, ◌<◌, ◌≤◌, ◌+◌, ◌++◌, [], ◌∷◌, length, drop, IsOk, IfOk, OnOk, OnErr};
ghost use Rattle.zx_moves.specs.Traces.{KeepSteps};

use graph_rewrites::Step;
use std::alloc::{AllocError, Global};
use std::marker::Model;

/// The steps that were done, in their order.
#[derive(Drop)]
pub struct Trace {
    alloc: Global,
    steps: Vec<Step>,
}

impl Model for Trace {
    ghost use Rattle.zx_moves.specs.Traces.{Trace as Seen};

    ghost Value = { Seen };

    ghost use Rattle.std.specs.Prelude.{◌-◌, vec_len, vec_capacity};

    ghost view = { λ t. record {
      steps = t.steps.items;
      spare = vec_capacity t.steps - vec_len t.steps;
    } };
}

impl Trace {
    /// The trace without steps.
    pub fn new(alloc: Global) -> Trace
        ensures { result.steps ≡ [] }
    {
        Trace {
            alloc,
            steps: Vec::new(alloc),
        }
    }

    /// Takes the memory for so many more steps.
    pub fn reserve(&mut self, steps: usize) -> Result<(), AllocError>
        ensures steps { self.new.steps ≡ self.old.steps }
        ensures spare { OnOk result (steps ≤ self.new.spare) }
        ensures keeps_spare { self.old.spare ≤ self.new.spare }
    {
        self.steps.reserve(steps)
    }

    /// The steps in their order.
    pub fn as_slice(&self) -> &[Step]
        ensures { result.now ≡ self.now.steps }
    {
        &self.steps
    }

    /// How many more steps can be added without memory.
    pub fn spare(&self) -> usize
        ensures { result ≡ self.now.spare }
    {
        self.steps.capacity().saturating_sub(self.steps.len())
    }

    /// Takes the memory that another trace has, for as many steps in all.
    pub fn reserve_like(&mut self, other: &Trace) -> Result<(), AllocError>
        ensures same { self.new.steps ≡ self.old.steps }
        ensures room { OnOk result (KeepSteps other.now self.new) }
    {
        let steps = other.steps.capacity();
        self.steps.reserve(steps.saturating_sub(self.steps.len()))
    }

    /// Adds a step after all others. Where memory runs out the trace stays as it was.
    pub fn push(&mut self, step: Step) -> Result<(), AllocError>
        ensures ok { OnOk result (self.new.steps ≡ self.old.steps ++ step ∷ []) }
        ensures err { OnErr result (self.new.steps ≡ self.old.steps) }
        ensures has_room { 0 < self.old.spare → IsOk result }
        ensures spare { OnOk result (self.old.spare ≤ self.new.spare + 1) }
        ensures room { OnOk result (KeepSteps self.old self.new) }
    {
        self.steps.push(step)?;
        Ok(())
    }

    /// The steps from a place on.
    pub fn steps_from(&self, start: usize) -> &[Step]
        requires { start ≤ length self.now.steps }
        ensures { result.now ≡ drop start self.now.steps }
    {
        &self.steps[start..]
    }

    /// The same trace once more, with memory for as many more steps.
    pub fn copy(&self) -> Result<Trace, AllocError>
        ensures steps { IfOk result (λ copy. copy.steps ≡ self.now.steps) }
        ensures room { IfOk result (KeepSteps self.now) }
    {
        let mut copy = Trace {
            alloc: self.alloc,
            steps: Vec::from_slice(self.alloc, &self.steps)?,
        };
        copy.reserve_like(self)?;
        Ok(copy)
    }

    /// The memory in which its steps are kept.
    pub fn alloc(&self) -> Global {
        self.alloc
    }
}
