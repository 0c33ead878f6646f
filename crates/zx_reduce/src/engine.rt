//! Which moves are made, and when, until none is left.

ghost use Rattle.std.specs.Prelude.{◌≡◌, ◌≤◌, false, IfOk, OnOk};
ghost use Rattle.zx_calculus.specs.Graph.{WellFormed};
ghost use Rattle.zx_moves.specs.Search.{AppliesAt};
ghost use Rattle.zx_reduce.specs.Internal.Ordering.{IsOrdered};
ghost use Rattle.zx_reduce.specs.Internal.Progress.{Tries, Exhausts, Completes, most_tried};

use crate::levels::LEVELS;
use crate::plan::{Plan, Setting, plan_at};
use crate::progress::Progress;
use crate::queue::Queue;
use crate::twins::{Twins, keyed_gadgets};
use graph_rewrites::Step;
use open_graph::{OpenGraph, VertexId};
use std::alloc::{AllocError, Global};
use zx_moves::{Move, Trace, add_steps, next_move};

// After so many looks at vertices moves are made in their order alone, which takes longer, but comes to an end.
const MOST_LOOKS: u64 = 1 << 48;

// A graph that is simplified, and what is tried on it. Steps are proposed by a queue of vertices at which something
// changed, of which nothing is promised: each step is tested before it is done.
#[derive(Drop)]
pub(crate) struct Engine {
    alloc: Global,
    pub(crate) progress: Progress,
    queue: Queue,
    twins: Twins,
    looks: u64,
}

impl Engine {
    // Where there may be so many gadgets.
    pub(crate) fn new(
        alloc: Global,
        progress: Progress,
        gadgets: usize,
    ) -> Result<Engine, AllocError>
        ensures { IfOk result (λ made. made.progress ≡ progress) }
    {
        let queue = Queue::new(alloc)?;
        let twins = Twins::new(alloc, gadgets)?;
        Ok(Engine {
            alloc,
            progress,
            queue,
            twins,
            looks: MOST_LOOKS,
        })
    }

    // The graph.
    pub(crate) fn graph(&self) -> &OpenGraph
        ensures { result.now.graph ≡ self.now.progress.ordered.graph }
    {
        self.progress.graph()
    }

    // Gives a vertex a level, and puts it into the queue.
    pub(crate) fn add(&mut self, u: VertexId, level: u8) -> Result<(), AllocError>
        ensures progress { self.new.progress ≡ self.old.progress }
        ensures looks { OnOk result (self.new.looks ≡ self.old.looks) }
    {
        self.queue.add(self.progress.graph(), u, level)
    }

    // Puts all vertices into the queue, each with its level in a whole graph.
    pub(crate) fn add_all(&mut self) -> Result<(), AllocError>
        ensures { self.new.progress ≡ self.old.progress }
    {
        self.queue.add_all(self.progress.graph())
    }

    // Makes moves at vertices in the queue of at most this level.
    pub(crate) fn drain(&mut self, level: usize) -> Result<(), AllocError>
        ensures tries { OnOk result (Tries self.old.progress self.new.progress) }
        ensures looks { OnOk result (self.new.looks ≤ self.old.looks) }
    {
        for _ in 0..self.looks {
            self.looks = self.looks.saturating_sub(1);
            let Some(list) = self.queue.first_list(level) else {
                return Ok(());
            };
            if let Some(u) = self.queue.take(list) {
                self.look_at(u)?;
            }
        }
        Ok(())
    }

    // Makes the move at a vertex, if there is one.
    pub(crate) fn look_at(&mut self, u: VertexId) -> Result<(), AllocError>
        ensures tries { OnOk result (Tries self.old.progress self.new.progress) }
        ensures looks { OnOk result (self.new.looks ≡ self.old.looks) }
    {
        let setting = Setting {
            levels: self.queue.levels(),
            takes_gates: self.progress.takes_gates(),
        };
        let plan = plan_at(self.progress.graph(), u, setting, &mut self.twins);
        match plan {
            Plan::Steps(step, next) => self.try_two(&step, next),
            Plan::Wait(level) => self.add(u, level),
            Plan::AtEnd(v) => self.try_at_end(u, v),
            Plan::Nothing => Ok(()),
        }
    }

    // Does a step where it is allowed, and then the next one.
    pub(crate) fn try_two(&mut self, step: &Step, next: Option<Step>) -> Result<(), AllocError>
        ensures tries { OnOk result (Tries self.old.progress self.new.progress) }
        ensures looks { OnOk result (self.new.looks ≡ self.old.looks) }
    {
        self.queue.forget_near();
        self.queue.note_near(self.progress.graph(), step)?;
        if !self.progress.try_step(step)? {
            return Ok(());
        }
        if let Some(next) = next {
            self.progress.try_step(&next)?;
        }
        self.queue.touch_near(self.progress.graph())
    }

    // Splits the ends of a vertex, and pivots another one with it, which goes then.
    fn try_at_end(&mut self, u: VertexId, v: VertexId) -> Result<(), AllocError>
        ensures tries { OnOk result (Tries self.old.progress self.new.progress) }
        ensures looks { OnOk result (self.new.looks ≡ self.old.looks) }
    {
        self.progress.try_step(&Step::SplitInput(v))?;
        self.progress.try_step(&Step::SplitOutput(v))?;
        self.try_two(&Step::Pivot(u, v), Some(Step::Delete(u)))
    }

    // Does the steps of a move one after the other, as long as they are allowed.
    fn try_move(&mut self, m: &Move) -> Result<(), AllocError>
        requires valid { WellFormed self.old.progress.ordered.graph }
        requires applies { AppliesAt self.old.progress.ordered.graph m.now }
        ensures tries { OnOk result (Tries self.old.progress self.new.progress) }
        ensures looks { OnOk result (self.new.looks ≡ self.old.looks) }
    {
        let mut steps = Trace::new(self.alloc);
        add_steps(&mut steps, self.progress.graph(), m)?;
        self.queue.forget_near();
        for step in steps.as_slice() {
            self.queue.note_near(self.progress.graph(), step)?;
            if !self.progress.try_step(step)? {
                break;
            }
        }
        self.queue.touch_near(self.progress.graph())
    }

    // Fuses gadgets of the same neighbours that the queue missed.
    fn fuse_twins(&mut self) -> Result<(), AllocError>
        ensures tries { OnOk result (Tries self.old.progress self.new.progress) }
        ensures looks { OnOk result (self.new.looks ≡ self.old.looks) }
    {
        let mut keyed = keyed_gadgets(self.alloc, self.progress.graph())?;
        let Some((mut key, mut last)) = keyed.pop() else {
            return Ok(());
        };
        for (next, u) in keyed.iter().rev() {
            if *next == key {
                self.try_two(&Step::FuseTwin(*u, last), None)?;
            }
            (key, last) = (*next, *u);
        }
        Ok(())
    }

    // Makes moves until none is left.
    fn make_all(&mut self) -> Result<(), AllocError>
        requires ordered { IsOrdered self.old.progress.ordered }
        requires closed { self.old.progress.takes_gates ≡ false }
        requires few { self.old.progress.steps ≤ most_tried }
        ensures { OnOk result (Exhausts self.old.progress self.new.progress) }
    {
        self.drain(LEVELS - 1)?;
        self.fuse_twins()?;
        self.drain(LEVELS - 1)?;
        while self.looks > 0 {
            self.looks -= 1;
            let Some(found) = next_move(self.progress.graph()) else {
                return Ok(());
            };
            self.try_move(&found)?;
            self.drain(LEVELS - 1)?;
        }
        self.progress.make_all()
    }

    // What is left once no gates come and all moves are made.
    pub(crate) fn complete(self) -> Result<Progress, AllocError>
        requires ordered { IsOrdered self.progress.ordered }
        requires few { self.progress.steps ≤ most_tried }
        ensures { IfOk result (Completes self.progress) }
    {
        let mut engine = self;
        engine.progress.close();
        engine.queue.touch_all(engine.progress.graph())?;
        engine.make_all()?;
        Ok(engine.progress)
    }
}
