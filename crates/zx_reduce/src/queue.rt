//! The vertices at which steps are tried next.

ghost use Rattle.std.specs.Prelude.{◌<◌};

use crate::levels::{LEVELS, block_size, level_in, level_of};
use graph_rewrites::Step;
use open_graph::{OpenGraph, Plane, VertexId};
use std::alloc::{AllocError, Global};
use vertex_map::{Values, VertexMap};

// Classes of numbers of neighbours: 0, 1, 2 and 3, 4 to 7, and so on; the last has all from 64 on.
const CLASSES: usize = 8;

// Spiders of one level: those of quarter turns, and those of half turns, by classes.
const OF_LEVEL: usize = 2 * CLASSES;

// The list of gadgets of odd phases, behind those of vertices that go at once and of spiders.
const GADGETS: usize = 1 + LEVELS * OF_LEVEL;

// How many lists there are.
const LISTS: usize = GADGETS + 1;

// In which list a vertex stands; LISTS for none.
struct Standing;

impl Values for Standing {
    type Value = usize;

    ghost absent = { λ _. 258 };

    fn absent(_: usize) -> usize {
        LISTS
    }
}

// Levels of vertices; the least one for those that wait for one.
struct Level;

impl Values for Level {
    type Value = u8;

    ghost absent = { λ _. 0 };

    fn absent(_: usize) -> u8 {
        0
    }
}

// Vertices at which steps may be tried, in lists: those that go at once, spiders of even phases by their
// level, phase and number of neighbours, and gadgets.
#[derive(Drop)]
pub(crate) struct Queue {
    // What was put into each list. Some of these vertices stand elsewhere by now.
    lists: Vec<Vec<VertexId>>,
    places: VertexMap<Standing>,
    levels: VertexMap<Level>,
    // All lists of vertices that go at once and of spiders are empty before this one.
    first: usize,
    // Vertices near those that a step is about.
    near: Vec<VertexId>,
}

impl Queue {
    // No vertices.
    pub(crate) fn new(alloc: Global) -> Result<Queue, AllocError> {
        let mut lists = Vec::new(alloc);
        for _ in 0..LISTS {
            lists.push(Vec::new(alloc))?;
        }
        Ok(Queue {
            lists,
            places: VertexMap::new(alloc),
            levels: VertexMap::new(alloc),
            first: 0,
            near: Vec::new(alloc),
        })
    }

    // The levels of vertices, by number.
    pub(crate) fn levels(&self) -> &[u8] {
        self.levels.as_slice()
    }

    // Gives a vertex a level, and puts it where it belongs.
    pub(crate) fn add(&mut self, g: &OpenGraph, u: VertexId, level: u8) -> Result<(), AllocError> {
        self.levels.set(u.get(), level)?;
        self.touch(g, u)
    }

    // Puts all vertices where they belong, each with its level in a whole graph.
    pub(crate) fn add_all(&mut self, g: &OpenGraph) -> Result<(), AllocError> {
        let block = block_size(g.outputs().len());
        for u in g.vertices() {
            self.add(g, u, level_of(g, u, block))?;
        }
        Ok(())
    }

    // Puts all vertices where they belong, each with the level that it has.
    pub(crate) fn touch_all(&mut self, g: &OpenGraph) -> Result<(), AllocError> {
        for u in g.vertices() {
            self.touch(g, u)?;
        }
        Ok(())
    }

    // The first list with a vertex, where spiders have at most this level.
    pub(crate) fn first_list(&mut self, level: usize) -> Option<usize> {
        let end = level
            .saturating_add(1)
            .saturating_mul(OF_LEVEL)
            .saturating_add(1)
            .min(GADGETS);
        for list in self.first..end {
            if self.has(list) {
                self.first = list;
                return Some(list);
            }
        }
        self.first = self.first.max(end);
        self.has(GADGETS).then_some(GADGETS)
    }

    // Whether anything was put into a list.
    fn has(&self, list: usize) -> bool {
        match self.lists.get(list) {
            Some(list) => !list.is_empty(),
            None => false,
        }
    }

    // Takes out what was put into a list last, and answers it where it stands there.
    pub(crate) fn take(&mut self, list: usize) -> Option<VertexId> {
        let u = self.lists.get_mut(list)?.pop()?;
        if self.places.get(u.get()) != list {
            return None;
        }
        self.places.remove(u.get());
        Some(u)
    }

    // Remembers no vertices.
    pub(crate) fn forget_near(&mut self) {
        self.near.clear();
    }

    // Remembers the vertices of a step, and their neighbours, beside those that are remembered.
    pub(crate) fn note_near(&mut self, g: &OpenGraph, step: &Step) -> Result<(), AllocError> {
        match step {
            Step::Pivot(u, v) | Step::FuseTwin(u, v) => {
                self.note(g, *u)?;
                self.note(g, *v)
            }
            Step::LocalComplement(u)
            | Step::Delete(u)
            | Step::SplitInput(u)
            | Step::SplitOutput(u)
            | Step::DropLone(u)
            | Step::FuseInto(u) => self.note(g, *u),
        }
    }

    // Remembers a vertex and its neighbours.
    fn note(&mut self, g: &OpenGraph, u: VertexId) -> Result<(), AllocError> {
        if !g.is_live(u) {
            return Ok(());
        }
        self.near.push(u)?;
        for v in g.neighbours(u) {
            self.near.push(v)?;
        }
        Ok(())
    }

    // Puts the remembered vertices where they belong.
    pub(crate) fn touch_near(&mut self, g: &OpenGraph) -> Result<(), AllocError> {
        for i in 0..self.near.len() {
            if let Some(u) = self.near.get(i).copied() {
                self.touch(g, u)?;
            }
        }
        Ok(())
    }

    // Puts a vertex where it belongs.
    fn touch(&mut self, g: &OpenGraph, u: VertexId) -> Result<(), AllocError> {
        let list = self.list_of(g, u);
        self.put(u, list)
    }

    // The list to which a vertex belongs, or LISTS.
    fn list_of(&self, g: &OpenGraph, u: VertexId) -> usize {
        if !g.is_live(u) || !g.is_interior(u) {
            return LISTS;
        }
        let (plane, phase) = g.weight(u);
        match (plane, phase.is_odd()) {
            (Plane::XY, true) => LISTS,
            (Plane::XY, false) => self.list_of_spider(u, phase.is_quarter_turn(), g.degree(u)),
            (Plane::YZ, true) => GADGETS,
            (Plane::XZ, _) | (Plane::YZ, false) => 0,
        }
    }

    // The list of a spider of a quarter turn, or of half turns, with so many neighbours.
    fn list_of_spider(&self, u: VertexId, is_quarter: bool, neighbours: usize) -> usize {
        let level = level_in(self.levels(), u);
        let class = class_of(neighbours);
        if is_quarter {
            1 + level * OF_LEVEL + class
        } else {
            1 + level * OF_LEVEL + CLASSES + class
        }
    }

    // A vertex stands in this list from now on, or in none.
    fn put(&mut self, u: VertexId, list: usize) -> Result<(), AllocError> {
        if self.places.get(u.get()) == list {
            return Ok(());
        }
        self.places.set(u.get(), list)?;
        if let Some(vertices) = self.lists.get_mut(list) {
            vertices.push(u)?;
            self.first = self.first.min(list);
        }
        Ok(())
    }
}

// The class of a number of neighbours.
fn class_of(neighbours: usize) -> usize
    ensures { result < 8 }
{
    let bits = usize::BITS - neighbours.leading_zeros();
    (bits as usize).min(CLASSES - 1)
}
