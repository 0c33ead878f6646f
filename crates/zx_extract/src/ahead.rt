//! Outputs among which is chosen, and what the choice does to the vertices that come next in the order.

use open_graph::VertexId;
use zx_gates::Qubit;

// At most so many of the next vertices are looked at.
pub(crate) const MOST_AHEAD: usize = 64;

// So many words have a bit for each output.
const WORDS: usize = 16;

// The cost of an output that none of the next vertices has.
pub(crate) const EVEN: usize = 1 << 32;

// Outputs among which is chosen, as a hint: who chooses one looks whether it may be.
#[derive(Drop)]
pub(crate) struct Choices {
    words: [u64; WORDS],
    count: usize,
}

impl Choices {
    // No outputs.
    pub(crate) fn none() -> Choices {
        Choices {
            words: [0; WORDS],
            count: 0,
        }
    }

    // One more output.
    pub(crate) fn add(&mut self, q: Qubit) {
        let word = usize::from(q / 64);
        if word < WORDS {
            self.words[word] |= 1 << (q % 64);
            self.count = self.count.saturating_add(1);
        }
    }

    // Whether an output is among them.
    pub(crate) fn has(&self, q: Qubit) -> bool {
        let word = usize::from(q / 64);
        word < WORDS && self.words[word] & (1 << (q % 64)) != 0
    }

    // How many there are.
    pub(crate) fn count(&self) -> usize {
        self.count
    }
}

// The next vertices, and how many of the outputs among which is chosen each has: a gadget as legs, or a correction set
// as members.
#[derive(Drop)]
pub(crate) struct Ahead {
    vertices: [VertexId; MOST_AHEAD],
    // Twice as many as each has.
    doubled: [usize; MOST_AHEAD],
    count: usize,
}

impl Ahead {
    // No vertices.
    pub(crate) fn none() -> Ahead {
        Ahead {
            vertices: [VertexId::new(0); MOST_AHEAD],
            doubled: [0; MOST_AHEAD],
            count: 0,
        }
    }

    // Looks at one more vertex, as long as there is room.
    pub(crate) fn look_at(&mut self, v: VertexId) {
        if self.count < MOST_AHEAD {
            self.vertices[self.count] = v;
            self.count += 1;
        }
    }

    // The vertex at a place.
    pub(crate) fn vertex(&self, place: usize) -> Option<VertexId> {
        if place < self.count && place < MOST_AHEAD {
            Some(self.vertices[place])
        } else {
            None
        }
    }

    // The vertex at a place has one more of the outputs.
    pub(crate) fn add(&mut self, place: usize) {
        if place < MOST_AHEAD {
            self.doubled[place] = self.doubled[place].saturating_add(2);
        }
    }

    // The cost of an output once the vertex at a place, which has it, is looked at: by the choice of that output this
    // vertex gets those of the outputs that it hadn't, and loses those that it had.
    pub(crate) fn cost(&self, cost: usize, place: usize, choices: &Choices) -> usize {
        if place < MOST_AHEAD {
            cost.saturating_add(choices.count())
                .saturating_sub(self.doubled[place])
        } else {
            cost
        }
    }
}
