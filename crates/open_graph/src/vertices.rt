//! The vertices of a graph, one after the other.

ghost use Rattle.std.specs.Iterator.{YieldsFirst, item_count};

use crate::id::VertexId;
use crate::slot_table::SlotTable;
use std::marker::Model;

/// The vertices of a graph by rising id, seen as the list of those that are left.
#[derive(Drop)]
pub struct Vertices<'a> {
    pub(crate) slots: &'a SlotTable,
    pub(crate) next: usize,
}

impl<'a> Model for Vertices<'a> {
    ghost use Rattle.std.specs.Prelude.{ℕ, List};
    ghost use Rattle.zx_calculus.specs.Graph.{ids};
    ghost use Rattle.open_graph.specs.Internal.Rows.{not_below};
    ghost use Rattle.open_graph.specs.Internal.Slots.{vertices_of};

    ghost Value = { List ℕ };

    ghost view = { λ it. not_below it.next (ids (vertices_of it.slots.now.slots)) };
}

impl<'a> Iterator for Vertices<'a> {
    type Item = VertexId;

    ghost next_gives = { YieldsFirst (λ rest. rest) };

    ghost remaining = { item_count (λ rest. rest) };

    fn next(&mut self) -> Option<VertexId> {
        match self.slots.first_from(self.next) {
            Some(first) => {
                self.next = first + 1;
                Some(VertexId::new(first))
            }
            None => None,
        }
    }
}
