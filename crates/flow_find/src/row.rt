//! A row of the elimination.

ghost use Rattle.std.specs.Prelude.{◌≡◌, OnOk};
ghost use Rattle.flow_find.specs.Internal.Rows.{IsAdded, IsDropped};

use crate::sets::take_out;
use open_graph::{VertexId, VertexSet};
use std::alloc::AllocError;

// A set of members, and the vertices left that have an odd number of neighbours among them. The
// pivot is one of these columns. The size is a hint on which nothing rests: how many members there
// were when they were last counted.
#[derive(Drop)]
pub(crate) struct Row {
    pub(crate) pivot: VertexId,
    pub(crate) columns: VertexSet,
    pub(crate) members: VertexSet,
    pub(crate) size: usize,
}

impl Row {
    // Adds a row, where it is picked.
    pub(crate) fn add_if(&mut self, picked: bool, row: &Row) -> Result<(), AllocError>
        ensures { OnOk result (IsAdded picked row.now self.old self.new) }
    {
        if !picked {
            return Ok(());
        }
        self.columns.toggle_all(&row.columns)?;
        self.members.toggle_all(&row.members)
    }

    // Adds a row, where it is picked, and counts the members.
    pub(crate) fn add_counted_if(&mut self, picked: bool, row: &Row) -> Result<(), AllocError>
        ensures { OnOk result (IsAdded picked row.now self.old self.new) }
    {
        if !picked {
            return Ok(());
        }
        self.add_if(picked, row)?;
        self.count();
        Ok(())
    }

    // Counts the members.
    pub(crate) fn count(&mut self)
        ensures pivot { self.new.pivot ≡ self.old.pivot }
        ensures columns { self.new.columns.ids ≡ self.old.columns.ids }
        ensures members { self.new.members.ids ≡ self.old.members.ids }
    {
        self.size = self.members.len();
    }

    // Takes a column out.
    pub(crate) fn drop_column(&mut self, v: VertexId) -> Result<(), AllocError>
        ensures { OnOk result (IsDropped v self.old self.new) }
    {
        take_out(&mut self.columns, v)
    }
}
