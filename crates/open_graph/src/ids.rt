//! The vertices of a set, one after the other.

ghost use Rattle.std.specs.Iterator.{YieldsFirst, item_count};

use crate::id::VertexId;
use std::marker::Model;
use zx_bits::Numbers;

/// The vertices of a set by rising id, seen as the list of those that are left.
#[derive(Drop)]
pub struct Ids<'a> {
    pub(crate) numbers: Numbers<'a>,
}

impl<'a> Model for Ids<'a> {
    ghost use Rattle.std.specs.Prelude.{ℕ, List};

    ghost Value = { List ℕ };

    ghost view = { λ it. it.numbers };
}

impl<'a> Iterator for Ids<'a> {
    type Item = VertexId;

    ghost next_gives = { YieldsFirst (λ rest. rest) };

    ghost remaining = { item_count (λ rest. rest) };

    fn next(&mut self) -> Option<VertexId> {
        self.numbers.next().map(VertexId::new)
    }
}
