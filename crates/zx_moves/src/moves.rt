//! The moves of simplification and their kinds, in the order in which these are tried.

ghost use Rattle.std.specs.Prelude.{◌≡◌};
ghost use Rattle.zx_moves.specs.Search.{kind_of};

use open_graph::VertexId;

/// A place at which a graph can be made simpler, by kind.
#[derive(Clone, Copy, Debug, PartialEq, Eq)]
pub enum Move {
    /// An XZ or YZ vertex of phase 0 or half a turn: it can be deleted.
    Delete(VertexId),
    /// A YZ vertex of a quarter turn, or three: a local complement makes it deletable.
    QuarterGadget(VertexId),
    /// An XZ vertex of any other phase: a local complement makes it XY.
    FromXZ(VertexId),
    /// An interior XY vertex of a quarter turn, or three: a local complement makes it deletable.
    QuarterSpider(VertexId),
    /// An interior XY vertex of phase 0 or half a turn, and an interior neighbour: a pivot of the
    /// two makes the first deletable.
    InnerPivot(VertexId, VertexId),
    /// An interior XY vertex of phase 0 or half a turn all of whose neighbours have ends, and one
    /// of these: its ends are split, then the two are pivoted.
    BoundaryPivot(VertexId, VertexId),
    /// Two adjacent YZ vertices: a pivot makes both XY.
    GadgetPair(VertexId, VertexId),
    /// A YZ vertex without neighbours: it can be dropped.
    LoneGadget(VertexId),
    /// A YZ vertex with one neighbour: it can be fused into that.
    SingleGadget(VertexId),
    /// Two YZ vertices with equal neighbours: they can be fused.
    Twins(VertexId, VertexId),
}

/// The kinds of moves, named as the moves are.
#[derive(Clone, Copy, Debug, PartialEq, Eq)]
pub enum Kind {
    Delete,
    QuarterGadget,
    FromXZ,
    QuarterSpider,
    InnerPivot,
    BoundaryPivot,
    GadgetPair,
    LoneGadget,
    SingleGadget,
    Twins,
}

/// The kinds in the order in which they are tried.
pub const KINDS: [Kind; 10] = [
    Kind::Delete,
    Kind::QuarterGadget,
    Kind::FromXZ,
    Kind::QuarterSpider,
    Kind::InnerPivot,
    Kind::BoundaryPivot,
    Kind::GadgetPair,
    Kind::LoneGadget,
    Kind::SingleGadget,
    Kind::Twins,
];

impl Move {
    /// The kind of the move.
    pub fn kind(&self) -> Kind
        ensures { result ≡ kind_of self.now }
    {
        match self {
            Move::Delete(_) => Kind::Delete,
            Move::QuarterGadget(_) => Kind::QuarterGadget,
            Move::FromXZ(_) => Kind::FromXZ,
            Move::QuarterSpider(_) => Kind::QuarterSpider,
            Move::InnerPivot(_, _) => Kind::InnerPivot,
            Move::BoundaryPivot(_, _) => Kind::BoundaryPivot,
            Move::GadgetPair(_, _) => Kind::GadgetPair,
            Move::LoneGadget(_) => Kind::LoneGadget,
            Move::SingleGadget(_) => Kind::SingleGadget,
            Move::Twins(_, _) => Kind::Twins,
        }
    }
}
