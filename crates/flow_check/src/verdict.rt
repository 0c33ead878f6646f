//! Verdicts on tables of corrections.

use open_graph::VertexId;

/// A condition of a generalised flow on a vertex and its correction set. Vertices without a set, as
/// the outputs, come after all that have one.
#[derive(Clone, Copy, Debug, PartialEq, Eq)]
pub enum Condition {
    /// No member of the set is an input.
    Input,
    /// Each member of the set other than the vertex comes after it.
    Order,
    /// Each vertex with an odd number of neighbours in the set, other than the vertex itself, comes
    /// after it.
    Odd,
    /// An XY vertex isn't in its set, and has an odd number of neighbours in it.
    XY,
    /// An XZ vertex is in its set, and has an odd number of neighbours in it.
    XZ,
    /// A YZ vertex is in its set, and has an even number of neighbours in it.
    YZ,
}

/// What was found of a table of corrections.
#[derive(Clone, Copy, Debug, PartialEq, Eq)]
pub enum Verdict {
    /// It is a generalised flow of the graph.
    Flow,
    /// It isn't one.
    Fails {
        /// The first vertex of the order at which a condition fails.
        vertex: VertexId,
        /// The first condition that fails there.
        condition: Condition,
    },
}
