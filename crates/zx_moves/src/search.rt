//! The search for the next move of simplification.

ghost use Rattle.std.specs.Prelude.{◌≡◌, ◌⊎◌, ◌<◌, ◌≤◌, ◌/◌, ◌==◌, ◌↔◌, ℕ, true, false, IsTrue, IfSome, IfNone, slice_get, nat_eq};
ghost use Rattle.std.specs.Int.{bit_at};
ghost use Rattle.std.specs.List.{find};
ghost use Rattle.std.specs.Cmp.Lexicographic.{pointwise};
ghost use Rattle.zx_model.specs.Bits.{member};
ghost use Rattle.zx_calculus.specs.Graph.{WellFormed, IsVertex, neighbours};
ghost use Rattle.zx_calculus.specs.Complements.{may_complement};
ghost use Rattle.zx_calculus.specs.Gadgets.{is_gadget};
ghost use Rattle.zx_calculus.specs.Moves.{IsQuarterGadget, IsInXZ, IsQuarterSpider, IsHalfSpider, IsBoundaryPivot, IsGadgetOf, AreTwins, IsStuck};
ghost use Rattle.zx_moves.specs.declared.moves.Kind.TheVariants as kinds;
ghost use Rattle.zx_moves.specs.Search.{AppliesAt, IsOfFirstKind};
ghost use Rattle.zx_moves.specs.Internal.Searching.{is_twin, IsMoveAt, IsMoveOf, IsSettled, MayBegin, NoneAt, NoneBefore, TellsTwins};

use crate::moves::{KINDS, Kind, Move};
use graph_rewrites::{is_gadget, may_complement, may_delete};
use open_graph::{OpenGraph, Plane, VertexId};

// Edges are counted where there are at most so many pairs of another neighbour of the one vertex and
// another of the other.
const MOST_PAIRS: usize = 256;

// The cost of a pivot that changes nothing. No more than this is taken off where edges are counted
// and both vertices have other neighbours.
const NO_CHANGE: usize = 4 * MOST_PAIRS;

/// The first kind of move that applies anywhere, and where, or None where no move is left.
pub fn next_move(g: &OpenGraph) -> Option<Move>
    ensures found { IfSome result (AppliesAt g.now.graph) }
    ensures first { IfSome result (IsOfFirstKind g.now.graph) }
    ensures none { IfNone result (IsStuck g.now.graph) }
{
    let mut best = None;
    // Only kinds before the best so far are still looked for.
    let mut limit = KINDS.len();
    for u in g.vertices() {
        if let Some((place, found)) = first_at(g, u, limit) {
            best = Some(found);
            limit = place;
        }
        if limit == 0 {
            break;
        }
    }
    best
}

// Of the kinds before a limit the first with a move at a vertex: its place, and the move.
fn first_at(g: &OpenGraph, u: VertexId, limit: usize) -> Option<(usize, Move)>
    requires valid { WellFormed g.now.graph }
    requires live { IsVertex g.now.graph u }
    requires few { limit ≤ 10 }
    ensures found { IfSome result (λ best. IsMoveAt g.now.graph best.0 best.1) }
    ensures earlier { IfSome result (λ best. best.0 < limit) }
    ensures none { IfSome result (λ best. NoneBefore g.now.graph best.0 u) }
    ensures stuck { IfNone result (NoneBefore g.now.graph limit u) }
{
    if is_settled(g, u) {
        return None;
    }
    for i in 0..limit {
        if let Some(found) = move_at(g, u, KINDS[i]) {
            return Some((i, found));
        }
    }
    None
}

// Whether a vertex is XY and of an odd phase. No move begins there, and most vertices are such.
fn is_settled(g: &OpenGraph, u: VertexId) -> bool
    requires { IsVertex g.now.graph u }
    ensures { IsTrue result ↔ IsSettled g.now.graph u }
{
    let (plane, phase) = g.weight(u);
    matches!(plane, Plane::XY) && phase.is_odd()
}

// Whether a move of this kind may begin at a vertex, by the vertex alone.
fn may_begin(g: &OpenGraph, u: VertexId, kind: Kind) -> bool
    requires valid { WellFormed g.now.graph }
    requires live { IsVertex g.now.graph u }
    ensures { IsTrue result ↔ MayBegin g.now.graph kind u }
{
    match kind {
        Kind::Delete => may_delete(g, u),
        Kind::QuarterGadget => is_quarter_gadget(g, u),
        Kind::FromXZ => is_in_xz(g, u),
        Kind::QuarterSpider => is_quarter_spider(g, u),
        Kind::InnerPivot | Kind::BoundaryPivot => is_half_spider(g, u),
        Kind::GadgetPair | Kind::Twins => is_gadget(g, u),
        Kind::LoneGadget => is_gadget_of(g, u, 0),
        Kind::SingleGadget => is_gadget_of(g, u, 1),
    }
}

// The move of this kind that applies at a vertex, None where there is none. Of the pivots with neighbours without
// ends the one that costs least.
fn move_at(g: &OpenGraph, u: VertexId, kind: Kind) -> Option<Move>
    requires valid { WellFormed g.now.graph }
    requires live { IsVertex g.now.graph u }
    ensures found { IfSome result (IsMoveOf g.now.graph kind) }
    ensures none { IfNone result (NoneAt g.now.graph kind u) }
{
    if !may_begin(g, u, kind) {
        return None;
    }
    match kind {
        Kind::Delete => Some(Move::Delete(u)),
        Kind::QuarterGadget => Some(Move::QuarterGadget(u)),
        Kind::FromXZ => Some(Move::FromXZ(u)),
        Kind::QuarterSpider => Some(Move::QuarterSpider(u)),
        Kind::InnerPivot => Some(Move::InnerPivot(u, inner_neighbour(g, u)?)),
        Kind::BoundaryPivot => Some(Move::BoundaryPivot(u, boundary_neighbour(g, u)?)),
        Kind::GadgetPair => Some(Move::GadgetPair(u, gadget_beside(g, u)?)),
        Kind::LoneGadget => Some(Move::LoneGadget(u)),
        Kind::SingleGadget => Some(Move::SingleGadget(u)),
        Kind::Twins => Some(Move::Twins(u, twin_of(g, u)?)),
    }
}

// Of the neighbours without ends the one whose pivot with u costs least.
fn inner_neighbour(g: &OpenGraph, u: VertexId) -> Option<VertexId>
    requires { IsVertex g.now.graph u }
    ensures found { IfSome result (λ v.
        (member v (neighbours g.now.graph u) ≡ true) × (may_complement g.now.graph v ≡ true)) }
    ensures none { IfNone result ((v : ℕ) → member v (neighbours g.now.graph u) ≡ true →
        may_complement g.now.graph v ≡ false) }
{
    let mut best = None;
    let mut least = 0;
    for v in g.neighbours(u) {
        (best, least) = better_of(g, u, best, least, v);
    }
    best
}

// A neighbour of a spider of half turns, where all have ends.
fn boundary_neighbour(g: &OpenGraph, u: VertexId) -> Option<VertexId>
    requires valid { WellFormed g.now.graph }
    requires spider { IsHalfSpider g.now.graph u }
    ensures found { IfSome result (IsBoundaryPivot g.now.graph u) }
    ensures none { IfNone result ((v : ℕ) → ¬ IsBoundaryPivot g.now.graph u v) }
{
    if inner_neighbour(g, u).is_some() {
        return None;
    }
    first_neighbour(g, u)
}

// The best so far with its cost, or v with its own, where that has no end and costs less.
fn better_of(
    g: &OpenGraph,
    u: VertexId,
    best: Option<VertexId>,
    least: usize,
    v: VertexId,
) -> (Option<VertexId>, usize)
    requires { IsVertex g.now.graph u }
    ensures found { IfSome result.0 (λ w.
        ((w ≡ v) × (may_complement g.now.graph v ≡ true)) ⊎ (best ≡ Some w)) }
    ensures none { IfNone result.0 ((best ≡ None) × (may_complement g.now.graph v ≡ false)) }
{
    if !may_complement(g, v) {
        return (best, least);
    }
    let cost = pivot_cost(g, u, v);
    if best.is_none() || cost < least {
        (Some(v), cost)
    } else {
        (best, least)
    }
}

/// What a pivot of u with v costs, to compare it with those of u with other vertices: about how many
/// edges there are more once it is made and u deleted. Where there are too many pairs to count edges,
/// it is above all costs that are counted, and rises with the neighbours of v.
pub fn pivot_cost(g: &OpenGraph, u: VertexId, v: VertexId) -> usize
    requires u_live { IsVertex g.now.graph u }
    requires v_live { IsVertex g.now.graph v }
{
    // How many other neighbours each has. Once u is deleted, v has those of u, and as many edges are
    // gone as v had other neighbours.
    let near = g.degree(u).saturating_sub(1);
    let far = g.degree(v).saturating_sub(1);
    if far == 0 {
        return NO_CHANGE.saturating_sub(near.saturating_mul(2));
    }
    let pairs = near.saturating_mul(far);
    if pairs > MOST_PAIRS {
        return far.saturating_add(NO_CHANGE + MOST_PAIRS);
    }
    let gone = edges_across(g, u, v)
        .saturating_mul(2)
        .saturating_add(pairs_in_common(g, u, v))
        .saturating_add(far);
    (NO_CHANGE + pairs).saturating_sub(gone)
}

// How many of the pairs are of two common neighbours, or of one with itself: a pivot joins none of
// these.
fn pairs_in_common(g: &OpenGraph, u: VertexId, v: VertexId) -> usize
    requires u_live { IsVertex g.now.graph u }
    requires v_live { IsVertex g.now.graph v }
{
    let common = common_neighbours(g, u, v);
    common.saturating_mul(common)
}

// About how many edges join another neighbour of u to another of v: a pivot takes these out, and
// joins the other such pairs. Edges to u are counted too, as many for each v, and those between two
// common neighbours twice.
fn edges_across(g: &OpenGraph, u: VertexId, v: VertexId) -> usize
    requires u_live { IsVertex g.now.graph u }
    requires v_live { IsVertex g.now.graph v }
{
    let mut edges: usize = 0;
    for p in g.neighbours(u) {
        if p != v {
            edges = edges.saturating_add(common_neighbours(g, p, v));
        }
    }
    edges
}

// How many neighbours two vertices have in common.
fn common_neighbours(g: &OpenGraph, p: VertexId, v: VertexId) -> usize
    requires p_live { IsVertex g.now.graph p }
    requires v_live { IsVertex g.now.graph v }
{
    g.neighbour_set(p).common_with(g.neighbour_set(v))
}

fn first_neighbour(g: &OpenGraph, u: VertexId) -> Option<VertexId>
    requires { IsVertex g.now.graph u }
    ensures { result ≡ slice_get (neighbours g.now.graph u) 0 }
{
    g.neighbours(u).next()
}

fn gadget_beside(g: &OpenGraph, u: VertexId) -> Option<VertexId>
    requires { IsVertex g.now.graph u }
    ensures { result ≡ find (is_gadget g.now.graph) (neighbours g.now.graph u) }
{
    g.neighbours(u).find(|v| is_gadget(g, *v))
}

// A twin of a gadget: it is a neighbour of each neighbour of that.
fn twin_of(g: &OpenGraph, u: VertexId) -> Option<VertexId>
    requires valid { WellFormed g.now.graph }
    requires gadget { is_gadget g.now.graph u ≡ true }
    ensures found { IfSome result (AreTwins g.now.graph u) }
    ensures none { IfNone result (NoneAt g.now.graph kinds.Twins u) }
{
    let near = first_neighbour(g, u)?;
    twin_beside(g, u, near)
}

// The first of a vertex's neighbours that is a twin of u.
fn twin_beside(g: &OpenGraph, u: VertexId, near: VertexId) -> Option<VertexId>
    requires live { IsVertex g.now.graph u }
    requires near { IsVertex g.now.graph near }
    ensures { result ≡ find (is_twin g.now.graph u) (neighbours g.now.graph near) }
{
    // The index of the word that is told. Before the first, no vertex is left out.
    let mut index = usize::MAX;
    let mut beside = u64::MAX;
    for v in g.neighbours(near) {
        let next = v.get() / 64;
        beside = beside_all_at(g, u, next, index, beside);
        index = next;
        if is_twin(g, u, v, beside) {
            return Some(v);
        }
    }
    None
}

// Of the 64 vertices from `64 * next` on, those beside each neighbour of u, which are told already where `next` is the
// index of the word that is told.
fn beside_all_at(g: &OpenGraph, u: VertexId, next: usize, index: usize, told: u64) -> u64
    requires live { IsVertex g.now.graph u }
    requires told { TellsTwins g.now.graph u index told }
    ensures { TellsTwins g.now.graph u next result }
{
    if next == index {
        told
    } else {
        beside_all(g, u, next)
    }
}

// Of the 64 vertices from `64 * index` on, those beside each neighbour of u, as the bits of a word.
fn beside_all(g: &OpenGraph, u: VertexId, index: usize) -> u64
    requires { IsVertex g.now.graph u }
    ensures { TellsTwins g.now.graph u index result }
{
    let mut beside = u64::MAX;
    for near in g.neighbours(u) {
        beside &= g.neighbour_set(near).word(index);
        if beside == 0 {
            return 0;
        }
    }
    beside
}

fn is_quarter_gadget(g: &OpenGraph, u: VertexId) -> bool
    requires { IsVertex g.now.graph u }
    ensures { (result ≡ true) ↔ IsQuarterGadget g.now.graph u }
{
    let (plane, phase) = g.weight(u);
    matches!(plane, Plane::YZ) && phase.is_quarter_turn()
}

fn is_in_xz(g: &OpenGraph, u: VertexId) -> bool
    requires { IsVertex g.now.graph u }
    ensures { (result ≡ true) ↔ IsInXZ g.now.graph u }
{
    let (plane, _) = g.weight(u);
    matches!(plane, Plane::XZ)
}

fn is_quarter_spider(g: &OpenGraph, u: VertexId) -> bool
    requires { IsVertex g.now.graph u }
    ensures { (result ≡ true) ↔ IsQuarterSpider g.now.graph u }
{
    let (plane, phase) = g.weight(u);
    g.is_interior(u) && matches!(plane, Plane::XY) && phase.is_quarter_turn()
}

fn is_half_spider(g: &OpenGraph, u: VertexId) -> bool
    requires { IsVertex g.now.graph u }
    ensures { (result ≡ true) ↔ IsHalfSpider g.now.graph u }
{
    let (plane, phase) = g.weight(u);
    g.is_interior(u) && matches!(plane, Plane::XY) && phase.is_half_turns()
}

fn is_gadget_of(g: &OpenGraph, u: VertexId, legs: usize) -> bool
    requires { IsVertex g.now.graph u }
    ensures { (result ≡ true) ↔ IsGadgetOf g.now.graph u legs }
{
    let (plane, _) = g.weight(u);
    matches!(plane, Plane::YZ) && g.degree(u) == legs
}

// Whether v is a gadget other than u with the neighbours of u. The word tells which vertices are beside each of these:
// most gadgets aren't.
fn is_twin(g: &OpenGraph, u: VertexId, v: VertexId, beside: u64) -> bool
    requires live { IsVertex g.now.graph u }
    requires told { TellsTwins g.now.graph u (v / 64) beside }
    ensures { result ≡ is_twin g.now.graph u v }
{
    if !has_bit(beside, v.get() % 64) {
        return false;
    }
    v != u && is_gadget(g, v) && are_alike(g, u, v)
}

// Whether a bit of a word is set.
fn has_bit(word: u64, place: usize) -> bool
    requires { place < 64 }
    ensures { result ≡ (bit_at word place == 1) }
{
    word >> place & 1 == 1
}

// Whether two vertices have the same neighbours.
fn are_alike(g: &OpenGraph, u: VertexId, v: VertexId) -> bool
    requires u_live { IsVertex g.now.graph u }
    requires v_live { IsVertex g.now.graph v }
    ensures { result ≡ pointwise nat_eq (neighbours g.now.graph v) (neighbours g.now.graph u) }
{
    g.neighbour_set(v).is_same(g.neighbour_set(u))
}
