//! The lines of a graph file.

ghost use Rattle.std.specs.Prelude.{◌≡◌, ◌≢◌, ◌∷◌, ℕ, Bool, List, [], true, ◌&&◌, codes, decimal, map, IfOk, IfNone, IfSome};
ghost use Rattle.std.specs.List.{list_all};
ghost use Rattle.std.specs.Option.{option_map_or};
ghost use Rattle.zx_calculus.specs.Graph as graph;
ghost use Rattle.open_graph.specs.Planes.{plane_named};
ghost use Rattle.zx_text.specs.Lines.{parts, plane_name};
ghost use Rattle.zx_text.specs.Lines as zx;
ghost use Rattle.zx_text.specs.Pieces.{pieces};
ghost use Rattle.zx_text.specs.Internal.SmallNumbers.{is_small};
ghost use Rattle.zx_text.specs.Internal.Taking.{line_said, has_small};

use crate::numbers::{number, numbers};
use crate::pieces::{last_part, next_part};
use open_graph::Plane;
use std::alloc::{AllocError, Global};

// What a line says. Ids are plain numbers, since a line may name any.
#[derive(Drop)]
pub(crate) enum Line {
    Vertex {
        number: usize,
        plane: Plane,
        phase: usize,
    },
    Edge(usize, usize),
    Input(usize, bool),
    Output(usize, bool),
    Flow,
    Order(Vec<usize>),
    // The vertex, and the members of its set.
    Correct(usize, Vec<usize>),
    End,
}

// What a line says, without its line feed, if its parts are those of a line with small numbers.
pub(crate) fn parse(alloc: Global, text: &[u8]) -> Result<Option<Line>, AllocError>
    ensures some { IfOk result (λ found. IfSome found (λ line. parts (line_said line) ≡ pieces 32 text.now)) }
    ensures small { IfOk result (λ found. IfSome found (λ line. has_small (line_said line) ≡ true)) }
    ensures none { IfOk result (λ found. IfNone found
        ((l : zx.Line) → has_small l ≡ true → parts l ≢ pieces 32 text.now)) }
{
    let (word, rest) = next_part(text);
    if word == b"vertex".as_slice() {
        Ok(vertex(rest))
    } else if word == b"edge".as_slice() {
        Ok(edge(rest))
    } else if word == b"input".as_slice() {
        Ok(input(rest))
    } else if word == b"output".as_slice() {
        Ok(output(rest))
    } else if word == b"order".as_slice() {
        order(alloc, rest)
    } else if word == b"correct".as_slice() {
        correction(alloc, rest)
    } else {
        Ok(alone(word, rest))
    }
}

// The line of one word alone.
#[tactic(auto, using(crate::proofs::PieceLemmas::pieces_some))]
fn alone(word: &[u8], rest: Option<&[u8]>) -> Option<Line>
    ensures some { IfSome result (λ line. parts (line_said line)
        ≡ word.now ∷ option_map_or (λ r. pieces 32 r.now) rest.entry []) }
    ensures small { IfSome result (λ line. has_small (line_said line) ≡ true) }
    ensures flow { IfNone result (codes "flow" ∷ []
        ≢ word.now ∷ option_map_or (λ r. pieces 32 r.now) rest.entry []) }
    ensures end { IfNone result (codes "end" ∷ []
        ≢ word.now ∷ option_map_or (λ r. pieces 32 r.now) rest.entry []) }
{
    match rest {
        Some(_further) => None,
        None => one_word(word),
    }
}

// The same where nothing stands behind the word.
fn one_word(word: &[u8]) -> Option<Line>
    ensures some { IfSome result (λ line. parts (line_said line) ≡ word.now ∷ []) }
    ensures small { IfSome result (λ line. has_small (line_said line) ≡ true) }
    ensures flow { IfNone result (codes "flow" ≢ word.now) }
    ensures end { IfNone result (codes "end" ≢ word.now) }
{
    if word == b"flow".as_slice() {
        Some(Line::Flow)
    } else if word == b"end".as_slice() {
        Some(Line::End)
    } else {
        None
    }
}

// The line of a vertex, of what stands behind its word.
fn vertex(rest: Option<&[u8]>) -> Option<Line>
    ensures some { IfSome result (λ line. parts (line_said line)
        ≡ codes "vertex" ∷ option_map_or (λ r. pieces 32 r.now) rest.entry []) }
    ensures small { IfSome result (λ line. has_small (line_said line) ≡ true) }
    ensures none { IfNone result ((i phase : ℕ) (plane : graph.Plane) → (is_small i && is_small phase) ≡ true →
        decimal i ∷ plane_name plane ∷ decimal phase ∷ []
        ≢ option_map_or (λ r. pieces 32 r.now) rest.entry []) }
{
    let (first, rest) = next_part(rest?);
    let (second, rest) = next_part(rest?);
    let third = last_part(rest?)?;
    Some(Line::Vertex {
        number: number(first)?,
        plane: plane(second)?,
        phase: number(third)?,
    })
}

// The line of an edge, of what stands behind its word.
fn edge(rest: Option<&[u8]>) -> Option<Line>
    ensures some { IfSome result (λ line. parts (line_said line)
        ≡ codes "edge" ∷ option_map_or (λ r. pieces 32 r.now) rest.entry []) }
    ensures small { IfSome result (λ line. has_small (line_said line) ≡ true) }
    ensures none { IfNone result ((a b : ℕ) → (is_small a && is_small b) ≡ true →
        decimal a ∷ decimal b ∷ [] ≢ option_map_or (λ r. pieces 32 r.now) rest.entry []) }
{
    let (first, rest) = next_part(rest?);
    let second = last_part(rest?)?;
    Some(Line::Edge(number(first)?, number(second)?))
}

// The line of an input, of what stands behind its word.
fn input(rest: Option<&[u8]>) -> Option<Line>
    ensures some { IfSome result (λ line. parts (line_said line)
        ≡ codes "input" ∷ option_map_or (λ r. pieces 32 r.now) rest.entry []) }
    ensures small { IfSome result (λ line. has_small (line_said line) ≡ true) }
    ensures none { IfNone result ((v : ℕ) (hadamard : Bool) → is_small v ≡ true →
        decimal v ∷ zx.mark hadamard ∷ [] ≢ option_map_or (λ r. pieces 32 r.now) rest.entry []) }
{
    let (v, hadamard) = end(rest)?;
    Some(Line::Input(v, hadamard))
}

// The line of an output, of what stands behind its word.
fn output(rest: Option<&[u8]>) -> Option<Line>
    ensures some { IfSome result (λ line. parts (line_said line)
        ≡ codes "output" ∷ option_map_or (λ r. pieces 32 r.now) rest.entry []) }
    ensures small { IfSome result (λ line. has_small (line_said line) ≡ true) }
    ensures none { IfNone result ((v : ℕ) (hadamard : Bool) → is_small v ≡ true →
        decimal v ∷ zx.mark hadamard ∷ [] ≢ option_map_or (λ r. pieces 32 r.now) rest.entry []) }
{
    let (v, hadamard) = end(rest)?;
    Some(Line::Output(v, hadamard))
}

// Vertex and mark of an end, of what stands behind its word.
fn end(rest: Option<&[u8]>) -> Option<(usize, bool)>
    ensures some { IfSome result (λ e. decimal e.0 ∷ zx.mark e.1 ∷ []
        ≡ option_map_or (λ r. pieces 32 r.now) rest.entry []) }
    ensures none { IfNone result ((v : ℕ) (hadamard : Bool) → is_small v ≡ true →
        decimal v ∷ zx.mark hadamard ∷ [] ≢ option_map_or (λ r. pieces 32 r.now) rest.entry []) }
{
    let (first, rest) = next_part(rest?);
    let second = last_part(rest?)?;
    Some((number(first)?, mark(second)?))
}

// The line of an order, of what stands behind its word.
fn order(alloc: Global, rest: Option<&[u8]>) -> Result<Option<Line>, AllocError>
    ensures some { IfOk result (λ found. IfSome found (λ line. parts (line_said line)
        ≡ codes "order" ∷ option_map_or (λ r. pieces 32 r.now) rest.entry [])) }
    ensures small { IfOk result (λ found. IfSome found (λ line. has_small (line_said line) ≡ true)) }
    ensures none { IfOk result (λ found. IfNone found ((vs : List ℕ) → list_all is_small vs ≡ true →
        map decimal vs ≢ option_map_or (λ r. pieces 32 r.now) rest.entry [])) }
{
    match numbers(alloc, rest)? {
        Some(vertices) => Ok(Some(Line::Order(vertices))),
        None => Ok(None),
    }
}

// The line of a set, of what stands behind its word.
fn correction(alloc: Global, rest: Option<&[u8]>) -> Result<Option<Line>, AllocError>
    ensures some { IfOk result (λ found. IfSome found (λ line. parts (line_said line)
        ≡ codes "correct" ∷ option_map_or (λ r. pieces 32 r.now) rest.entry [])) }
    ensures small { IfOk result (λ found. IfSome found (λ line. has_small (line_said line) ≡ true)) }
    ensures none { IfOk result (λ found. IfNone found ((v : ℕ) (ws : List ℕ) →
        (is_small v && list_all is_small ws) ≡ true →
        decimal v ∷ map decimal ws ≢ option_map_or (λ r. pieces 32 r.now) rest.entry [])) }
{
    let Some(text) = rest else {
        return Ok(None);
    };
    let (first, rest) = next_part(text);
    let Some(v) = number(first) else {
        return Ok(None);
    };
    match numbers(alloc, rest)? {
        Some(members) => Ok(Some(Line::Correct(v, members))),
        None => Ok(None),
    }
}

// The plane of this name.
fn plane(name: &[u8]) -> Option<Plane>
    ensures some { IfSome result (λ plane. plane_name (plane_named plane) ≡ name.now) }
    ensures none { IfNone result ((plane : graph.Plane) → plane_name plane ≢ name.now) }
{
    if name == b"XY".as_slice() {
        Some(Plane::XY)
    } else if name == b"XZ".as_slice() {
        Some(Plane::XZ)
    } else if name == b"YZ".as_slice() {
        Some(Plane::YZ)
    } else {
        None
    }
}

/// Whether a mark is that of a wire with a Hadamard, if it is a mark.
pub fn mark(name: &[u8]) -> Option<bool>
    ensures some { IfSome result (λ hadamard. zx.mark hadamard ≡ name.now) }
    ensures none { IfNone result ((hadamard : Bool) → zx.mark hadamard ≢ name.now) }
{
    if name == b"had".as_slice() {
        Some(true)
    } else if name == b"plain".as_slice() {
        Some(false)
    } else {
        None
    }
}
