//! The lines of a diagram file.

ghost use Rattle.std.specs.Prelude.{◌≡◌, ◌≢◌, ◌∷◌, ◌&&◌, ℕ, Bool, [], true, codes, decimal, IfNone, IfSome};
ghost use Rattle.std.specs.Option.{option_map_or};
ghost use Rattle.zx_diagram.specs.declared.spider.Colour as diagram;
ghost use Rattle.zx_text.specs.Lines as marks;
ghost use Rattle.zx_text.specs.Pieces.{pieces};
ghost use Rattle.zx_text.specs.Internal.SmallNumbers.{is_small};
ghost use Rattle.diagram_text.specs.Lines.{parts, colour_name};
ghost use Rattle.diagram_text.specs.Internal.Stepping.{has_small};
ghost use Rattle.diagram_text.specs.declared.line.Line as zx;

use zx_diagram::{Colour, Leg, Wire};
use zx_text::{last_part, mark, next_part, number};

// What a line says. A line may name any number, and the phase of a spider stands as it is written.
#[derive(Clone, Copy, Debug, PartialEq, Eq)]
pub(crate) enum Line {
    Spider {
        number: usize,
        colour: Colour,
        phase: usize,
    },
    Edge(Wire),
    Input(Leg),
    Output(Leg),
    End,
}

// What a line says, without its line feed, if its parts are those of a line with small numbers.
pub(crate) fn parse(text: &[u8]) -> Option<Line>
    ensures some { IfSome result (λ line. parts line ≡ pieces 32 text.now) }
    ensures small { IfSome result (λ line. has_small line ≡ true) }
    ensures none { IfNone result ((l : zx.Line) → has_small l ≡ true → parts l ≢ pieces 32 text.now) }
{
    let (word, rest) = next_part(text);
    if word == b"spider".as_slice() {
        spider(rest)
    } else if word == b"edge".as_slice() {
        edge(rest)
    } else if word == b"input".as_slice() {
        Some(Line::Input(leg(rest)?))
    } else if word == b"output".as_slice() {
        Some(Line::Output(leg(rest)?))
    } else {
        end(word, rest)
    }
}

// The last line, of its first word and what stands behind it.
#[tactic(auto, using(zx_text::proofs::PieceLemmas::pieces_some))]
fn end(word: &[u8], rest: Option<&[u8]>) -> Option<Line>
    ensures some { IfSome result (λ line. parts line
        ≡ word.now ∷ option_map_or (λ r. pieces 32 r.now) rest.entry []) }
    ensures small { IfSome result (λ line. has_small line ≡ true) }
    ensures none { IfNone result (codes "end" ∷ []
        ≢ word.now ∷ option_map_or (λ r. pieces 32 r.now) rest.entry []) }
{
    match rest {
        Some(_further) => None,
        None => {
            if word == b"end".as_slice() {
                Some(Line::End)
            } else {
                None
            }
        }
    }
}

// The line of a spider, of what stands behind its word.
fn spider(rest: Option<&[u8]>) -> Option<Line>
    ensures some { IfSome result (λ line. parts line
        ≡ codes "spider" ∷ option_map_or (λ r. pieces 32 r.now) rest.entry []) }
    ensures small { IfSome result (λ line. has_small line ≡ true) }
    ensures none { IfNone result ((i phase : ℕ) (colour : diagram.Colour) → (is_small i && is_small phase) ≡ true →
        decimal i ∷ colour_name colour ∷ decimal phase ∷ []
        ≢ option_map_or (λ r. pieces 32 r.now) rest.entry []) }
{
    let (first, rest) = next_part(rest?);
    let (second, rest) = next_part(rest?);
    let third = last_part(rest?)?;
    Some(Line::Spider {
        number: number(first)?,
        colour: colour(second)?,
        phase: number(third)?,
    })
}

// The line of an edge, of what stands behind its word.
fn edge(rest: Option<&[u8]>) -> Option<Line>
    ensures some { IfSome result (λ line. parts line
        ≡ codes "edge" ∷ option_map_or (λ r. pieces 32 r.now) rest.entry []) }
    ensures small { IfSome result (λ line. has_small line ≡ true) }
    ensures none { IfNone result ((a b : ℕ) (hadamard : Bool) → (is_small a && is_small b) ≡ true →
        decimal a ∷ decimal b ∷ marks.mark hadamard ∷ []
        ≢ option_map_or (λ r. pieces 32 r.now) rest.entry []) }
{
    let (first, rest) = next_part(rest?);
    let (second, rest) = next_part(rest?);
    let third = last_part(rest?)?;
    Some(Line::Edge(Wire {
        a: number(first)?,
        b: number(second)?,
        hadamard: mark(third)?,
    }))
}

// Spider and mark of an input or output, of what stands behind its word.
fn leg(rest: Option<&[u8]>) -> Option<Leg>
    ensures some { IfSome result (λ leg. decimal leg.spider ∷ marks.mark leg.hadamard ∷ []
        ≡ option_map_or (λ r. pieces 32 r.now) rest.entry []) }
    ensures small { IfSome result (λ leg. is_small leg.spider ≡ true) }
    ensures none { IfNone result ((s : ℕ) (hadamard : Bool) → is_small s ≡ true →
        decimal s ∷ marks.mark hadamard ∷ [] ≢ option_map_or (λ r. pieces 32 r.now) rest.entry []) }
{
    let (first, rest) = next_part(rest?);
    let second = last_part(rest?)?;
    Some(Leg {
        spider: number(first)?,
        hadamard: mark(second)?,
    })
}

// The colour of this name.
fn colour(name: &[u8]) -> Option<Colour>
    ensures some { IfSome result (λ colour. colour_name colour ≡ name.now) }
    ensures none { IfNone result ((colour : diagram.Colour) → colour_name colour ≢ name.now) }
{
    if name == b"Z".as_slice() {
        Some(Colour::Z)
    } else if name == b"X".as_slice() {
        Some(Colour::X)
    } else {
        None
    }
}
