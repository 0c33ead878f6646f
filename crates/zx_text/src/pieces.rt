//! A text cut at its first separator.

ghost use Rattle.std.specs.Prelude.{◌≡◌, ◌≢◌, ℕ, List, ◌++◌, ◌∷◌, [], ◌<◌, length, false, IfNone, IfSome};
ghost use Rattle.std.specs.Option.{option_map_or};
ghost use Rattle.zx_model.specs.Bits.{member};
ghost use Rattle.zx_text.specs.Pieces.{pieces};

/// What stands before the first separator, and what stands behind it, if there is one.
pub fn cut(text: &[u8], separator: u8) -> Option<(&[u8], &[u8])>
    ensures cut { IfSome result (λ p. text.now ≡ p.0.now ++ separator ∷ p.1.now) }
    ensures first { IfSome result (λ p. member separator p.0.now ≡ false) }
    ensures none { IfNone result (member separator text.now ≡ false) }
{
    for (place, byte) in text.iter().enumerate() {
        if *byte == separator {
            return Some((&text[..place], &text[place + 1..]));
        }
    }
    None
}

/// The first part of a line, and what stands behind the space after it, if there is one.
pub fn next_part(text: &[u8]) -> (&[u8], Option<&[u8]>)
    ensures parts { pieces 32 text.now
        ≡ result.0.now ∷ option_map_or (λ rest. pieces 32 rest.now) result.1 [] }
    ensures shorter { IfSome result.1 (λ rest. length rest.now < length text.now) }
{
    match cut(text, b' ') {
        Some((part, rest)) => (part, Some(rest)),
        None => (text, None),
    }
}

/// The one part of a text without spaces.
#[tactic(auto, using(crate::proofs::PieceLemmas::pieces_some))]
pub fn last_part(text: &[u8]) -> Option<&[u8]>
    ensures some { IfSome result (λ part. pieces 32 text.now ≡ part.now ∷ []) }
    ensures none { IfNone result ((part : List ℕ) → pieces 32 text.now ≢ part ∷ []) }
{
    match next_part(text) {
        (_part, Some(_rest)) => None,
        (part, None) => Some(part),
    }
}
