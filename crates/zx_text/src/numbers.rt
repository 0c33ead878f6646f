//! Numbers as they are spelled.

ghost use Rattle.std.specs.Prelude.{◌≡◌, ◌≤◌, ◌^◌, ℕ, List, [], true, false, map, decimal, IfNone, IfSome, IfOk};
ghost use Rattle.std.specs.List.{list_all};
ghost use Rattle.std.specs.Option.{option_map_or};
ghost use Rattle.zx_text.specs.Pieces.{pieces};
ghost use Rattle.zx_text.specs.Internal.SmallNumbers.{is_small};

use crate::pieces::next_part;
use itoa::Buffer;
use std::alloc::{AllocError, Global};

/// The number that a text spells in decimal digits, without leading zeros, if it is below 2^64.
pub fn number(text: &[u8]) -> Option<usize>
    ensures some { IfSome result (λ n. text.now ≡ decimal n) }
    ensures none { IfNone result ((n : ℕ) → text.now ≡ decimal n → 2 ^ 64 ≤ n) }
{
    match std::str::from_utf8(text) {
        Ok(digits) => number_in(digits),
        Err(_) => None,
    }
}

// The same of a text in UTF-8.
fn number_in(text: &str) -> Option<usize>
    ensures some { IfSome result (λ n. text.now ≡ decimal n) }
    ensures none { IfNone result ((n : ℕ) → text.now ≡ decimal n → 2 ^ 64 ≤ n) }
{
    match text.parse::<usize>() {
        Ok(number) => {
            if Buffer::new().format(number) == text {
                Some(number)
            } else {
                None
            }
        }
        Err(_) => None,
    }
}

// The numbers that these parts spell.
pub(crate) fn numbers(alloc: Global, parts: Option<&[u8]>) -> Result<Option<Vec<usize>>, AllocError>
    ensures some { IfOk result (λ found. IfSome found (λ numbers.
        map decimal numbers.items ≡ option_map_or (λ rest. pieces 32 rest.now) parts.entry [])) }
    ensures small { IfOk result (λ found. IfSome found (λ numbers. list_all is_small numbers.items ≡ true)) }
    ensures none { IfOk result (λ found. IfNone found ((numbers : List ℕ)
        → map decimal numbers ≡ option_map_or (λ rest. pieces 32 rest.now) parts.entry []
        → list_all is_small numbers ≡ false)) }
{
    let mut numbers = Vec::new(alloc);
    let mut rest = parts;
    while let Some(text) = rest {
        let (part, further) = next_part(text);
        match number(part) {
            Some(number) => numbers.push(number)?,
            None => return Ok(None),
        }
        rest = further;
    }
    Ok(Some(numbers))
}
