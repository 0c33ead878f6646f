//! Two texts in one.

ghost use Rattle.std.specs.Prelude.{◌≡◌, ◌+◌, ◌≤◌, ◌++◌, List, ℕ, None, true, take, drop, length, IfSome};
ghost use Rattle.zx_run.specs.TwoTexts.{parting_line, IsParted, AreTexts};

/// The line that parts two texts.
pub const PARTING_LINE: &[u8] = b"//// second\n";

/// Where the first line begins that parts two texts, if there is one.
pub fn line_between(text: &[u8]) -> Option<usize>
    ensures within { IfSome result (λ at. at + length parting_line ≤ length text.now) }
    ensures parted { IfSome result (λ at.
        AreTexts text.now (take at text.now) (drop (at + length parting_line) text.now)) }
    ensures none { result ≡ None → (first second : List ℕ) → IsParted text.now first second → ⊥ }
{
    let mut begins = true;
    for at in 0..text.len() {
        if begins && is_line_at(text, at) {
            return Some(at);
        }
        begins = text[at] == b'\n';
    }
    None
}

// Whether the bytes from a place on begin with the line that parts two texts.
fn is_line_at(text: &[u8], at: usize) -> bool
    requires { at ≤ length text.now }
    ensures begins { result ≡ true
        → drop at text.now ≡ parting_line ++ drop (at + length parting_line) text.now }
    ensures within { result ≡ true → at + length parting_line ≤ length text.now }
    ensures found { (rest : List ℕ) → drop at text.now ≡ parting_line ++ rest → result ≡ true }
{
    text[at..].starts_with(PARTING_LINE)
}
