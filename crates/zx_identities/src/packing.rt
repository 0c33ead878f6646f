//! Phases on parities, 64 to a word.

ghost use Rattle.std.specs.Prelude.{◌≡◌, ◌≤◌, ◌<◌, ◌+◌, ◌*◌, ◌^◌, ◌/◌, ◌%◌, ℕ, Bool, List, length, get_or, IfOk};
ghost use Rattle.zx_model.specs.Bits.{one_if};
ghost use Rattle.zx_model.specs.Phase.{turn};
ghost use Rattle.zx_identities.specs.Internal.Parities.{lowest, phase_of};
ghost use Rattle.zx_identities.specs.Internal.Packing.{packed, has_bit, has_turns, IsGroup, total};

use crate::parities::Term;
use std::alloc::{AllocError, Global};

/// At most 64 phases on parities: a word has a bit for each.
#[derive(Clone, Copy)]
pub(crate) struct Group {
    /// For each bit of a parity which of them have it set.
    pub(crate) rows: [u64; 128],
    /// Which parities are odd where the walk over basis states stands.
    pub(crate) odd: u64,
    /// Which phases have a sixteenth turn in them.
    pub(crate) ones: u64,
    /// Which have two.
    pub(crate) twos: u64,
    /// Which have four.
    pub(crate) fours: u64,
    /// Which have eight.
    pub(crate) eights: u64,
}

/// The groups of phases on parities of so many bits.
pub(crate) fn grouped(alloc: Global, terms: &[Term], bits: usize) -> Result<Vec<Group>, AllocError>
    requires some { 0 < bits }
    requires few { bits ≤ 128 }
    ensures { IfOk result (λ groups. (x : List Bool) → length x < bits →
        total groups.items 1 x % turn ≡ phase_of terms.now x % turn) }
{
    let mut groups = Vec::new(alloc);
    let mut start = 0;
    while start < terms.len() {
        let end = terms.len().min(start + 64);
        groups.push(group_of(&terms[start..end], bits))?;
        start = end;
    }
    Ok(groups)
}

// The group of at most 64 of them.
fn group_of(terms: &[Term], bits: usize) -> Group
    requires small { length terms.now ≤ 64 }
    requires some { 0 < bits }
    requires few { bits ≤ 128 }
    ensures { IsGroup bits terms.now result }
{
    let rows = rows_of(terms, bits);
    Group {
        rows,
        odd: parities_with(terms, 0),
        ones: phases_with(terms, 1),
        twos: phases_with(terms, 2),
        fours: phases_with(terms, 4),
        eights: phases_with(terms, 8),
    }
}

// For each of so many bits of a parity which have it set.
fn rows_of(terms: &[Term], bits: usize) -> [u64; 128]
    requires small { length terms.now ≤ 64 }
    requires few { bits ≤ 128 }
    ensures { (bit : ℕ) → bit < bits → get_or result bit 0 ≡ packed 0 (has_bit bit) terms.now }
{
    let mut rows = [0; 128];
    for bit in 0..bits {
        rows[bit] = parities_with(terms, bit);
    }
    rows
}

// Which parities have a bit set.
fn parities_with(terms: &[Term], bit: usize) -> u64
    requires small { length terms.now ≤ 64 }
    requires few { bit < 128 }
    ensures { result ≡ packed 0 (has_bit bit) terms.now }
{
    let mut word = 0;
    for term in terms {
        word = appended(word, is_set(term.parity, bit));
    }
    word
}

// Which phases have so many sixteenth turns in them, a power of two.
fn phases_with(terms: &[Term], turns: u8) -> u64
    requires small { length terms.now ≤ 64 }
    requires some { 0 < turns }
    ensures { result ≡ packed 0 (has_turns turns) terms.now }
{
    let mut word = 0;
    for term in terms {
        word = appended(word, term.phase / turns % 2 == 1);
    }
    word
}

// The word with a bit more.
fn appended(word: u64, bit: bool) -> u64
    requires { word < 2 ^ 63 }
    ensures { result ≡ word * 2 + one_if bit }
{
    if bit { word * 2 + 1 } else { word * 2 }
}

// Whether a bit is set.
fn is_set(word: u128, bit: usize) -> bool
    requires { bit < 128 }
    ensures { result ≡ lowest (word / 2 ^ bit) }
{
    (word >> bit) & 1 == 1
}
