//! Few rows of a matrix that sum to a target.

ghost use Rattle.std.specs.Prelude.{◌≡◌, ◌≤◌, ◌++◌, [], ◌∷◌, length, IfOk, OnOk};
ghost use Rattle.zx_bits.specs.Solving.{sum_of_rows, IsSolution};
ghost use Rattle.zx_extract.specs.Choosing.{member_count};
ghost use Rattle.zx_extract.specs.Internal.Choosing.{HasOnly};

use std::alloc::{AllocError, Global};
use zx_bits::{BitMatrix, BitRow, Solved, solve};

/// A least set of rows that sum to a target, with no more members than a set that is known to.
///
/// # Errors
///
/// Where memory runs out.
pub fn choose_rows(
    alloc: Global,
    m: &BitMatrix,
    target: &BitRow,
    kept: &BitRow,
) -> Result<BitRow, AllocError>
    requires columns { length target.now.bits ≡ m.now.columns }
    requires rows { length kept.now.bits ≡ length m.now.rows }
    requires sum { sum_of_rows m.now.columns m.now.rows kept.now.bits ≡ target.now.bits }
    ensures sum { IfOk result (λ set.
        sum_of_rows m.now.columns m.now.rows set.bits ≡ target.now.bits) }
    ensures few { IfOk result (λ set. member_count set.bits ≤ member_count kept.now.bits) }
    ensures minimal { IfOk result (λ set. IsSolution m.now target.now.bits set.bits) }
{
    if let Solved::Rows(set) = solve(alloc, m, target)? {
        if count_members(&set) <= count_members(kept) {
            return Ok(set);
        }
    }
    let only = only_rows(alloc, m, kept)?;
    match solve(alloc, &only, target)? {
        Solved::Rows(set) => Ok(set),
        Solved::None(_) => unreachable!(),
    }
}

// How many bits are set.
fn count_members(set: &BitRow) -> usize
    ensures { result ≡ member_count set.now.bits }
{
    let mut count = 0;
    for r in 0..set.len() {
        if set.get(r) {
            count += 1;
        }
    }
    count
}

// The matrix with no bit set in the rows outside a set.
fn only_rows(alloc: Global, m: &BitMatrix, set: &BitRow) -> Result<BitMatrix, AllocError>
    requires { length set.now.bits ≡ length m.now.rows }
    ensures { IfOk result (HasOnly m.now set.now.bits (length m.now.rows)) }
{
    let mut only = BitMatrix::new(alloc, m.columns());
    for r in 0..m.height() {
        if set.get(r) {
            push_copy(&mut only, m.row(r))?;
        } else {
            only.push_row()?;
        }
    }
    Ok(only)
}

// Adds a copy of a row at the end.
fn push_copy(m: &mut BitMatrix, row: &BitRow) -> Result<(), AllocError>
    requires { length row.now.bits ≡ m.old.columns }
    ensures { OnOk result (m.new ≡ record m.old { rows = m.old.rows ++ row.now.bits ∷ [] }) }
{
    let last = m.height();
    m.push_row()?;
    for c in 0..row.len() {
        if row.get(c) {
            m.flip(last, c);
        }
    }
    Ok(())
}
