//! Which rows of a matrix sum to a target.

ghost use Rattle.std.specs.Prelude.{◌≡◌, ◌≢◌, ◌<◌, Bool, List, length, IfOk, OnOk};
ghost use Rattle.zx_bits.specs.Rows.{BitMatrix, flipped};
ghost use Rattle.zx_bits.specs.Solving.{zeros, sum_of_rows, IsSolved, IsDual};
ghost use Rattle.zx_bits.specs.Internal.Elimination.{IsBasis, IsPutIntoBasis, HasSize, HasSizes};
ghost use Rattle.zx_bits.specs.Internal.Elimination.{added_at_pivot, reduced, evened, dual_of};

use crate::bit_matrix::BitMatrix;
use crate::bit_row::BitRow;
use std::alloc::{AllocError, Global};

/// Which rows of a matrix sum to a target.
#[derive(Drop)]
pub enum Solved {
    /// A bit for each row. The rows whose bit is set sum to the target, and no part of them does.
    Rows(BitRow),
    /// A bit for each column. Each row has an even number of places in common with it, and the
    /// target an odd number, so no rows sum to the target.
    None(BitRow),
}

// A sum of rows of the matrix, which rows these are, and a place where its bit is set and that of
// each later one isn't.
#[derive(Drop)]
pub(crate) struct Reduced {
    row: BitRow,
    from: BitRow,
    pivot: usize,
}

/// A least set of rows that sum to a target, or what shows that there is none.
///
/// # Errors
///
/// Where memory runs out.
pub fn solve(alloc: Global, m: &BitMatrix, target: &BitRow) -> Result<Solved, AllocError>
    requires { length target.now.bits ≡ m.now.columns }
    ensures { IfOk result (IsSolved m.now target.now.bits) }
{
    let basis = basis_of(alloc, m)?;
    let mut rest = target.clone()?;
    let mut set = BitRow::new(alloc, m.height())?;
    reduce(&basis, &mut rest, &mut set);
    match rest.bit_from(0) {
        None => Ok(Solved::Rows(set)),
        Some(column) => Ok(Solved::None(dual(alloc, m, &basis, column)?)),
    }
}

// Sums of rows that sum to all that the rows do, each of a row that isn't a sum of those before it.
fn basis_of(alloc: Global, m: &BitMatrix) -> Result<Vec<Reduced>, AllocError>
    ensures { IfOk result (λ basis. IsBasis m.now (length m.now.rows) basis.items) }
{
    let mut basis = Vec::new(alloc);
    for i in 0..m.height() {
        let mut row = m.row(i).clone()?;
        let mut from = BitRow::new(alloc, m.height())?;
        from.flip(i);
        reduce(&basis, &mut row, &mut from);
        keep(&mut basis, row, from)?;
    }
    Ok(basis)
}

// Adds a row to the basis, unless no bit of it is set.
fn keep(basis: &mut Vec<Reduced>, row: BitRow, from: BitRow) -> Result<(), AllocError>
    ensures { OnOk result (IsPutIntoBasis row.bits from.bits basis.old.items basis.new.items) }
{
    match row.bit_from(0) {
        Some(pivot) => {
            basis.push(Reduced { row, from, pivot })?;
            Ok(())
        }
        None => Ok(()),
    }
}

// Adds each of the basis whose pivot is set, so that none is.
fn reduce(basis: &[Reduced], row: &mut BitRow, from: &mut BitRow)
    requires { HasSizes (length row.old.bits) (length from.old.bits) basis.now }
    ensures { record { row = row.new.bits; from = from.new.bits }
        ≡ reduced basis.now (record { row = row.old.bits; from = from.old.bits }) }
{
    for entry in basis {
        add_if_set(entry, row, from);
    }
}

// Adds one of the basis where its pivot is set.
fn add_if_set(entry: &Reduced, row: &mut BitRow, from: &mut BitRow)
    requires { HasSize (length row.old.bits) (length from.old.bits) entry.now }
    ensures { record { row = row.new.bits; from = from.new.bits }
        ≡ added_at_pivot entry.now (record { row = row.old.bits; from = from.old.bits }) }
{
    if row.get(entry.pivot) {
        row.xor(&entry.row);
        from.xor(&entry.from);
    }
}

// What has an even number of places in common with each of the basis, and of the columns that are
// no pivots just this one.
fn dual(
    alloc: Global,
    m: &BitMatrix,
    basis: &[Reduced],
    column: usize,
) -> Result<BitRow, AllocError>
    requires sizes { HasSizes m.now.columns (length m.now.rows) basis.now }
    requires column { column < m.now.columns }
    ensures { IfOk result (λ dual.
        dual.bits ≡ dual_of basis.now (flipped (zeros m.now.columns) column)) }
{
    let mut dual = BitRow::new(alloc, m.columns())?;
    dual.flip(column);
    for i in (0..basis.len()).rev() {
        even_out(&basis[i], &mut dual);
    }
    Ok(dual)
}

// Flips the pivot of one of the basis that has an odd number of places in common with the dual.
fn even_out(entry: &Reduced, dual: &mut BitRow)
    requires size { length entry.now.row.bits ≡ length dual.old.bits }
    requires pivot { entry.now.pivot < length dual.old.bits }
    ensures { dual.new.bits ≡ evened entry.now dual.old.bits }
{
    if entry.row.parity_with(dual) {
        dual.flip(entry.pivot);
    }
}

/// What has a dual is no sum of rows: of the two answers of `solve` exactly one can be right.
pub fn a_dual_leaves_no_sum()
    ensures { (m : BitMatrix) (target dual set : List Bool) → IsDual m target dual →
        sum_of_rows m.columns m.rows set ≢ target }
{}
