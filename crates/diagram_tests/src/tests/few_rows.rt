//! Which of four rows of two bits are chosen.

ghost use Rattle.std.specs.Prelude.{◌≡◌, [], ◌∷◌, true, false, IfOk};

use std::alloc::{AllocError, Global};
use std::process::Abort;
use zx_bits::{BitMatrix, BitRow};
use zx_extract::choose_rows;

// The rows {0}, {1}, {1} and {0, 1}.
fn four_rows(alloc: Global) -> Result<BitMatrix, AllocError>
    ensures columns { IfOk result (λ m. m.columns ≡ 2) }
    ensures rows { IfOk result (λ m. m.rows ≡ (true ∷ false ∷ []) ∷ (false ∷ true ∷ [])
        ∷ (false ∷ true ∷ []) ∷ (true ∷ true ∷ []) ∷ []) }
{
    let mut m = BitMatrix::new(alloc, 2);
    m.push_row()?;
    m.flip(0, 0);
    m.push_row()?;
    m.flip(1, 1);
    m.push_row()?;
    m.flip(2, 1);
    m.push_row()?;
    m.flip(3, 0);
    m.flip(3, 1);
    Ok(m)
}

// The target {0}.
fn zero(alloc: Global) -> Result<BitRow, AllocError>
    ensures { IfOk result (λ row. row.bits ≡ true ∷ false ∷ []) }
{
    let mut row = BitRow::new(alloc, 2)?;
    row.flip(0);
    Ok(row)
}

// The target {0, 1}.
fn zero_and_one(alloc: Global) -> Result<BitRow, AllocError>
    ensures { IfOk result (λ row. row.bits ≡ true ∷ true ∷ []) }
{
    let mut row = zero(alloc)?;
    row.flip(1);
    Ok(row)
}

// All rows but the last.
fn but_last(alloc: Global) -> Result<BitRow, AllocError>
    ensures { IfOk result (λ row. row.bits ≡ true ∷ true ∷ true ∷ false ∷ []) }
{
    let mut row = BitRow::new(alloc, 4)?;
    row.flip(0);
    row.flip(1);
    row.flip(2);
    Ok(row)
}

// The last row alone.
fn last(alloc: Global) -> Result<BitRow, AllocError>
    ensures { IfOk result (λ row. row.bits ≡ false ∷ false ∷ false ∷ true ∷ []) }
{
    let mut row = BitRow::new(alloc, 4)?;
    row.flip(3);
    Ok(row)
}

// Which of the four rows are in a set.
fn members(rt: &impl Abort, set: &BitRow) -> [bool; 4] {
    assert!(rt; set.len() == 4);
    [set.get(0), set.get(1), set.get(2), set.get(3)]
}

#[test]
fn rows_that_cancel_are_left_out(rt: HostRuntime) -> Result<(), AllocError> {
    let alloc = rt.alloc();
    let set = choose_rows(alloc, &four_rows(alloc)?, &zero(alloc)?, &but_last(alloc)?)?;
    let [first, second, third, fourth] = members(&rt, &set);
    assert!(rt; first != fourth && second ^ third == fourth && !(second && third));
    Ok(())
}

#[test]
fn one_row_stays_one_row(rt: HostRuntime) -> Result<(), AllocError> {
    let alloc = rt.alloc();
    let set = choose_rows(
        alloc,
        &four_rows(alloc)?,
        &zero_and_one(alloc)?,
        &last(alloc)?,
    )?;
    assert!(rt; members(&rt, &set) == [false, false, false, true]);
    Ok(())
}
