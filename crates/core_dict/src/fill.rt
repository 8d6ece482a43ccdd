// The parts of a new tableau.
ghost use Rattle.std.specs.Prelude.{◌≡◌, ℕ, ◌<◌, suc, IfOk, length, ◌==◌, if◌then◌else◌};
ghost use Rattle.fractions.specs.Fraction.{zero_q, one_q, whole};
ghost use Rattle.core_dict.specs.Programme.{IsProgramme, IsSmall, height, entry as programme_entry, bound as programme_bound};
ghost use Rattle.core_dict.specs.Rows.{fraction_at, entry_of, width};
ghost use Rattle.core_dict.specs.Rows.{IsStartRow, AreStartRows};

use crate::Programme;
use crate::row::{Row, Slot};
use exact_frac::Exact;
use std::alloc::{AllocError, Global};

// So many zeros.
pub fn zeros<E: Exact>(alloc: Global, n: usize) -> Result<Vec<E>, AllocError>
    ensures { IfOk result (λ v. length v.items ≡ n) }
{
    let mut all = Vec::with_capacity(alloc, n)?;
    for _place in 0..n {
        all.push(E::zero())?;
    }
    Ok(all)
}

// Room for a row.
pub fn room<E: Exact>(alloc: Global, cols: usize) -> Result<Row<E>, AllocError>
    ensures { IfOk result (λ x. width x ≡ cols) }
{
    Ok(Row {
        entries: zeros(alloc, cols)?,
        value: E::zero(),
    })
}

// The numbers of a row of a programme.
fn entries<E: Exact>(alloc: Global, programme: &Programme, row: usize) -> Result<Vec<E>, AllocError>
    requires { row < height programme.now }
    ensures width { IfOk result (λ v. length v.items ≡ programme.now.cols) }
    ensures entries { IfOk result (λ v. (j : ℕ) → j < programme.now.cols
        → fraction_at E.value v.items j ≡ whole (programme_entry programme.now row j)) }
{
    let cols = programme.cols();
    let mut all = Vec::with_capacity(alloc, cols)?;
    for j in 0..cols {
        all.push(E::of_whole(programme.entry(row, j)))?;
    }
    Ok(all)
}

// A row of the start dictionary, with room beside it.
fn slot<E: Exact>(alloc: Global, programme: &Programme, row: usize) -> Result<Slot<E>, AllocError>
    requires { row < height programme.now }
    ensures { IfOk result (IsStartRow E.value programme.now row) }
{
    let row = Row {
        entries: entries(alloc, programme, row)?,
        value: E::of_whole(programme.bound(row)),
    };
    let spare = room(alloc, programme.cols())?;
    Ok(Slot { row, spare })
}

/// The rows of the start dictionary.
pub fn slots<E: Exact>(alloc: Global, programme: &Programme) -> Result<Vec<Slot<E>>, AllocError>
    ensures { IfOk result (λ v. AreStartRows E.value programme.now v.items) }
{
    let rows = programme.rows();
    let mut all = Vec::with_capacity(alloc, rows)?;
    for i in 0..rows {
        all.push(slot(alloc, programme, i)?)?;
    }
    Ok(all)
}

/// The costs of the start dictionary: 1 in the last column.
pub fn costs<E: Exact>(alloc: Global, cols: usize) -> Result<Vec<E>, AllocError>
    ensures width { IfOk result (λ v. length v.items ≡ cols) }
    ensures costs { IfOk result (λ v. (j : ℕ) → j < cols
        → fraction_at E.value v.items j ≡ (if suc j == cols then one_q else zero_q)) }
{
    let mut all = Vec::with_capacity(alloc, cols)?;
    for j in 0..cols {
        all.push(if j + 1 == cols { E::one() } else { E::zero() })?;
    }
    Ok(all)
}
