// The parts of a new tableau.
ghost use Rattle.std.specs.Prelude.{◌≡◌, ℕ, ◌<◌, suc, [], IfOk, ◌==◌, if◌then◌else◌};
ghost use Rattle.fractions.specs.Fraction.{zero_q, one_q, whole};
ghost use Rattle.core_dict.specs.Programme.{height, entry as programme_entry};
ghost use Rattle.core_sparse.specs.Items.{number as number_of, AreItems};
ghost use Rattle.core_sparse.specs.Steps.{IsStartRow, AreStartRows};

use crate::keep::keep;
use crate::row::{Item, Row, Slot};
use core_dict::Programme;
use exact_frac::Exact;
use std::alloc::{AllocError, Global};

/// Room for a row, with nothing in it.
pub fn room<E: Exact>(alloc: Global) -> Row<E>
    ensures items { result.items.items ≡ [] }
    ensures value { E.value result.value ≡ zero_q }
{
    Row {
        items: Vec::new(alloc),
        value: E::zero(),
    }
}

// The numbers of a row of a programme that are not 0.
fn items<E: Exact>(
    alloc: Global,
    programme: &Programme,
    row: usize,
) -> Result<Vec<Item<E>>, AllocError>
    requires { row < height programme.now }
    ensures kept { IfOk result (λ v. AreItems E.value programme.now.cols v.items) }
    ensures entries { IfOk result (λ v. (j : ℕ) → j < programme.now.cols
        → number_of E.value v.items j ≡ whole (programme_entry programme.now row j)) }
{
    let cols = programme.cols();
    let mut all = Vec::new(alloc);
    for j in 0..cols {
        keep(&mut all, j, E::of_whole(programme.entry(row, j)))?;
    }
    Ok(all)
}

// A row of the start dictionary, with room beside it.
fn slot<E: Exact>(alloc: Global, programme: &Programme, row: usize) -> Result<Slot<E>, AllocError>
    requires { row < height programme.now }
    ensures { IfOk result (IsStartRow E.value programme.now row) }
{
    let row = Row {
        items: items(alloc, programme, row)?,
        value: E::of_whole(programme.bound(row)),
    };
    Ok(Slot {
        row,
        spare: room(alloc),
        made: false,
    })
}

/// The rows of the start dictionary.
pub fn slots<E: Exact>(alloc: Global, programme: &Programme) -> Result<Vec<Slot<E>>, AllocError>
    ensures { IfOk result (λ v. AreStartRows E.value programme.now v.items) }
{
    let rows = programme.rows();
    let mut all = Vec::with_capacity(alloc, rows)?;
    for i in 0..rows {
        all.push(slot(alloc, programme, i)?)?;
    }
    Ok(all)
}

/// The costs of the start dictionary: 1 in the last column.
pub fn costs<E: Exact>(alloc: Global, cols: usize) -> Result<Vec<Item<E>>, AllocError>
    requires { 0 < cols }
    ensures kept { IfOk result (λ v. AreItems E.value cols v.items) }
    ensures costs { IfOk result (λ v. (j : ℕ)
        → number_of E.value v.items j ≡ (if suc j == cols then one_q else zero_q)) }
{
    let mut all = Vec::new(alloc);
    keep(&mut all, cols - 1, E::one())?;
    Ok(all)
}
