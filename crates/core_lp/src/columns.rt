// The columns of a case's programme, in their order.
ghost use Rattle.std.specs.Prelude.{◌≡◌, ◌≤◌, length, IfOk};
ghost use Rattle.core_book.specs.WellFormed.{IsCase};
ghost use Rattle.core_model.specs.Layout.{amount_count};
ghost use Rattle.core_lp.specs.CaseProgramme.{columns};

use crate::names::Col;
use core_book::Case;
use core_model::closing_cell;
use std::alloc::{AllocError, Global};

/// How many places a list by line, closing day and tier has: at most 5,120.
pub(crate) fn closings(case: &Case) -> usize
    ensures count { result ≡ amount_count case.now }
    ensures few { result ≤ 5120 }
    ensures kept { IsCase case.now }
{
    case.lines() * usize::from(case.horizon()) * usize::from(case.tiers())
}

/// The columns of a case: by line, closing day and tier where a closing is allowed, and the loss last.
pub(crate) fn columns(alloc: Global, case: &Case) -> Result<Vec<Col>, AllocError>
    ensures { IfOk result (λ cols. cols.items ≡ columns case.now) }
{
    let lines = case.lines();
    let mut cols = Vec::new(alloc);
    for place in 0..closings(case) {
        let cell = closing_cell(case, lines, place);
        if case.allowed(cell.row, cell.day, cell.tier) {
            cols.push(Col::Close {
                line: cell.row,
                day: cell.day,
                tier: cell.tier,
            })?;
        }
    }
    cols.push(Col::Loss)?;
    Ok(cols)
}

/// The number of columns: at most 5,121.
pub(crate) fn column_count(case: &Case) -> usize
    ensures count { result ≡ length (columns case.now) }
    ensures few { result ≤ 5121 }
{
    let lines = case.lines();
    let mut count = 1;
    for place in 0..closings(case) {
        let closing = closing_cell(case, lines, place);
        if case.allowed(closing.row, closing.day, closing.tier) {
            count += 1;
        }
    }
    count
}
