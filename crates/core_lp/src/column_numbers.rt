// The numbers of the columns of a case's programme, by place.
ghost use Rattle.std.specs.Prelude.{◌≡◌, length, IfOk};
ghost use Rattle.core_sums.specs.Places.{at};
ghost use Rattle.core_model.specs.Layout.{amount_count};
ghost use Rattle.core_lp.specs.CaseProgramme.{columns};
ghost use Rattle.core_lp.specs.Named.{named_of};
ghost use Rattle.core_lp.specs.Walked.{by_column, with_column, IsInCase};

use crate::built::Built;
use crate::columns::closings;
use crate::names::Col;
use crate::places::closing_index;
use core_book::Case;
use core_model::Numbers;
use std::alloc::{AllocError, Global};

/// The number of each column.
#[derive(Drop)]
pub(crate) struct ColumnNumbers {
    /// Of what is closed, by line, closing day and tier, and 0 where a closing has no column.
    pub(crate) amounts: Numbers,
    /// Of the loss column.
    pub(crate) loss: i128,
}

/// Puts the number of a column at its place.
fn put_column(case: &Case, numbers: &mut ColumnNumbers, name: Col, number: i128)
    requires name { IsInCase case.now name }
    requires size { length numbers.old.amounts ≡ amount_count case.now }
    ensures { numbers.new ≡ with_column case.now numbers.old name number }
{
    // A well-formed case has few lines.
    case.well_formed();
    match name {
        Col::Close { line, day, tier } => numbers
            .amounts
            .set(closing_index(case, line, day, tier), number),
        Col::Loss => numbers.loss = number,
    }
}

/// The numbers of the columns, which are given in the order of the columns.
pub(crate) fn by_column(
    alloc: Global,
    case: &Case,
    built: &Built,
    numbers: &[i128],
) -> Result<ColumnNumbers, AllocError>
    requires built { built.now ≡ named_of case.now }
    requires count { length numbers.now ≡ length (columns case.now) }
    ensures { IfOk result (λ x. x ≡ by_column case.now (columns case.now) (at numbers.now)) }
{
    let amounts = Numbers::zeros(alloc, closings(case))?;
    let mut placed = ColumnNumbers { amounts, loss: 0 };
    for j in (0..numbers.len()).rev() {
        put_column(case, &mut placed, built.col(j), numbers[j]);
    }
    Ok(placed)
}
