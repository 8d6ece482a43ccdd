// Which row, closing day and tier stand at a place of a list by day.
ghost use Rattle.std.specs.Prelude.{◌≡◌, ◌*◌, ◌<◌, ◌≤◌};
ghost use Rattle.core_book.specs.View.{tiers};
ghost use Rattle.core_report.specs.Cells.{IsDayCell, IsTierCell};

use core_book::Case;
use core_model::{ClosingCell, DayCell};

/// How many places a list has that runs by day, then by so many rows, then by tier.
pub(crate) fn tier_places(case: &Case, rows: usize) -> usize
    requires few { rows ≤ 64 }
    ensures { result ≡ case.now.horizon * (rows * tiers case.now) }
{
    usize::from(case.horizon()) * (rows * usize::from(case.tiers()))
}

/// How many places a list has that runs by day, then by so many rows.
pub(crate) fn day_places(case: &Case, rows: usize) -> usize
    requires few { rows ≤ 64 }
    ensures { result ≡ case.now.horizon * rows }
{
    usize::from(case.horizon()) * rows
}

/// The closing day, the row and the tier of a place of a list that runs by day, then by so many rows, then by tier.
pub(crate) fn tier_cell(case: &Case, rows: usize, place: usize) -> ClosingCell
    requires few { rows ≤ 64 }
    requires place { place < case.now.horizon * (rows * tiers case.now) }
    ensures { IsTierCell case.now rows place result }
{
    // Every case keeps the ranges and references of a well-formed one.
    let _kept = case.horizon();
    let tiers = usize::from(case.tiers());
    let row_and_tier = place % (rows * tiers);
    ClosingCell {
        row: row_and_tier / tiers,
        day: (place / (rows * tiers)) as u8 + 1,
        tier: (row_and_tier % tiers) as u8 + 1,
    }
}

/// The closing day and the row of a place of a list that runs by day, then by so many rows.
pub(crate) fn day_cell(case: &Case, rows: usize, place: usize) -> DayCell
    requires place { place < case.now.horizon * rows }
    ensures { IsDayCell case.now rows place result }
{
    // Every case keeps the ranges and references of a well-formed one.
    let _kept = case.horizon();
    DayCell {
        row: place % rows,
        day: (place / rows) as u8 + 1,
    }
}
