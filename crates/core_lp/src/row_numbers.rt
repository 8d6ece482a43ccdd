// The numbers of the rows of a case's programme, by place.
ghost use Rattle.std.specs.Prelude.{◌≡◌, [], pos, length, IfOk};
ghost use Rattle.std.specs.List.{All};
ghost use Rattle.core_sums.specs.Places.{at};
ghost use Rattle.core_model.specs.Closing.{line_count};
ghost use Rattle.core_model.specs.Layout.{scenario_count};
ghost use Rattle.core_lp.specs.CaseProgramme.{row_names};
ghost use Rattle.core_lp.specs.Known.{IsRow};
ghost use Rattle.core_lp.specs.Named.{named_of};
ghost use Rattle.core_lp.specs.Walked.{by_row, line_weight, line_weights, with_number, AreSized, IsWeight};

use crate::built::Built;
use crate::names::RowName;
use crate::places::{closing_index, pool_index, scenario_index};
use crate::rows::{caps, limits, lines};
use core_book::{Case, Side};
use core_model::Numbers;
use std::alloc::{AllocError, Global};

/// The number of each row, by kind: of the lines, by instrument, closing day and tier, by pool and closing day, and by
/// scenario and house day. What has no row has 0.
#[derive(Drop)]
pub(crate) struct RowNumbers {
    pub(crate) full: Numbers,
    pub(crate) back: Numbers,
    pub(crate) limit: Numbers,
    pub(crate) pool: Numbers,
    pub(crate) loss: Numbers,
}

/// How many scenarios and house days from 0 on there are: at most 2,624.
pub(crate) fn house_days(case: &Case) -> usize
    ensures { result ≡ scenario_count case.now }
{
    case.scenarios() * (usize::from(case.last()) + 1)
}

/// So many zeros as the rows have places.
fn zeros(alloc: Global, case: &Case) -> Result<RowNumbers, AllocError>
    ensures { IfOk result (λ x. x ≡ by_row case.now [] (λ i. pos 0)) }
{
    Ok(RowNumbers {
        full: Numbers::zeros(alloc, lines(case))?,
        back: Numbers::zeros(alloc, lines(case))?,
        limit: Numbers::zeros(alloc, limits(case))?,
        pool: Numbers::zeros(alloc, caps(case))?,
        loss: Numbers::zeros(alloc, house_days(case))?,
    })
}

/// Puts the number of a row at its place.
fn put_row(case: &Case, numbers: &mut RowNumbers, name: RowName, number: i128)
    requires name { IsRow case.now name }
    requires sizes { AreSized case.now numbers.old }
    ensures { numbers.new ≡ with_number case.now numbers.old name number }
{
    // A well-formed case has few of each.
    case.well_formed();
    match name {
        RowName::Full { line } => numbers.full.set(line, number),
        RowName::Back { line } => numbers.back.set(line, number),
        RowName::Limit {
            instrument,
            day,
            tier,
        } => {
            numbers
                .limit
                .set(closing_index(case, instrument, day, tier), number)
        }
        RowName::Pool { pool, day } => numbers.pool.set(pool_index(case, pool, day), number),
        RowName::Loss { scenario, day } => numbers
            .loss
            .set(scenario_index(case, scenario, day), number),
    }
}

/// The numbers of the rows, which are given in the order of the rows.
pub(crate) fn by_row(
    alloc: Global,
    case: &Case,
    built: &Built,
    numbers: &[i128],
) -> Result<RowNumbers, AllocError>
    requires built { built.now ≡ named_of case.now }
    requires count { length numbers.now ≡ length (row_names case.now) }
    ensures { IfOk result (λ x. x ≡ by_row case.now (row_names case.now) (at numbers.now)) }
{
    let mut placed = zeros(alloc, case)?;
    for i in (0..numbers.len()).rev() {
        put_row(case, &mut placed, built.row(i), numbers[i]);
    }
    Ok(placed)
}

/// The weight of a line, from the numbers of its back row and its full row.
fn line_weight(side: Side, back: i128, full: i128) -> i128
    requires back { IsWeight back }
    requires full { IsWeight full }
    ensures { result ≡ line_weight side back full }
{
    match side {
        Side::Position => back - full,
        Side::Collateral => -full,
    }
}

/// The weights of the lines.
pub(crate) fn line_weights(
    alloc: Global,
    case: &Case,
    numbers: &RowNumbers,
) -> Result<Numbers, AllocError>
    requires sizes { AreSized case.now numbers.now }
    requires back { All IsWeight numbers.now.back }
    requires full { All IsWeight numbers.now.full }
    ensures { IfOk result (λ weights. weights ≡ line_weights case.now numbers.now) }
{
    let mut weights = Numbers::zeros(alloc, case.lines())?;
    for l in 0..case.lines() {
        weights.set(
            l,
            line_weight(case.line(l).side, numbers.back.get(l), numbers.full.get(l)),
        );
    }
    Ok(weights)
}
