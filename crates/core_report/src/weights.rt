// The weights that refuse every calendar, and by how much the book is short.
ghost use Rattle.std.specs.Prelude.{◌≡◌, ◌≤ℤ◌, ◌*ℤ◌, neg_ℤ, ◌<◌, ◌++◌, pos, length, OnOk, IfOk};
ghost use Rattle.core_sums.specs.Sums.{total};
ghost use Rattle.core_sums.specs.Places.{at};
ghost use Rattle.core_rows.specs.Written.{rows_text};
ghost use Rattle.core_book.specs.View.{limit, line, pool};
ghost use Rattle.core_model.specs.Closing.{IsClosingDay, IsTierNumber, line_count};
ghost use Rattle.core_model.specs.Layout.{day_at_place, pool_at_place, pool_day_at_place, row_at_place, tier_at_place};
ghost use Rattle.core_model.specs.Fits.{IsWithin128};
ghost use Rattle.core_model.specs.Check.{bound_terms};
ghost use Rattle.core_wide.specs.Steps.{with_product};
ghost use Rattle.core_report.specs.Records.{full_weight_record, full_weight_records, limit_weight_record, limit_weight_records, listed, pool_weight_record, pool_weight_records};

use crate::accepted::AcceptedWeights;
use crate::cells::{day_cell, day_places, tier_cell, tier_places};
use crate::closes::{limit_start, pool_start};
use crate::numbers::number;
use crate::row::{Row, put_some};
use core_model::{CaseWeights, ClosingCell, DayCell, closing_cell, pool_cell};
use core_wide::{add_each, minus_product, plus_product};
use std::alloc::{AllocError, Global};

/// The sum and the full weight of a line times its amount.
fn plus_full(weights: &CaseWeights, sum: i128, l: usize) -> Option<i128>
    requires line { l < line_count weights.now.case }
    ensures { result ≡ with_product sum
        (at weights.now.weights.full l *ℤ (line weights.now.case l).amount) }
{
    plus_product(
        sum,
        weights.full_of(l),
        i128::from(weights.case().line(l).amount),
    )
}

/// The sum less the weight of a limit times the limit.
fn minus_limit(weights: &CaseWeights, sum: i128, place: usize) -> Option<i128>
    requires place { place < length weights.now.weights.limit }
    ensures { result ≡ with_product sum (neg_ℤ
        (limit weights.now.case (row_at_place weights.now.case place)
        (day_at_place weights.now.case place) (tier_at_place weights.now.case place)
        *ℤ at weights.now.weights.limit place)) }
{
    let case = weights.case();
    let cell = closing_cell(case, case.instruments(), place);
    let limit = case.limit(cell.row, cell.day, cell.tier);
    let weight = number(&weights.weights().limit, place);
    minus_product(sum, i128::from(limit), weight)
}

/// The sum less the weight of a cap times the cap.
fn minus_cap(weights: &CaseWeights, sum: i128, place: usize) -> Option<i128>
    requires place { place < length weights.now.weights.pool }
    ensures { result ≡ with_product sum
        (neg_ℤ ((pool weights.now.case (pool_at_place weights.now.case place)).cap
        *ℤ at weights.now.weights.pool place)) }
{
    let case = weights.case();
    let cell = pool_cell(case, case.pools(), place);
    let cap = case.pool(cell.row).cap;
    let weight = number(&weights.weights().pool, place);
    minus_product(sum, i128::from(cap), weight)
}

/// The bound of weights that refuse, which have no scenario weight, or None where a number leaves.
fn bound(accepted: &AcceptedWeights) -> Option<i128>
    ensures { result ≡ Some (total (bound_terms accepted.now.weights.case
        accepted.now.weights.weights)) }
{
    let weights = &accepted.weights;
    let full = add_each(
        0,
        weights.case().lines(),
        |sum, l| plus_full(weights, sum, l),
    )?;
    let limits = add_each(full, weights.weights().limit.len(), |sum, place| {
        minus_limit(weights, sum, place)
    })?;
    add_each(limits, weights.weights().pool.len(), |sum, place| {
        minus_cap(weights, sum, place)
    })
}

/// By how much the book is short: the bound of weights that refuse, as a numerator over their denominator.
pub(crate) fn short(accepted: &AcceptedWeights) -> i128
    ensures value { result ≡ total (bound_terms accepted.now.weights.case
        accepted.now.weights.weights) }
    ensures kept { IsWithin128 result }
{
    // Weights fit the case that they are with.
    let _fits = accepted.case();
    bound(accepted).unwrap_or(0)
}

/// The weight of a line, none where it is 0.
fn full_row(alloc: Global, accepted: &AcceptedWeights, l: usize) -> Result<Option<Row>, AllocError>
    requires line { l < line_count accepted.now.weights.case }
    ensures { IfOk result (λ row. listed row ≡ full_weight_record accepted.now.weights.case
        accepted.now.weights.weights l) }
{
    let weight = accepted.weights.full_of(l);
    if weight == 0 {
        return Ok(None);
    }
    let mut row = Row::start(alloc, b"full")?;
    row.push_line(accepted.case(), l)?;
    row.push_ratio(weight, accepted.den())?;
    Ok(Some(row))
}

/// Prints the weights of the lines.
pub(crate) fn put_fulls(
    alloc: Global,
    out: &mut Vec<u8>,
    accepted: &AcceptedWeights,
) -> Result<(), AllocError>
    ensures { OnOk result (out.new.items
        ≡ out.old.items ++ rows_text (full_weight_records accepted.now.weights.case
        accepted.now.weights.weights)) }
{
    for l in 0..accepted.case().lines() {
        let row = full_row(alloc, accepted, l)?;
        put_some(alloc, out, row)?;
    }
    Ok(())
}

/// The weight of a limit, none where it is 0.
fn limit_row(
    alloc: Global,
    accepted: &AcceptedWeights,
    cell: ClosingCell,
) -> Result<Option<Row>, AllocError>
    requires instrument { cell.row < length accepted.now.weights.case.instruments }
    requires day { IsClosingDay accepted.now.weights.case cell.day }
    requires tier { IsTierNumber accepted.now.weights.case cell.tier }
    ensures { IfOk result (λ row. listed row
        ≡ limit_weight_record accepted.now.weights.case accepted.now.dates.now
        accepted.now.weights.weights cell.day cell.row cell.tier) }
{
    let weight = accepted.weights.limit_on(cell.row, cell.day, cell.tier);
    if weight == 0 {
        return Ok(None);
    }
    let mut row = limit_start(alloc, accepted.case(), accepted.dates, cell)?;
    row.push_ratio(weight, accepted.den())?;
    Ok(Some(row))
}

/// Prints the weights of the limits, by day, then by instrument, then by tier.
pub(crate) fn put_limits(
    alloc: Global,
    out: &mut Vec<u8>,
    accepted: &AcceptedWeights,
) -> Result<(), AllocError>
    ensures { OnOk result (out.new.items ≡ out.old.items
        ++ rows_text (limit_weight_records accepted.now.weights.case accepted.now.dates.now
        accepted.now.weights.weights)) }
{
    let case = accepted.case();
    for place in 0..tier_places(case, case.instruments()) {
        let cell = tier_cell(case, case.instruments(), place);
        let row = limit_row(alloc, accepted, cell)?;
        put_some(alloc, out, row)?;
    }
    Ok(())
}

/// The weight of a pool's cap, none where it is 0.
fn pool_row(
    alloc: Global,
    accepted: &AcceptedWeights,
    cell: DayCell,
) -> Result<Option<Row>, AllocError>
    requires pool { cell.row < length accepted.now.weights.case.pools }
    requires day { IsClosingDay accepted.now.weights.case cell.day }
    ensures { IfOk result (λ row. listed row
        ≡ pool_weight_record accepted.now.weights.case accepted.now.dates.now
        accepted.now.weights.weights cell.day cell.row) }
{
    let weight = accepted.weights.pool_on(cell.row, cell.day);
    if weight == 0 {
        return Ok(None);
    }
    let mut row = pool_start(alloc, accepted.case(), accepted.dates, cell)?;
    row.push_ratio(weight, accepted.den())?;
    Ok(Some(row))
}

/// Prints the weights of the pools' caps, by day, then by pool.
pub(crate) fn put_pools(
    alloc: Global,
    out: &mut Vec<u8>,
    accepted: &AcceptedWeights,
) -> Result<(), AllocError>
    ensures { OnOk result (out.new.items ≡ out.old.items
        ++ rows_text (pool_weight_records accepted.now.weights.case accepted.now.dates.now
        accepted.now.weights.weights)) }
{
    let case = accepted.case();
    for place in 0..day_places(case, case.pools()) {
        let cell = day_cell(case, case.pools(), place);
        let row = pool_row(alloc, accepted, cell)?;
        put_some(alloc, out, row)?;
    }
    Ok(())
}
