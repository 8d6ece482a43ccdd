// What a calendar closes, by line, by limit and by pool.
ghost use Rattle.std.specs.Prelude.{◌≡◌, ◌≤ℤ◌, ◌<◌, ◌++◌, pos, length, OnOk, IfOk};
ghost use Rattle.core_rows.specs.Written.{rows_text};
ghost use Rattle.core_model.specs.Closing.{IsClosingDay, IsTierNumber, line_count};
ghost use Rattle.core_model.specs.OfCase.{planned};
ghost use Rattle.core_report.specs.Report.{AreDates};
ghost use Rattle.core_report.specs.Records.{close_fields, close_record, close_records, limit_fields, limit_record, limit_records, listed, pool_fields, pool_record, pool_records};

use crate::accepted::AcceptedCalendar;
use crate::cells::{day_cell, day_places, tier_cell, tier_places};
use crate::dates::Dates;
use crate::row::{Row, put_some};
use crate::sums::{pool_closed, tier_closed};
use core_book::Case;
use core_model::{ClosingCell, DayCell};
use std::alloc::{AllocError, Global};

/// A record of a closing that begins with its day, its line and its tier.
fn close_start(
    alloc: Global,
    accepted: &AcceptedCalendar,
    cell: ClosingCell,
) -> Result<Row, AllocError>
    requires line { cell.row < line_count accepted.now.calendar.case }
    requires day { IsClosingDay accepted.now.calendar.case cell.day }
    ensures { IfOk result (λ row. row
        ≡ close_fields accepted.now.calendar.case accepted.now.dates.now
        cell.day cell.row cell.tier) }
{
    let case = accepted.case();
    let mut row = Row::start(alloc, b"close")?;
    row.push_date(accepted.dates, cell.day)?;
    row.push_line(case, cell.row)?;
    row.push_tier(case, cell.tier)?;
    Ok(row)
}

/// What is closed of a line on a day in a tier, none where it is 0.
fn close_row(
    alloc: Global,
    accepted: &AcceptedCalendar,
    cell: ClosingCell,
) -> Result<Option<Row>, AllocError>
    requires line { cell.row < line_count accepted.now.calendar.case }
    requires day { IsClosingDay accepted.now.calendar.case cell.day }
    requires tier { IsTierNumber accepted.now.calendar.case cell.tier }
    ensures { IfOk result (λ row. listed row
        ≡ close_record accepted.now.calendar.case accepted.now.dates.now
        (planned accepted.now.calendar)
        cell.day cell.row cell.tier) }
{
    let amount = accepted.calendar.amount(cell.row, cell.day, cell.tier);
    if amount == 0 {
        return Ok(None);
    }
    // A calendar fits the case that it is with.
    let _fits = accepted.case();
    let mut row = close_start(alloc, accepted, cell)?;
    row.push_ratio(amount, accepted.den())?;
    Ok(Some(row))
}

/// Prints what is closed, by day, then by line, then by tier.
pub(crate) fn put_closes(
    alloc: Global,
    out: &mut Vec<u8>,
    accepted: &AcceptedCalendar,
) -> Result<(), AllocError>
    ensures { OnOk result (out.new.items ≡ out.old.items
        ++ rows_text (close_records accepted.now.calendar.case accepted.now.dates.now
        (planned accepted.now.calendar))) }
{
    let case = accepted.case();
    for place in 0..tier_places(case, case.lines()) {
        let cell = tier_cell(case, case.lines(), place);
        let row = close_row(alloc, accepted, cell)?;
        put_some(alloc, out, row)?;
    }
    Ok(())
}

/// A record of a limit that begins with its day, its instrument and its tier.
pub(crate) fn limit_start(
    alloc: Global,
    case: &Case,
    dates: &Dates,
    cell: ClosingCell,
) -> Result<Row, AllocError>
    requires dates { AreDates case.now dates.now }
    requires instrument { cell.row < length case.now.instruments }
    requires day { IsClosingDay case.now cell.day }
    ensures { IfOk result (λ row. row
        ≡ limit_fields case.now dates.now cell.day cell.row cell.tier) }
{
    // Every case keeps the ranges and references of a well-formed one.
    let _kept = case.horizon();
    let mut row = Row::start(alloc, b"limit")?;
    row.push_date(dates, cell.day)?;
    row.push_name(case.instrument(cell.row).name)?;
    row.push_tier(case, cell.tier)?;
    Ok(row)
}

/// What is closed of an instrument on a day in a tier, and its limit; none where it is 0 or the day is the expiry.
fn limit_row(
    alloc: Global,
    accepted: &AcceptedCalendar,
    cell: ClosingCell,
) -> Result<Option<Row>, AllocError>
    requires instrument { cell.row < length accepted.now.calendar.case.instruments }
    requires day { IsClosingDay accepted.now.calendar.case cell.day }
    requires tier { IsTierNumber accepted.now.calendar.case cell.tier }
    ensures { IfOk result (λ row. listed row
        ≡ limit_record accepted.now.calendar.case accepted.now.dates.now
        (planned accepted.now.calendar)
        cell.day cell.row cell.tier) }
{
    let case = accepted.case();
    if !case.counts(cell.row, cell.day) {
        return Ok(None);
    }
    let closed = tier_closed(accepted, cell);
    if closed == 0 {
        return Ok(None);
    }
    let mut row = limit_start(alloc, case, accepted.dates, cell)?;
    row.push_ratio(closed, accepted.den())?;
    row.push_whole(case.limit(cell.row, cell.day, cell.tier))?;
    Ok(Some(row))
}

/// Prints what is closed of the instruments and their limits, by day, then by instrument, then by tier.
pub(crate) fn put_limits(
    alloc: Global,
    out: &mut Vec<u8>,
    accepted: &AcceptedCalendar,
) -> Result<(), AllocError>
    ensures { OnOk result (out.new.items ≡ out.old.items
        ++ rows_text (limit_records accepted.now.calendar.case accepted.now.dates.now
        (planned accepted.now.calendar))) }
{
    let case = accepted.case();
    for place in 0..tier_places(case, case.instruments()) {
        let cell = tier_cell(case, case.instruments(), place);
        let row = limit_row(alloc, accepted, cell)?;
        put_some(alloc, out, row)?;
    }
    Ok(())
}

/// A record of a pool that begins with its day and its name.
pub(crate) fn pool_start(
    alloc: Global,
    case: &Case,
    dates: &Dates,
    cell: DayCell,
) -> Result<Row, AllocError>
    requires dates { AreDates case.now dates.now }
    requires pool { cell.row < length case.now.pools }
    requires day { IsClosingDay case.now cell.day }
    ensures { IfOk result (λ row. row ≡ pool_fields case.now dates.now cell.day cell.row) }
{
    // Every case keeps the ranges and references of a well-formed one.
    let _kept = case.horizon();
    let mut row = Row::start(alloc, b"pool")?;
    row.push_date(dates, cell.day)?;
    row.push_name(case.pool(cell.row).name)?;
    Ok(row)
}

/// The weighted closings of a pool on a day, and its cap; none where they are 0.
fn pool_row(
    alloc: Global,
    accepted: &AcceptedCalendar,
    cell: DayCell,
) -> Result<Option<Row>, AllocError>
    requires pool { cell.row < length accepted.now.calendar.case.pools }
    requires day { IsClosingDay accepted.now.calendar.case cell.day }
    ensures { IfOk result (λ row. listed row
        ≡ pool_record accepted.now.calendar.case accepted.now.dates.now
        (planned accepted.now.calendar) cell.day cell.row) }
{
    let case = accepted.case();
    let closed = pool_closed(accepted, cell.row, cell.day);
    if closed == 0 {
        return Ok(None);
    }
    let mut row = pool_start(alloc, case, accepted.dates, cell)?;
    row.push_ratio(closed, accepted.den())?;
    row.push_whole(case.pool(cell.row).cap)?;
    Ok(Some(row))
}

/// Prints the weighted closings of the pools and their caps, by day, then by pool.
pub(crate) fn put_pools(
    alloc: Global,
    out: &mut Vec<u8>,
    accepted: &AcceptedCalendar,
) -> Result<(), AllocError>
    ensures { OnOk result (out.new.items ≡ out.old.items
        ++ rows_text (pool_records accepted.now.calendar.case accepted.now.dates.now
        (planned accepted.now.calendar))) }
{
    let case = accepted.case();
    for place in 0..day_places(case, case.pools()) {
        let cell = day_cell(case, case.pools(), place);
        let row = pool_row(alloc, accepted, cell)?;
        put_some(alloc, out, row)?;
    }
    Ok(())
}
