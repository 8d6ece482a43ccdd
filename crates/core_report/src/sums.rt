// The sums of closings that the check of the calendar has formed, in the same order, so that none of them leaves.
ghost use Rattle.std.specs.Prelude.{◌≡◌, ◌<◌, ◌∷◌, [], ◌==◌, true, false, pos, length, map, if◌then◌else◌};
ghost use Rattle.core_sums.specs.Sums.{partial_sums, total};
ghost use Rattle.core_sums.specs.Places.{days_to};
ghost use Rattle.core_sums.specs.Widths.{any_leaves};
ghost use Rattle.core_book.specs.View.{counts, instrument_of, member, tiers};
ghost use Rattle.core_model.specs.Closing.{IsClosingDay, IsTierNumber, is_pooled, line_count};
ghost use Rattle.core_model.specs.OfCase.{planned};
ghost use Rattle.core_model.specs.Fits.{IsWithin128};
ghost use Rattle.core_model.specs.Check.{day_closings, pool_terms, tier_closings, weighted_closing};
ghost use Rattle.core_wide.specs.Steps.{summed};

use crate::accepted::AcceptedCalendar;
use core_book::Case;
use core_model::{CaseCalendar, ClosingCell};
use core_wide::{add_each, plus, plus_product};

/// The sum and what is closed of a line on a day in a tier, if the line is one of an instrument.
fn plus_line(calendar: &CaseCalendar, cell: ClosingCell, sum: i128, l: usize) -> Option<i128>
    requires day { IsClosingDay calendar.now.case cell.day }
    requires tier { IsTierNumber calendar.now.case cell.tier }
    requires line { l < line_count calendar.now.case }
    ensures { result ≡ summed sum []
        (if instrument_of calendar.now.case l == cell.row
        then (planned calendar.now).amount l cell.day cell.tier ∷ [] else []) }
{
    if calendar.case().line(l).instrument == cell.row {
        plus(sum, calendar.amount(l, cell.day, cell.tier))
    } else {
        Some(sum)
    }
}

/// What is closed of an instrument on a day in a tier, over its lines, or None where a sum leaves.
fn tier_sum(calendar: &CaseCalendar, cell: ClosingCell) -> Option<i128>
    requires day { IsClosingDay calendar.now.case cell.day }
    requires tier { IsTierNumber calendar.now.case cell.tier }
    ensures { result ≡ summed (pos 0) [] (tier_closings calendar.now.case (planned calendar.now)
        cell.row cell.day cell.tier) }
{
    add_each(
        0,
        calendar.case().lines(),
        |sum, l| plus_line(calendar, cell, sum, l),
    )
}

/// What is closed of an instrument on a day that is not its expiry in a tier, over its lines.
pub(crate) fn tier_closed(accepted: &AcceptedCalendar, cell: ClosingCell) -> i128
    requires instrument { cell.row < length accepted.now.calendar.case.instruments }
    requires day { IsClosingDay accepted.now.calendar.case cell.day }
    requires tier { IsTierNumber accepted.now.calendar.case cell.tier }
    requires counts { counts accepted.now.calendar.case cell.row cell.day ≡ true }
    ensures value { result ≡ total (tier_closings accepted.now.calendar.case
        (planned accepted.now.calendar)
        cell.row cell.day cell.tier) }
    ensures kept { IsWithin128 result }
{
    tier_sum(&accepted.calendar, cell).unwrap_or(0)
}

/// The sum and what is closed of a line on a day, over its tiers, if the line is one of a member's instrument.
fn plus_tiers(calendar: &CaseCalendar, m: usize, u: u8, sum: i128, l: usize) -> Option<i128>
    requires day { IsClosingDay calendar.now.case u }
    requires member { m < length calendar.now.case.members }
    requires line { l < line_count calendar.now.case }
    ensures { result ≡ summed sum []
        (if instrument_of calendar.now.case l == (member calendar.now.case m).instrument
        then map ((planned calendar.now).amount l u) (days_to (tiers calendar.now.case)) else []) }
{
    let case = calendar.case();
    if case.line(l).instrument != case.member(m).instrument {
        return Some(sum);
    }
    add_each(sum, usize::from(case.tiers()), |sum, tier| {
        plus(sum, calendar.amount(l, u, tier as u8 + 1))
    })
}

/// What is closed of a member's instrument on a day, over its lines and tiers, or None where a sum leaves.
fn day_sum(calendar: &CaseCalendar, m: usize, u: u8) -> Option<i128>
    requires day { IsClosingDay calendar.now.case u }
    requires member { m < length calendar.now.case.members }
    ensures { result ≡ summed (pos 0) []
        (day_closings calendar.now.case (planned calendar.now) u m) }
{
    add_each(
        0,
        calendar.case().lines(),
        |sum, l| plus_tiers(calendar, m, u, sum, l),
    )
}

/// What is closed of a member's instrument on a day, over its lines and tiers.
fn day_closed(calendar: &CaseCalendar, m: usize, u: u8) -> i128
    requires day { IsClosingDay calendar.now.case u }
    requires member { m < length calendar.now.case.members }
    requires stays { any_leaves (partial_sums (pos 0)
        (day_closings calendar.now.case (planned calendar.now) u m)) ≡ false }
    ensures { result ≡ total (day_closings calendar.now.case (planned calendar.now) u m) }
{
    day_sum(calendar, m, u).unwrap_or(0)
}

/// Whether a member is one of a pool and its instrument's closings of a day count.
fn is_pooled(case: &Case, p: usize, u: u8, m: usize) -> bool
    requires member { m < length case.now.members }
    ensures { result ≡ is_pooled case.now p u m }
{
    // Every case keeps the ranges and references of a well-formed one.
    let _kept = case.horizon();
    let member = case.member(m);
    member.pool == p && case.counts(member.instrument, u)
}

/// The sum and the weighted closing of a member on a day, if it is one of a pool and counts.
fn plus_member(accepted: &AcceptedCalendar, p: usize, u: u8, sum: i128, m: usize) -> Option<i128>
    requires pool { p < length accepted.now.calendar.case.pools }
    requires day { IsClosingDay accepted.now.calendar.case u }
    requires member { m < length accepted.now.calendar.case.members }
    ensures { let terms = if is_pooled accepted.now.calendar.case p u m
        then weighted_closing accepted.now.calendar.case
        (planned accepted.now.calendar) u m ∷ [] else [] in
        result ≡ summed sum terms terms }
{
    let case = accepted.case();
    if !is_pooled(case, p, u, m) {
        return Some(sum);
    }
    let closed = day_closed(&accepted.calendar, m, u);
    plus_product(sum, i128::from(case.member(m).weight), closed)
}

/// The weighted closings of a pool's members on a day, or None where a number leaves.
fn pool_sum(accepted: &AcceptedCalendar, p: usize, u: u8) -> Option<i128>
    requires pool { p < length accepted.now.calendar.case.pools }
    requires day { IsClosingDay accepted.now.calendar.case u }
    ensures { let terms = pool_terms accepted.now.calendar.case
        (planned accepted.now.calendar) p u in
        result ≡ summed (pos 0) terms terms }
{
    add_each(
        0,
        accepted.case().members(),
        |sum, m| plus_member(accepted, p, u, sum, m),
    )
}

/// The weighted closings of a pool's members on a day, of those whose expiry it is not.
pub(crate) fn pool_closed(accepted: &AcceptedCalendar, p: usize, u: u8) -> i128
    requires pool { p < length accepted.now.calendar.case.pools }
    requires day { IsClosingDay accepted.now.calendar.case u }
    ensures value { result ≡ total (pool_terms accepted.now.calendar.case
        (planned accepted.now.calendar) p u) }
    ensures kept { IsWithin128 result }
{
    pool_sum(accepted, p, u).unwrap_or(0)
}
