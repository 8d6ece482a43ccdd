// The conditions on what a calendar closes: its signs, what is allowed, whole lines, limits and pools.
ghost use Rattle.std.specs.Prelude.{◌≡◌, ◌*ℤ◌, ◌*◌, ◌<◌, ◌∷◌, [], ◌||◌, pos, ◌==◌, length, map, if◌then◌else◌, MatchOption, Some};
ghost use Rattle.std.specs.Ordering.{int_eq};
ghost use Rattle.core_sums.specs.Places.{at, days_to};
ghost use Rattle.core_book.specs.View.{instrument_of, is_allowed, line, tiers};
ghost use Rattle.core_model.specs.Closing.{IsClosingDay, IsTierNumber, is_pooled, line_count};
ghost use Rattle.core_model.specs.Layout.{day_at_place, limit_count, pool_at_place, pool_count, pool_day_at_place, row_at_place, tier_at_place};
ghost use Rattle.core_model.specs.OfCase.{planned};
ghost use Rattle.core_model.specs.Check.{allowed_test, by_closing, by_day_and_tier, by_limit, by_line, by_pool_and_day, closes_line, full_test, limit_test, places_of, pool_numbers, pool_terms, pool_test, sign_test, tier_closings};
ghost use Rattle.core_model.specs.declared.condition.Condition.TheVariants.{AllowedClosings, AmountSigns, Caps, FullClosings, Limits};
ghost use Rattle.core_check.specs.Answers.{answer};
ghost use Rattle.core_wide.specs.Steps.{Leaves, Stays, summed, with_number};
ghost use Rattle.core_check.specs.Steps.{closings_of, judged, pooled_numbers, pooled_step};

use crate::fault::CheckFault;
use crate::numbers::number;
use crate::places::{check_each, closing_count};
use core_book::Side;
use core_model::{CaseCalendar, ClosingCell, Condition, closing_cell, pool_cell};
use core_wide::{add_each, plus, plus_product, times};

/// Whether each amount is at least 0.
pub(crate) fn check_signs(calendar: &CaseCalendar) -> Result<(), CheckFault>
    ensures { result ≡ answer
        (places_of AmountSigns 1 (by_closing calendar.now.case
        (sign_test (planned calendar.now)))) }
{
    let amounts = &calendar.calendar().amounts;
    let count = closing_count(calendar.case());
    check_each(Condition::AmountSigns, 1, count, |place| {
        Some(number(amounts, place) >= 0)
    })
}

/// Whether an amount is 0 where its closing is not allowed.
fn is_allowed(calendar: &CaseCalendar, place: usize) -> bool
    requires place { place < length calendar.now.calendar.amounts }
    ensures { result ≡ (is_allowed calendar.now.case
        (row_at_place calendar.now.case place) (day_at_place calendar.now.case place)
        (tier_at_place calendar.now.case place)
        || int_eq (at calendar.now.calendar.amounts place) (pos 0)) }
{
    if number(&calendar.calendar().amounts, place) == 0 {
        return true;
    }
    let case = calendar.case();
    let cell = closing_cell(case, case.lines(), place);
    case.allowed(cell.row, cell.day, cell.tier)
}

/// Whether each amount is 0 where its closing is not allowed.
pub(crate) fn check_allowed(calendar: &CaseCalendar) -> Result<(), CheckFault>
    ensures { result ≡ answer
        (places_of AllowedClosings 1 (by_closing calendar.now.case
        (allowed_test calendar.now.case (planned calendar.now)))) }
{
    let count = closing_count(calendar.case());
    check_each(Condition::AllowedClosings, 1, count, |place| {
        Some(is_allowed(calendar, place))
    })
}

/// The sum and what is closed of a line at a place of its days and tiers.
fn plus_closed(calendar: &CaseCalendar, l: usize, sum: i128, place: usize) -> Option<i128>
    requires line { l < line_count calendar.now.case }
    requires place { place < calendar.now.case.horizon * tiers calendar.now.case }
    ensures { result ≡ with_number sum ((planned calendar.now).amount l
        (day_at_place calendar.now.case place) (tier_at_place calendar.now.case place)) }
{
    let case = calendar.case();
    let cell = closing_cell(case, 1, place);
    plus(sum, calendar.amount(l, cell.day, cell.tier))
}

/// What is closed of a line over all days and tiers, or None where a sum leaves.
fn line_closed(calendar: &CaseCalendar, l: usize) -> Option<i128>
    requires line { l < line_count calendar.now.case }
    ensures { result ≡ summed (pos 0) []
        (by_day_and_tier calendar.now.case ((planned calendar.now).amount l)) }
{
    let case = calendar.case();
    let count = usize::from(case.horizon()) * usize::from(case.tiers());
    add_each(0, count, |sum, place| {
        plus_closed(calendar, l, sum, place)
    })
}

/// A number of the case over the calendar's denominator, or None where it leaves.
fn over_den(calendar: &CaseCalendar, number: i64) -> Option<i128>
    ensures { MatchOption result (Leaves (number *ℤ calendar.now.calendar.den))
        (λ product. (product ≡ number *ℤ calendar.now.calendar.den)
        × Stays (number *ℤ calendar.now.calendar.den)) }
{
    times(i128::from(number), calendar.calendar().den)
}

/// Whether a sum closes a line: a position in full, collateral at most in full.
fn closes(side: Side, closed: i128, whole: i128) -> bool
    ensures { result ≡ closes_line side closed whole }
{
    match side {
        Side::Position => closed == whole,
        Side::Collateral => closed <= whole,
    }
}

/// Whether a line is closed as its side asks, or None where a number leaves.
fn is_closed(calendar: &CaseCalendar, l: usize) -> Option<bool>
    requires line { l < line_count calendar.now.case }
    ensures { result ≡ judged (full_test calendar.now.case (planned calendar.now) l) }
{
    let case = calendar.case();
    let line = case.line(l);
    let closed = line_closed(calendar, l)?;
    let whole = over_den(calendar, line.amount)?;
    Some(closes(line.side, closed, whole))
}

/// Whether each line is closed as its side asks.
pub(crate) fn check_full(calendar: &CaseCalendar) -> Result<(), CheckFault>
    ensures { result ≡ answer
        (places_of FullClosings 1
        (by_line calendar.now.case (full_test calendar.now.case (planned calendar.now)))) }
{
    let case = calendar.case();
    check_each(Condition::FullClosings, 1, case.lines(), |l| {
        is_closed(calendar, l)
    })
}

/// The sum and what is closed of a line on a day in a tier, if the line is one of an instrument.
fn plus_line(calendar: &CaseCalendar, cell: ClosingCell, sum: i128, l: usize) -> Option<i128>
    requires day { IsClosingDay calendar.now.case cell.day }
    requires tier { IsTierNumber calendar.now.case cell.tier }
    requires line { l < line_count calendar.now.case }
    ensures { result ≡ summed sum []
        (if instrument_of calendar.now.case l == cell.row
        then (planned calendar.now).amount l cell.day cell.tier ∷ [] else []) }
{
    let case = calendar.case();
    if case.line(l).instrument == cell.row {
        plus(sum, calendar.amount(l, cell.day, cell.tier))
    } else {
        Some(sum)
    }
}

/// What is closed of an instrument on a day in a tier, over its lines, or None where a sum leaves.
pub(crate) fn tier_closed(calendar: &CaseCalendar, cell: ClosingCell) -> Option<i128>
    requires day { IsClosingDay calendar.now.case cell.day }
    requires tier { IsTierNumber calendar.now.case cell.tier }
    ensures { result ≡ summed (pos 0) [] (tier_closings calendar.now.case (planned calendar.now)
        cell.row cell.day cell.tier) }
{
    let case = calendar.case();
    add_each(0, case.lines(), |sum, l| plus_line(calendar, cell, sum, l))
}

/// Whether what is closed of an instrument on a day in a tier is within its limit, or None where a number leaves. On
/// its expiry closings do not count.
fn is_within_limit(calendar: &CaseCalendar, cell: ClosingCell) -> Option<bool>
    requires instrument { cell.row < length calendar.now.case.instruments }
    requires day { IsClosingDay calendar.now.case cell.day }
    requires tier { IsTierNumber calendar.now.case cell.tier }
    ensures { result ≡ judged (limit_test calendar.now.case (planned calendar.now)
        cell.row cell.day cell.tier) }
{
    let case = calendar.case();
    if !case.counts(cell.row, cell.day) {
        return Some(true);
    }
    let limit = case.limit(cell.row, cell.day, cell.tier);
    let closed = tier_closed(calendar, cell)?;
    let most = over_den(calendar, limit)?;
    Some(closed <= most)
}

/// The same at a place.
fn is_within_limit_at(calendar: &CaseCalendar, place: usize) -> Option<bool>
    requires place { place < limit_count calendar.now.case }
    ensures { result ≡ judged (limit_test calendar.now.case (planned calendar.now)
        (row_at_place calendar.now.case place) (day_at_place calendar.now.case place)
        (tier_at_place calendar.now.case place)) }
{
    let case = calendar.case();
    is_within_limit(calendar, closing_cell(case, case.instruments(), place))
}

/// Whether the closings of each instrument are within its limits on each day in each tier.
pub(crate) fn check_limits(calendar: &CaseCalendar) -> Result<(), CheckFault>
    ensures { result ≡ answer
        (places_of Limits 1 (by_limit calendar.now.case
        (limit_test calendar.now.case (planned calendar.now)))) }
{
    let case = calendar.case();
    let days = case.instruments() * usize::from(case.horizon());
    let count = days * usize::from(case.tiers());
    check_each(Condition::Limits, 1, count, |place| {
        is_within_limit_at(calendar, place)
    })
}

/// The sum and what is closed of a line on a day, over its tiers, if the line is one of an instrument.
fn plus_tiers(calendar: &CaseCalendar, i: usize, u: u8, sum: i128, l: usize) -> Option<i128>
    requires day { IsClosingDay calendar.now.case u }
    requires line { l < line_count calendar.now.case }
    ensures { result ≡ summed sum []
        (if instrument_of calendar.now.case l == i
        then map ((planned calendar.now).amount l u) (days_to (tiers calendar.now.case)) else []) }
{
    let case = calendar.case();
    if case.line(l).instrument != i {
        return Some(sum);
    }
    add_each(sum, usize::from(case.tiers()), |sum, tier| {
        plus(sum, calendar.amount(l, u, tier as u8 + 1))
    })
}

/// What is closed of an instrument on a day, over its lines and tiers, or None where a sum leaves.
fn day_closed(calendar: &CaseCalendar, i: usize, u: u8) -> Option<i128>
    requires day { IsClosingDay calendar.now.case u }
    ensures { result ≡ summed (pos 0) []
        (closings_of calendar.now.case (planned calendar.now) i u) }
{
    let case = calendar.case();
    add_each(0, case.lines(), |sum, l| plus_tiers(calendar, i, u, sum, l))
}

/// Whether a member is one of a pool and its instrument's closings of a day count.
fn is_pooled(calendar: &CaseCalendar, p: usize, u: u8, m: usize) -> bool
    requires member { m < length calendar.now.case.members }
    ensures { result ≡ is_pooled calendar.now.case p u m }
{
    let case = calendar.case();
    let member = case.member(m);
    member.pool == p && case.counts(member.instrument, u)
}

/// The sum and the weighted closing of a member on a day, if it is one of a pool and counts.
fn plus_member(calendar: &CaseCalendar, p: usize, u: u8, sum: i128, m: usize) -> Option<i128>
    requires day { IsClosingDay calendar.now.case u }
    requires member { m < length calendar.now.case.members }
    ensures { result ≡ summed sum
        (pooled_numbers calendar.now.case (planned calendar.now) p u m)
        (pooled_step calendar.now.case (planned calendar.now) p u m) }
{
    let case = calendar.case();
    if !is_pooled(calendar, p, u, m) {
        return Some(sum);
    }
    let member = case.member(m);
    let closed = day_closed(calendar, member.instrument, u)?;
    plus_product(sum, i128::from(member.weight), closed)
}

/// The weighted closings of a pool's members on a day, or None where a number leaves.
pub(crate) fn pool_closed(calendar: &CaseCalendar, p: usize, u: u8) -> Option<i128>
    requires day { IsClosingDay calendar.now.case u }
    ensures { result ≡ summed (pos 0)
        (pool_numbers calendar.now.case (planned calendar.now) p u)
        (pool_terms calendar.now.case (planned calendar.now) p u) }
{
    let case = calendar.case();
    add_each(
        0,
        case.members(),
        |sum, m| plus_member(calendar, p, u, sum, m),
    )
}

/// Whether the weighted closings of a pool on a day are within its cap, or None where a number leaves.
fn is_within_cap(calendar: &CaseCalendar, place: usize) -> Option<bool>
    requires place { place < pool_count calendar.now.case }
    ensures { result ≡ judged (pool_test calendar.now.case (planned calendar.now)
        (pool_at_place calendar.now.case place) (pool_day_at_place calendar.now.case place)) }
{
    let case = calendar.case();
    let cell = pool_cell(case, case.pools(), place);
    let closed = pool_closed(calendar, cell.row, cell.day)?;
    let most = over_den(calendar, case.pool(cell.row).cap)?;
    Some(closed <= most)
}

/// Whether the weighted closings of each pool are within its cap on each day.
pub(crate) fn check_caps(calendar: &CaseCalendar) -> Result<(), CheckFault>
    ensures { result ≡ answer
        (places_of Caps 1 (by_pool_and_day calendar.now.case
        (pool_test calendar.now.case (planned calendar.now)))) }
{
    let case = calendar.case();
    let count = case.pools() * usize::from(case.horizon());
    check_each(Condition::Caps, 1, count, |place| {
        is_within_cap(calendar, place)
    })
}
