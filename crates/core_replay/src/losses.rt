// The worst loss of a calendar, with its place.
ghost use Rattle.std.specs.Prelude.{◌≡◌, ℕ, ◌<◌, ◌≤◌, ◌+◌, pos, neg_ℤ, ◌≤ℤ◌, int_lt, length, if◌then◌else◌, IfOk, IfErr};
ghost use Rattle.core_sums.specs.Places.{at};
ghost use Rattle.core_model.specs.Layout.{plan_of};
ghost use Rattle.core_model.specs.OfCase.{planned};
ghost use Rattle.core_model.specs.Fits.{CalendarFits, IsWithin128};
ghost use Rattle.core_replay.specs.Answers.{IsWorstLoss, StopsWorst};
ghost use Rattle.core_replay.specs.Worse.{loss_at, IsWorstOfDays};

use crate::fault::ReplayFault;
use crate::ledger::{Ledger, replay_in};
use core_book::Case;
use core_model::{Calendar, CaseCalendar};
use std::alloc::Global;

/// The worst loss, as a numerator over the calendar's denominator, with the first scenario (from 0) and in it the
/// first house day that has it.
#[derive(Clone, Copy, Debug, PartialEq, Eq)]
pub struct WorstLoss {
    pub loss: i128,
    pub scenario: usize,
    pub day: u8,
}

/// The worse of two losses, the first where they are equal.
fn worse(first: WorstLoss, other: WorstLoss) -> WorstLoss
    ensures { result ≡ (if int_lt first.loss other.loss then other else first) }
{
    if other.loss > first.loss {
        other
    } else {
        first
    }
}

/// The loss of a day of a scenario's ledger: minus its total.
fn loss_on(ledger: &Ledger, scenario: usize, day: u8) -> WorstLoss
    requires day { day < length ledger.now.total }
    requires kept { IsWithin128 (at ledger.now.total day) }
    ensures { result ≡ loss_at ledger.now.total scenario day }
{
    let loss = -ledger.total.get(usize::from(day));
    WorstLoss {
        loss,
        scenario,
        day,
    }
}

/// The worst loss of a scenario's ledger over the days 0 to the last, with the first day that has it.
fn worst_day(ledger: &Ledger, scenario: usize, last: u8) -> WorstLoss
    requires days { last < length ledger.now.total }
    requires few { last ≤ 40 }
    requires kept { (t : ℕ) → t ≤ last → IsWithin128 (at ledger.now.total t) }
    ensures { IsWorstOfDays (λ t. neg_ℤ (at ledger.now.total t)) scenario (last + 1) result }
{
    let mut worst = loss_on(ledger, scenario, 0);
    for day in 1..last + 1 {
        worst = worse(worst, loss_on(ledger, scenario, day));
    }
    worst
}

/// Replays a calendar in all scenarios, in order: the worst loss over all scenarios and house days, with the first
/// scenario and in it the first day that has it.
///
/// The answer is `TooWide` with the first scenario and in it the first day whose replay meets a number above
/// 2^127 - 1 in absolute value.
pub fn worst(alloc: Global, case: &Case, calendar: &Calendar) -> Result<WorstLoss, ReplayFault>
    requires fits { CalendarFits case.now calendar.now }
    requires den { pos 1 ≤ℤ calendar.now.den }
    ensures worst { IfOk result (IsWorstLoss
        case.now (plan_of case.now calendar.now)) }
    ensures stops { IfErr result (StopsWorst
        case.now (plan_of case.now calendar.now)) }
{
    worst_of(alloc, &CaseCalendar::of(case, calendar))
}

/// The worst loss of a calendar of a case, with its place.
fn worst_of(alloc: Global, calendar: &CaseCalendar) -> Result<WorstLoss, ReplayFault>
    ensures worst { IfOk result (IsWorstLoss
        calendar.now.case (planned calendar.now)) }
    ensures stops { IfErr result (StopsWorst
        calendar.now.case (planned calendar.now)) }
{
    let case = calendar.case();
    let last = case.last();
    let first = replay_in(alloc, calendar, 0)?;
    let mut worst = worst_day(&first, 0, last);
    for scenario in 1..case.scenarios() {
        let ledger = replay_in(alloc, calendar, scenario)?;
        worst = worse(worst, worst_day(&ledger, scenario, last));
    }
    Ok(worst)
}
