// The ledger of a calendar in a scenario.
ghost use Rattle.std.specs.Prelude.{◌≡◌, ◌<◌, ◌≤◌, suc, pos, ◌≤ℤ◌, true, false, length, replicate, MatchOption, IfOk, IfErr};
ghost use Rattle.core_sums.specs.Sums.{sum_below};
ghost use Rattle.core_sums.specs.Widths.{any_leaves};
ghost use Rattle.core_model.specs.Closing.{cash_of};
ghost use Rattle.core_model.specs.Layout.{plan_of};
ghost use Rattle.core_model.specs.OfCase.{planned};
ghost use Rattle.core_model.specs.Fits.{CalendarFits};
ghost use Rattle.core_replay.specs.Ledger.{opening_numbers, later_numbers, flows_until, paid_on};
ghost use Rattle.core_replay.specs.Steps.{sum_numbers};
ghost use Rattle.core_replay.specs.Runs.{IsRun};
ghost use Rattle.core_replay.specs.Answers.{IsLedger, StopsReplay, StopsOn};

use crate::fault::ReplayFault;
use crate::lines::{Standing, day_lines, open_lines};
use crate::payable::PayableFlows;
use core_book::Case;
use core_model::{Calendar, CaseCalendar, Numbers};
use core_wide::{plus, sum_from, times};
use std::alloc::{AllocError, Global};

/// What a calendar pays in a scenario, by house day from 0 to the last, as numerators over `den`: what is paid on the
/// day, and the cash of all days up to it.
#[derive(Debug, Drop)]
pub struct Ledger {
    pub den: i128,
    pub paid: Numbers,
    pub total: Numbers,
}

/// A replay before a day.
#[derive(Drop)]
struct Run {
    lines: Vec<Standing>,
    payable: PayableFlows,
    /// The total of the day before, 0 on day 0.
    total: i128,
    ledger: Ledger,
}

/// A ledger of noughts.
fn empty_ledger(alloc: Global, den: i128, days: usize) -> Result<Ledger, AllocError>
    ensures { IfOk result
        (λ ledger. (ledger.den ≡ den) × (ledger.paid ≡ replicate days (pos 0))
        × (ledger.total ≡ replicate days (pos 0))) }
{
    let paid = Numbers::zeros(alloc, days)?;
    let total = Numbers::zeros(alloc, days)?;
    Ok(Ledger { den, paid, total })
}

/// What is paid on a day, and the total, or None where the fixed cash, a sum on the way or the total leaves.
fn day_sums(
    calendar: &CaseCalendar,
    scenario: usize,
    t: u8,
    payable: &[i128],
    before: i128,
) -> Option<(i128, i128)>
    requires day { t ≤ calendar.now.case.last }
    requires payable { payable.now ≡ flows_until
        calendar.now.case (planned calendar.now) scenario t t }
    requires before { before ≡ sum_below t (paid_on
        calendar.now.case (planned calendar.now) scenario) }
    ensures { let numbers = sum_numbers
        calendar.now.case (planned calendar.now) scenario t in
        MatchOption result (any_leaves numbers ≡ true)
        (λ sums. (sums.0 ≡ paid_on
        calendar.now.case (planned calendar.now) scenario t)
        × (sums.1 ≡ cash_of
        calendar.now.case (planned calendar.now) scenario t)
        × (any_leaves numbers ≡ false)) }
{
    let case = calendar.case();
    let cash = times(calendar.calendar().den, i128::from(case.cash(t)))?;
    let paid = sum_from(cash, payable)?;
    let total = plus(before, paid)?;
    Some((paid, total))
}

impl Run {
    /// The replay before day 0, or a fault on day 0 where an amount leaves.
    fn start(alloc: Global, calendar: &CaseCalendar, scenario: usize) -> Result<Run, ReplayFault>
        ensures started { IfOk result (IsRun
            calendar.now.case (planned calendar.now) scenario 0) }
        ensures stays { IfOk result
            (λ _. any_leaves (opening_numbers calendar.now.case (planned calendar.now) 0) ≡ false) }
        ensures stops { IfErr result
            (StopsOn scenario 0 (opening_numbers calendar.now.case (planned calendar.now) 0)) }
    {
        let case = calendar.case();
        let lines = open_lines(alloc, calendar, scenario)?;
        let days = usize::from(case.last()) + 1;
        let payable = PayableFlows::none(alloc, days)?;
        let ledger = empty_ledger(alloc, calendar.calendar().den, days)?;
        Ok(Run {
            lines,
            payable,
            total: 0,
            ledger,
        })
    }

    /// Takes the replay through a day.
    fn day(&mut self, calendar: &CaseCalendar, scenario: usize, t: u8) -> Result<(), ReplayFault>
        requires scenario { scenario < length calendar.now.case.scenarios }
        requires day { t ≤ calendar.now.case.last }
        requires before { IsRun
            calendar.now.case (planned calendar.now) scenario t self.old }
        ensures after { IfOk result (λ _. IsRun
            calendar.now.case (planned calendar.now) scenario (suc t) self.new) }
        ensures stays { IfOk result
            (λ _. any_leaves (later_numbers
            calendar.now.case (planned calendar.now) scenario t) ≡ false) }
        ensures stops { IfErr result
            (StopsOn scenario t (later_numbers
            calendar.now.case (planned calendar.now) scenario t)) }
    {
        day_lines(calendar, scenario, t, &mut self.lines, &mut self.payable)?;
        let payable = self.payable.on(t);
        let Some((paid, total)) = day_sums(calendar, scenario, t, payable, self.total) else {
            return Err(ReplayFault::TooWide { scenario, day: t });
        };
        self.ledger.paid.set(usize::from(t), paid);
        self.ledger.total.set(usize::from(t), total);
        self.total = total;
        Ok(())
    }
}

/// Replays a calendar in a scenario, day by day: what is paid on each house day 0 to the last, and the total.
///
/// On day 0 a line has its amount times the denominator open. On an open day from 1 on a future's flow is sign times
/// multiplier times the change of the price since the last open day, on what is open; a security's is sign times
/// multiplier times the price, on what is closed then in all tiers. Besides, what is closed in a tier has the flow minus
/// the tier's cost times its amount. What is closed on a day is taken from what is open after these flows, tier by tier.
/// A flow is paid on its pay day, and on no day where it has none. What is paid on a day is the fixed cash times the
/// denominator and then the flows whose pay day it is, by their day, then by line, then by tier.
///
/// The answer is `TooWide` with the scenario and the first day on which one of these numbers, a sum on the way or a total
/// is above 2^127 - 1 in absolute value. The time is linear in lines times house days times tiers.
pub fn replay(
    alloc: Global,
    case: &Case,
    calendar: &Calendar,
    scenario: usize,
) -> Result<Ledger, ReplayFault>
    requires fits { CalendarFits case.now calendar.now }
    requires den { pos 1 ≤ℤ calendar.now.den }
    requires scenario { scenario < length case.now.scenarios }
    ensures replayed { IfOk result (IsLedger
        case.now (plan_of case.now calendar.now) scenario) }
    ensures stops { IfErr result (StopsReplay
        case.now (plan_of case.now calendar.now) scenario) }
{
    replay_in(alloc, &CaseCalendar::of(case, calendar), scenario)
}

/// Replays a calendar in a scenario of its case, day by day.
pub(crate) fn replay_in(
    alloc: Global,
    calendar: &CaseCalendar,
    scenario: usize,
) -> Result<Ledger, ReplayFault>
    requires { scenario < length calendar.now.case.scenarios }
    ensures replayed { IfOk result (IsLedger
        calendar.now.case (planned calendar.now) scenario) }
    ensures stops { IfErr result (StopsReplay
        calendar.now.case (planned calendar.now) scenario) }
{
    let last = calendar.case().last();
    let mut run = Run::start(alloc, calendar, scenario)?;
    for t in 0..last + 1 {
        run.day(calendar, scenario, t)?;
    }
    Ok(run.ledger)
}
