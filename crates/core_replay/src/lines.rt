// The lines of a book on the days of a replay.
ghost use Rattle.std.specs.Prelude.{◌≡◌, ◌<◌, ◌≤◌, ◌-◌, ◌++◌, ◌∷◌, [], neg_ℤ, suc, true, false, length, map, MatchOption, IfOk, IfErr};
ghost use Rattle.core_sums.specs.Widths.{any_leaves};
ghost use Rattle.core_book.specs.View.{instrument_of, day_before, pays};
ghost use Rattle.core_model.specs.Closing.{IsClosingDay, line_count, still_open};
ghost use Rattle.core_model.specs.OfCase.{planned};
ghost use Rattle.core_replay.specs.Ledger.{opening_numbers, closings, closing_numbers, line_flows, line_numbers, lines_numbers};
ghost use Rattle.core_wide.specs.Steps.{summed, with_number};
ghost use Rattle.core_replay.specs.Steps.{with_flows, IsStanding, AreStanding, ArePayable};
ghost use Rattle.core_replay.specs.Answers.{StopsOn};

use crate::fault::ReplayFault;
use crate::flows::put_flows;
use crate::payable::PayableFlows;
use core_book::Case;
use core_model::CaseCalendar;
use core_wide::{add_each, minus, times};
use std::alloc::{AllocError, Global};

/// A line before the closings of a day.
#[derive(Clone, Copy, Debug)]
pub(crate) struct Standing {
    /// What is still open, as a numerator over the calendar's denominator.
    pub(crate) still_open: i128,
    /// The last day before on which its market was open.
    pub(crate) marked_on: u8,
}

/// A number less another, as a step of a sum, or None where it leaves.
fn less(rest: i128, amount: i128) -> Option<i128>
    ensures { result ≡ with_number rest (neg_ℤ amount) }
{
    minus(rest, amount)
}

/// What a line has open after the closings of a closing day, tier by tier, or None where it leaves on the way.
fn less_closed(calendar: &CaseCalendar, l: usize, t: u8, still_open: i128) -> Option<i128>
    requires line { l < line_count calendar.now.case }
    requires day { IsClosingDay calendar.now.case t }
    ensures { result ≡ summed still_open []
        (map neg_ℤ (closings calendar.now.case (planned calendar.now) l t)) }
{
    let case = calendar.case();
    add_each(still_open, usize::from(case.tiers()), |rest, j| {
        less(rest, calendar.amount(l, t, j as u8 + 1))
    })
}

/// What a line has open after the closings of a day, or None where it leaves on the way.
fn open_after(calendar: &CaseCalendar, l: usize, t: u8, standing: Standing) -> Option<i128>
    requires line { l < line_count calendar.now.case }
    requires from { 1 ≤ t }
    requires to { t ≤ calendar.now.case.last }
    requires standing { IsStanding calendar.now.case (planned calendar.now) l t standing }
    ensures { let numbers = closing_numbers calendar.now.case (planned calendar.now) t l in
        MatchOption result (any_leaves numbers ≡ true)
        (λ rest. (rest ≡ still_open calendar.now.case (planned calendar.now) l (suc t))
        × (any_leaves numbers ≡ false)) }
{
    let case = calendar.case();
    if t <= case.horizon() {
        less_closed(calendar, l, t, standing.still_open)
    } else {
        Some(standing.still_open)
    }
}

/// The last open day up to day t.
fn marked_after(case: &Case, l: usize, t: u8, marked_on: u8) -> u8
    requires line { l < line_count case.now }
    requires day { t ≤ case.now.last }
    requires marked { marked_on ≡ day_before case.now (instrument_of case.now l) t }
    ensures { result ≡ day_before case.now (instrument_of case.now l) (suc t) }
{
    case.well_formed();
    if case.is_open(case.line(l).instrument, t) {
        t
    } else {
        marked_on
    }
}

/// Takes a line through a day: puts its flows on the list of their pay day, and takes its closings from what is open.
fn line_day(
    calendar: &CaseCalendar,
    scenario: usize,
    l: usize,
    t: u8,
    standing: Standing,
    payable: &mut PayableFlows,
) -> Result<Standing, ReplayFault>
    requires scenario { scenario < length calendar.now.case.scenarios }
    requires line { l < line_count calendar.now.case }
    requires from { 1 ≤ t }
    requires to { t ≤ calendar.now.case.last }
    requires standing { IsStanding calendar.now.case (planned calendar.now) l t standing }
    requires payable { length payable.old ≡ suc calendar.now.case.last }
    ensures next { IfOk result (IsStanding calendar.now.case (planned calendar.now) l (suc t)) }
    ensures payable { IfOk result (λ _. payable.new ≡ with_flows payable.old
        (pays calendar.now.case (instrument_of calendar.now.case l) t)
        (line_flows calendar.now.case (planned calendar.now) scenario l t)) }
    ensures stays { IfOk result (λ _. any_leaves
        (line_numbers calendar.now.case (planned calendar.now) scenario t l) ≡ false) }
    ensures stops { IfErr result (StopsOn scenario t
        (line_numbers calendar.now.case (planned calendar.now) scenario t l)) }
{
    let case = calendar.case();
    put_flows(calendar, scenario, l, t, standing, payable)?;
    let Some(still_open) = open_after(calendar, l, t, standing) else {
        return Err(ReplayFault::TooWide { scenario, day: t });
    };
    let marked_on = marked_after(case, l, t, standing.marked_on);
    Ok(Standing {
        still_open,
        marked_on,
    })
}

/// The lines before day 0, each with its amount times the denominator open, or a fault on day 0 where one leaves.
pub(crate) fn open_lines(
    alloc: Global,
    calendar: &CaseCalendar,
    scenario: usize,
) -> Result<Vec<Standing>, ReplayFault>
    ensures opened { IfOk result (λ lines. AreStanding calendar.now.case
        (planned calendar.now) 0 0 lines.items) }
    ensures stays { IfOk result
        (λ _. any_leaves (opening_numbers calendar.now.case (planned calendar.now) 0) ≡ false) }
    ensures stops { IfErr result
        (StopsOn scenario 0 (opening_numbers calendar.now.case (planned calendar.now) 0)) }
{
    let case = calendar.case();
    let mut lines = Vec::with_capacity(alloc, case.lines())?;
    for l in 0..case.lines() {
        let amount = i128::from(case.line(l).amount);
        let Some(still_open) = times(amount, calendar.calendar().den) else {
            return Err(ReplayFault::TooWide { scenario, day: 0 });
        };
        let marked_on = 0;
        push_standing(
            &mut lines,
            Standing {
                still_open,
                marked_on,
            },
        )?;
    }
    Ok(lines)
}

/// Puts one more line behind the others.
fn push_standing(lines: &mut Vec<Standing>, standing: Standing) -> Result<(), AllocError>
    ensures { IfOk result (λ _. lines.new.items ≡ lines.old.items ++ (standing ∷ [])) }
{
    lines.push(standing)?;
    Ok(())
}

/// Takes the lines through a day from 1 on, and puts their flows on the lists of their pay days.
fn replay_lines(
    calendar: &CaseCalendar,
    scenario: usize,
    t: u8,
    lines: &mut Vec<Standing>,
    payable: &mut PayableFlows,
) -> Result<(), ReplayFault>
    requires scenario { scenario < length calendar.now.case.scenarios }
    requires from { 1 ≤ t }
    requires to { t ≤ calendar.now.case.last }
    requires standing { AreStanding calendar.now.case
        (planned calendar.now) t 0 lines.old.items }
    requires payable { ArePayable calendar.now.case
        (planned calendar.now) scenario (t - 1) 0 payable.old }
    ensures standing { IfOk result (λ _. AreStanding calendar.now.case
        (planned calendar.now) (suc t) 0 lines.new.items) }
    ensures payable { IfOk result (λ _. ArePayable calendar.now.case
        (planned calendar.now) scenario t 0 payable.new) }
    ensures stays { IfOk result
        (λ _. any_leaves (lines_numbers
        calendar.now.case (planned calendar.now) scenario t) ≡ false) }
    ensures stops { IfErr result
        (StopsOn scenario t (lines_numbers
        calendar.now.case (planned calendar.now) scenario t)) }
{
    for l in 0..lines.len() {
        lines[l] = line_day(calendar, scenario, l, t, lines[l], payable)?;
    }
    Ok(())
}

/// Takes the lines through a day. On day 0 nothing flows, and nothing is closed.
pub(crate) fn day_lines(
    calendar: &CaseCalendar,
    scenario: usize,
    t: u8,
    lines: &mut Vec<Standing>,
    payable: &mut PayableFlows,
) -> Result<(), ReplayFault>
    requires scenario { scenario < length calendar.now.case.scenarios }
    requires day { t ≤ calendar.now.case.last }
    requires standing { AreStanding calendar.now.case
        (planned calendar.now) t 0 lines.old.items }
    requires payable { ArePayable calendar.now.case
        (planned calendar.now) scenario (t - 1) 0 payable.old }
    ensures standing { IfOk result (λ _. AreStanding calendar.now.case
        (planned calendar.now) (suc t) 0 lines.new.items) }
    ensures payable { IfOk result (λ _. ArePayable calendar.now.case
        (planned calendar.now) scenario t 0 payable.new) }
    ensures stays { IfOk result
        (λ _. any_leaves (lines_numbers
        calendar.now.case (planned calendar.now) scenario t) ≡ false) }
    ensures stops { IfErr result
        (StopsOn scenario t (lines_numbers
        calendar.now.case (planned calendar.now) scenario t)) }
{
    if t == 0 {
        Ok(())
    } else {
        replay_lines(calendar, scenario, t, lines, payable)
    }
}
