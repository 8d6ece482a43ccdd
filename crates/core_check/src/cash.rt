// The conditions on a calendar's loss: it covers every scenario and day, and one of them reaches it.
ghost use Rattle.std.specs.Prelude.{◌≡◌, ◌<◌, ◌≤◌, ◌++◌, ◌∷◌, [], pos, neg_ℤ, length};
ghost use Rattle.std.specs.Ordering.{int_eq};
ghost use Rattle.core_sums.specs.Sums.{total};
ghost use Rattle.core_model.specs.Layout.{house_day_at_place, scenario_at_place, scenario_count};
ghost use Rattle.core_model.specs.OfCase.{planned};
ghost use Rattle.core_model.specs.Fits.{IsWithin128};
ghost use Rattle.core_model.specs.Check.{by_scenario_and_day, cash_terms, loss_test, places_of, reached_test};
ghost use Rattle.core_model.specs.declared.condition.Condition.TheVariants.{Losses, WorstLoss};
ghost use Rattle.core_check.specs.Answers.{answer};
ghost use Rattle.core_wide.specs.Steps.{summed};
ghost use Rattle.core_check.specs.Steps.{LossesStay, cash_step, judged};

use crate::fault::CheckFault;
use crate::numbers::number;
use crate::places::{check_each, judge_place, loss_count};
use crate::with_flows::CalendarAndFlows;
use core_model::{Condition, DayCell, closing_cell, scenario_cell};
use core_wide::{add_each, plus_product};

/// The sum and what a closing pays in a scenario by a house day, if it is allowed. A closing of 0 costs only a look.
fn plus_closing(calendar: &CalendarAndFlows, on: DayCell, sum: i128, place: usize) -> Option<i128>
    requires scenario { on.row < length calendar.now.of_case.case.scenarios }
    requires day { on.day ≤ calendar.now.of_case.case.last }
    requires place { place < length calendar.now.of_case.calendar.amounts }
    ensures { result ≡ summed sum
        (cash_step calendar.now.of_case.case (planned calendar.now.of_case) on.row on.day place)
        (cash_step calendar.now.of_case.case (planned calendar.now.of_case) on.row on.day place) }
{
    let amount = number(&calendar.of_case.calendar().amounts, place);
    if amount == 0 {
        return Some(sum);
    }
    let case = calendar.of_case.case();
    let cell = closing_cell(case, case.lines(), place);
    if !case.allowed(cell.row, cell.day, cell.tier) {
        return Some(sum);
    }
    let flows = calendar.flows;
    let paid = flows.unit(cell.row, on.row, cell.day, cell.tier, on.day);
    plus_product(sum, amount, paid)
}

/// The cash of a scenario on a house day, as a numerator, or None where a number leaves.
fn cash(calendar: &CalendarAndFlows, on: DayCell) -> Option<i128>
    requires scenario { on.row < length calendar.now.of_case.case.scenarios }
    requires day { on.day ≤ calendar.now.of_case.case.last }
    ensures { result ≡ summed (pos 0)
        (cash_terms calendar.now.of_case.case (planned calendar.now.of_case) on.row on.day)
        (cash_terms calendar.now.of_case.case (planned calendar.now.of_case) on.row on.day) }
{
    let listed = calendar.of_case.calendar();
    let fixed = plus_product(0, listed.den, calendar.flows.fixed(on.day))?;
    add_each(fixed, listed.amounts.len(), |sum, place| {
        plus_closing(calendar, on, sum, place)
    })
}

/// Whether the loss of a scenario on a day is at most the calendar's, or None where a number leaves.
fn is_covered(calendar: &CalendarAndFlows, loss: i128, place: usize) -> Option<bool>
    requires loss { IsWithin128 loss }
    requires place { place < scenario_count calendar.now.of_case.case }
    ensures { result ≡ judged (loss_test
        calendar.now.of_case.case (planned calendar.now.of_case) loss
        (scenario_at_place calendar.now.of_case.case place)
        (house_day_at_place calendar.now.of_case.case place)) }
{
    let case = calendar.of_case.case();
    let on = scenario_cell(case, case.scenarios(), place);
    let cash = cash(calendar, on)?;
    Some(-loss <= cash)
}

/// Whether the loss of a scenario on a day is the calendar's, where no number of it leaves.
fn is_reached_at(calendar: &CalendarAndFlows, loss: i128, place: usize) -> bool
    requires loss { IsWithin128 loss }
    requires place { place < scenario_count calendar.now.of_case.case }
    requires stays { LossesStay calendar.now.of_case.case (planned calendar.now.of_case) loss }
    ensures { result ≡ int_eq (neg_ℤ (total (cash_terms
        calendar.now.of_case.case (planned calendar.now.of_case)
        (scenario_at_place calendar.now.of_case.case place)
        (house_day_at_place calendar.now.of_case.case place)))) loss }
{
    let case = calendar.of_case.case();
    let on = scenario_cell(case, case.scenarios(), place);
    match cash(calendar, on) {
        Some(cash) => cash == -loss,
        None => false,
    }
}

/// Whether the loss of some scenario on some day is the calendar's, where no number of them leaves.
fn is_reached(calendar: &CalendarAndFlows, loss: i128) -> bool
    requires loss { IsWithin128 loss }
    requires stays { LossesStay calendar.now.of_case.case (planned calendar.now.of_case) loss }
    ensures { result ≡ (reached_test
        calendar.now.of_case.case (planned calendar.now.of_case) loss).holds }
{
    let count = loss_count(calendar.of_case.case());
    for place in 0..count {
        if is_reached_at(calendar, loss, place) {
            return true;
        }
    }
    false
}

/// Whether each loss is at most the calendar's.
fn check_covered(calendar: &CalendarAndFlows, loss: i128) -> Result<(), CheckFault>
    requires loss { IsWithin128 loss }
    ensures { result ≡ answer
        (places_of Losses 1 (by_scenario_and_day calendar.now.of_case.case (loss_test
        calendar.now.of_case.case (planned calendar.now.of_case) loss))) }
{
    let count = loss_count(calendar.of_case.case());
    check_each(Condition::Losses, 1, count, |place| {
        is_covered(calendar, loss, place)
    })
}

/// Whether the calendar's loss is the worst of all: each is at most it, and one is as great.
pub(crate) fn check_loss(calendar: &CalendarAndFlows, loss: i128) -> Result<(), CheckFault>
    requires loss { IsWithin128 loss }
    ensures { result ≡ answer
        (places_of Losses 1 (by_scenario_and_day calendar.now.of_case.case (loss_test
        calendar.now.of_case.case (planned calendar.now.of_case) loss))
        ++ places_of WorstLoss 1 (reached_test
        calendar.now.of_case.case (planned calendar.now.of_case) loss ∷ [])) }
{
    check_covered(calendar, loss)?;
    let reached = is_reached(calendar, loss);
    judge_place(Condition::WorstLoss, 1, Some(reached))
}
