// The condition on what the weights charge the closings.
ghost use Rattle.std.specs.Prelude.{◌≡◌, ◌<◌, pos, true, length};
ghost use Rattle.core_book.specs.View.{is_allowed};
ghost use Rattle.core_model.specs.Closing.{IsClosingDay, IsTierNumber, line_count};
ghost use Rattle.core_model.specs.Layout.{amount_count, day_at_place, row_at_place, tier_at_place};
ghost use Rattle.core_model.specs.Check.{by_closing, charge_terms, charge_test, limit_terms, places_of};
ghost use Rattle.core_model.specs.declared.condition.Condition.TheVariants.{Charges};
ghost use Rattle.core_check.specs.Answers.{answer};
ghost use Rattle.core_wide.specs.Steps.{summed};
ghost use Rattle.core_check.specs.Steps.{judged, member_charge, unit_charge};

use crate::fault::CheckFault;
use crate::numbers::number;
use crate::places::{check_each, closing_count};
use crate::with_flows::WeightsAndFlows;
use core_model::{CaseWeights, ClosingCell, Condition, closing_cell, scenario_cell};
use core_wide::{add_each, minus_product, plus, plus_product};

/// The sum and what a member's pool charges, if the member is one of an instrument.
fn plus_member_charge(weights: &CaseWeights, i: usize, u: u8, sum: i128, m: usize) -> Option<i128>
    requires day { IsClosingDay weights.now.case u }
    requires member { m < length weights.now.case.members }
    ensures { result ≡ summed sum
        (member_charge weights.now.case weights.now.weights i u m)
        (member_charge weights.now.case weights.now.weights i u m) }
{
    let case = weights.case();
    let member = case.member(m);
    if member.instrument != i {
        return Some(sum);
    }
    let weight = weights.pool_on(member.pool, u);
    plus_product(sum, weight, i128::from(member.weight))
}

/// The sum less what the weight of a scenario and day takes off. A weight of 0 costs only a look.
fn minus_unit(weights: &WeightsAndFlows, cell: ClosingCell, sum: i128, place: usize) -> Option<i128>
    requires line { cell.row < line_count weights.now.of_case.case }
    requires closed { is_allowed weights.now.of_case.case cell.row cell.day cell.tier ≡ true }
    requires place { place < length weights.now.of_case.weights.scenario }
    ensures { result ≡ summed sum
        (unit_charge weights.now.of_case.case weights.now.of_case.weights
        cell.row cell.day cell.tier place)
        (unit_charge weights.now.of_case.case weights.now.of_case.weights
        cell.row cell.day cell.tier place) }
{
    let weight = number(&weights.of_case.weights().scenario, place);
    if weight == 0 {
        return plus(sum, 0);
    }
    let case = weights.of_case.case();
    let on = scenario_cell(case, case.scenarios(), place);
    let flows = weights.flows;
    let paid = flows.unit(cell.row, on.row, cell.day, cell.tier, on.day);
    minus_product(sum, weight, paid)
}

/// What the weights of limit and pools charge one unit of an instrument that is closed on a day in a tier, or None
/// where a number leaves. On its expiry they charge nothing.
fn limit_charge(weights: &CaseWeights, i: usize, u: u8, j: u8) -> Option<i128>
    requires instrument { i < length weights.now.case.instruments }
    requires day { IsClosingDay weights.now.case u }
    requires tier { IsTierNumber weights.now.case j }
    ensures { result ≡ summed (pos 0)
        (limit_terms weights.now.case weights.now.weights i u j)
        (limit_terms weights.now.case weights.now.weights i u j) }
{
    let case = weights.case();
    if !case.counts(i, u) {
        return Some(0);
    }
    let limit = plus(0, weights.limit_on(i, u, j))?;
    add_each(limit, case.members(), |sum, m| {
        plus_member_charge(weights, i, u, sum, m)
    })
}

/// What the weights charge one unit of a line that is closed on a day in a tier, where it is allowed, or None where a
/// number leaves.
fn charge(weights: &WeightsAndFlows, cell: ClosingCell) -> Option<i128>
    requires line { cell.row < line_count weights.now.of_case.case }
    requires day { IsClosingDay weights.now.of_case.case cell.day }
    requires tier { IsTierNumber weights.now.of_case.case cell.tier }
    requires closed { is_allowed weights.now.of_case.case cell.row cell.day cell.tier ≡ true }
    ensures { result ≡ summed (pos 0)
        (charge_terms weights.now.of_case.case weights.now.of_case.weights
        cell.row cell.day cell.tier)
        (charge_terms weights.now.of_case.case weights.now.of_case.weights
        cell.row cell.day cell.tier) }
{
    let case = weights.of_case.case();
    let i = case.line(cell.row).instrument;
    let limit = limit_charge(&weights.of_case, i, cell.day, cell.tier)?;
    add_each(
        limit,
        weights.of_case.weights().scenario.len(),
        |sum, place| { minus_unit(weights, cell, sum, place) },
    )
}

/// Whether a closing is charged at least the full weight of its line, where it is allowed, or None where a number
/// leaves.
fn is_charged(weights: &WeightsAndFlows, cell: ClosingCell) -> Option<bool>
    requires line { cell.row < line_count weights.now.of_case.case }
    requires day { IsClosingDay weights.now.of_case.case cell.day }
    requires tier { IsTierNumber weights.now.of_case.case cell.tier }
    ensures { result ≡ judged (charge_test weights.now.of_case.case weights.now.of_case.weights
        cell.row cell.day cell.tier) }
{
    let case = weights.of_case.case();
    if !case.allowed(cell.row, cell.day, cell.tier) {
        return Some(true);
    }
    let charge = charge(weights, cell)?;
    Some(weights.of_case.full_of(cell.row) <= charge)
}

/// The same at a place.
fn is_charged_at(weights: &WeightsAndFlows, place: usize) -> Option<bool>
    requires place { place < amount_count weights.now.of_case.case }
    ensures { result ≡ judged (charge_test weights.now.of_case.case weights.now.of_case.weights
        (row_at_place weights.now.of_case.case place) (day_at_place weights.now.of_case.case place)
        (tier_at_place weights.now.of_case.case place)) }
{
    let case = weights.of_case.case();
    is_charged(weights, closing_cell(case, case.lines(), place))
}

/// Whether each allowed closing is charged at least the full weight of its line.
pub(crate) fn check_charges(weights: &WeightsAndFlows) -> Result<(), CheckFault>
    ensures { result ≡ answer
        (places_of Charges 1 (by_closing weights.now.of_case.case
        (charge_test weights.now.of_case.case weights.now.of_case.weights))) }
{
    let count = closing_count(weights.of_case.case());
    check_each(Condition::Charges, 1, count, |place| {
        is_charged_at(weights, place)
    })
}
