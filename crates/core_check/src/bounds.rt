// The condition on the bound that the weights give.
ghost use Rattle.std.specs.Prelude.{◌≡◌, ◌*ℤ◌, neg_ℤ, ◌<◌, ◌≤ℤ◌, pos, length};
ghost use Rattle.core_sums.specs.Places.{at};
ghost use Rattle.core_book.specs.View.{limit, line, pool};
ghost use Rattle.core_model.specs.Closing.{fixed, line_count};
ghost use Rattle.core_model.specs.Layout.{day_at_place, house_day_at_place, pool_at_place, row_at_place, tier_at_place};
ghost use Rattle.core_model.specs.Fits.{IsWithin128};
ghost use Rattle.core_model.specs.Check.{bound_terms, meets_test, refuses_test};
ghost use Rattle.core_wide.specs.Steps.{summed, with_product};
ghost use Rattle.core_check.specs.Steps.{judged};

use crate::numbers::number;
use crate::ratios::is_same_ratio;
use crate::with_flows::WeightsAndFlows;
use core_model::{CaseWeights, closing_cell, pool_cell, scenario_cell};
use core_wide::{add_each, minus_product, plus, plus_product};

/// The sum less the weight at a place times the fixed cash up to its day. A weight of 0 costs only a look.
fn minus_fixed(weights: &WeightsAndFlows, sum: i128, place: usize) -> Option<i128>
    requires place { place < length weights.now.of_case.weights.scenario }
    ensures { result ≡ with_product sum
        (neg_ℤ (at weights.now.of_case.weights.scenario place
        *ℤ fixed weights.now.of_case.case (house_day_at_place weights.now.of_case.case place))) }
{
    let weight = number(&weights.of_case.weights().scenario, place);
    if weight == 0 {
        return plus(sum, 0);
    }
    let case = weights.of_case.case();
    let on = scenario_cell(case, case.scenarios(), place);
    minus_product(sum, weight, weights.flows.fixed(on.day))
}

/// The sum and the full weight of a line times its amount.
fn plus_full(weights: &CaseWeights, sum: i128, l: usize) -> Option<i128>
    requires line { l < line_count weights.now.case }
    ensures { result ≡ with_product sum
        (at weights.now.weights.full l *ℤ (line weights.now.case l).amount) }
{
    let case = weights.case();
    plus_product(
        sum,
        number(&weights.weights().full, l),
        i128::from(case.line(l).amount),
    )
}

/// The sum less the weight of a limit times the limit. A weight of 0 costs only a look.
fn minus_limit(weights: &CaseWeights, sum: i128, place: usize) -> Option<i128>
    requires place { place < length weights.now.weights.limit }
    ensures { result ≡ with_product sum (neg_ℤ
        (limit weights.now.case (row_at_place weights.now.case place)
        (day_at_place weights.now.case place) (tier_at_place weights.now.case place)
        *ℤ at weights.now.weights.limit place)) }
{
    let weight = number(&weights.weights().limit, place);
    if weight == 0 {
        return plus(sum, 0);
    }
    let case = weights.case();
    let cell = closing_cell(case, case.instruments(), place);
    let limit = case.limit(cell.row, cell.day, cell.tier);
    minus_product(sum, i128::from(limit), weight)
}

/// The sum less the weight of a cap times the cap. A weight of 0 costs only a look.
fn minus_cap(weights: &CaseWeights, sum: i128, place: usize) -> Option<i128>
    requires place { place < length weights.now.weights.pool }
    ensures { result ≡ with_product sum
        (neg_ℤ ((pool weights.now.case (pool_at_place weights.now.case place)).cap
        *ℤ at weights.now.weights.pool place)) }
{
    let weight = number(&weights.weights().pool, place);
    if weight == 0 {
        return plus(sum, 0);
    }
    let case = weights.case();
    let cell = pool_cell(case, case.pools(), place);
    minus_product(sum, i128::from(case.pool(cell.row).cap), weight)
}

/// The bound of the weights, as a numerator over their denominator, or None where a number leaves.
pub(crate) fn bound(weights: &WeightsAndFlows) -> Option<i128>
    ensures { result ≡ summed (pos 0)
        (bound_terms weights.now.of_case.case weights.now.of_case.weights)
        (bound_terms weights.now.of_case.case weights.now.of_case.weights) }
{
    let of_case = &weights.of_case;
    let case = of_case.case();
    let listed = of_case.weights();
    let fixed = add_each(0, listed.scenario.len(), |sum, place| {
        minus_fixed(weights, sum, place)
    })?;
    let full = add_each(fixed, case.lines(), |sum, l| plus_full(of_case, sum, l))?;
    let limits = add_each(full, listed.limit.len(), |sum, place| {
        minus_limit(of_case, sum, place)
    })?;
    add_each(limits, listed.pool.len(), |sum, place| {
        minus_cap(of_case, sum, place)
    })
}

/// Whether the bound is the loss of a calendar, both over their denominators, or None where a number leaves.
pub(crate) fn meets(weights: &WeightsAndFlows, den: i128, loss: i128) -> Option<bool>
    requires loss { IsWithin128 loss }
    requires den { pos 1 ≤ℤ den }
    requires weights_den { pos 1 ≤ℤ weights.now.of_case.weights.den }
    ensures { result ≡ judged (meets_test
        weights.now.of_case.case weights.now.of_case.weights den loss) }
{
    let bound = bound(weights)?;
    Some(is_same_ratio(bound, weights.of_case.weights().den, loss, den))
}

/// Whether the bound is above 0, or None where a number leaves.
pub(crate) fn refuses(weights: &WeightsAndFlows) -> Option<bool>
    ensures { result ≡ judged (refuses_test weights.now.of_case.case weights.now.of_case.weights) }
{
    let bound = bound(weights)?;
    Some(bound > 0)
}
