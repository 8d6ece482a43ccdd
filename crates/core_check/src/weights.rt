// The conditions on the signs of the weights and on the sum of the scenario weights.
ghost use Rattle.std.specs.Prelude.{◌≡◌, ◌+◌, ◌^◌, ◌<◌, pos, int_le, map, length};
ghost use Rattle.core_sums.specs.Places.{at, below};
ghost use Rattle.core_model.specs.Closing.{line_count};
ghost use Rattle.core_model.specs.Check.{full_sign, places_of, plain, sum_test, weight_tests};
ghost use Rattle.core_model.specs.declared.condition.Condition.TheVariants.{WeightSigns};
ghost use Rattle.core_check.specs.Answers.{answer};
ghost use Rattle.core_check.specs.Steps.{judged};

use crate::fault::CheckFault;
use crate::numbers::number;
use crate::places::check_each;
use core_book::Side;
use core_model::{CaseWeights, Condition, Numbers};
use core_wide::{add_each, plus};

/// Whether each of some weights is at least 0, where the signs before are `before` in number.
fn check_not_negative(before: u32, weights: &Numbers) -> Result<(), CheckFault>
    requires { 1 + before + length weights.now < 2 ^ 32 }
    ensures { result ≡ answer
        (places_of WeightSigns (1 + before)
        (map (λ p. plain (int_le (pos 0) (at weights.now p))) (below (length weights.now)))) }
{
    check_each(Condition::WeightSigns, 1 + before, weights.len(), |place| {
        Some(number(weights, place) >= 0)
    })
}

/// Whether the full weight of a line is at most 0, where the line is collateral.
fn has_full_sign(weights: &CaseWeights, l: usize) -> bool
    requires line { l < line_count weights.now.case }
    ensures { result ≡ (full_sign weights.now.case weights.now.weights l).holds }
{
    let case = weights.case();
    match case.line(l).side {
        Side::Position => true,
        Side::Collateral => weights.full_of(l) <= 0,
    }
}

/// Whether each weight has its sign.
pub(crate) fn check_weight_signs(weights: &CaseWeights) -> Result<(), CheckFault>
    ensures { result ≡ answer
        (places_of WeightSigns 1 (weight_tests weights.now.case weights.now.weights)) }
{
    let case = weights.case();
    let listed = weights.weights();
    let scenarios = listed.scenario.len() as u32;
    let limits = listed.limit.len() as u32;
    let pools = listed.pool.len() as u32;
    check_not_negative(0, &listed.scenario)?;
    check_not_negative(scenarios, &listed.limit)?;
    check_not_negative(scenarios + limits, &listed.pool)?;
    check_each(
        Condition::WeightSigns,
        1 + scenarios + limits + pools,
        case.lines(),
        |l| { Some(has_full_sign(weights, l)) },
    )
}

/// Whether the scenario weights have a sum, or None where a sum leaves.
pub(crate) fn have_sum(weights: &CaseWeights, sum: i128) -> Option<bool>
    ensures { result ≡ judged (sum_test weights.now.case weights.now.weights sum) }
{
    let scenario = &weights.weights().scenario;
    let total = add_each(0, scenario.len(), |total, place| {
        plus(total, number(scenario, place))
    })?;
    Some(total == sum)
}
