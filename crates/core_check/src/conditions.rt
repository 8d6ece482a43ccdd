// The conditions of a certificate, one after the other.
ghost use Rattle.std.specs.Prelude.{◌≡◌, ◌++◌, ◌∷◌, []};
ghost use Rattle.core_model.specs.OfCase.{planned};
ghost use Rattle.core_model.specs.Check.{by_closing, calendar_places, charge_test, places, places_of, sum_test, weight_tests};
ghost use Rattle.core_model.specs.Fits.{Fits, IsWithin128};
ghost use Rattle.core_model.specs.declared.cert.Cert.TheVariants.{Cannot, Closes};
ghost use Rattle.core_model.specs.declared.condition.Condition.TheVariants.{Charges, WeightSigns, WeightSum};
ghost use Rattle.core_check.specs.Answers.{answer};

use crate::bounds::{meets, refuses};
use crate::cash::check_loss;
use crate::charges::check_charges;
use crate::closings::{check_allowed, check_caps, check_full, check_limits, check_signs};
use crate::fault::CheckFault;
use crate::places::judge_place;
use crate::weights::{check_weight_signs, have_sum};
use crate::with_flows::{CalendarAndFlows, WeightsAndFlows};
use core_flows::Flows;
use core_model::{Cert, Condition};

/// The conditions on a calendar and its loss, 2 to 8.
fn check_calendar(calendar: &CalendarAndFlows, loss: i128) -> Result<(), CheckFault>
    requires loss { IsWithin128 loss }
    ensures { result ≡ answer (calendar_places
        calendar.now.of_case.case (planned calendar.now.of_case) loss) }
{
    check_signs(&calendar.of_case)?;
    check_allowed(&calendar.of_case)?;
    check_full(&calendar.of_case)?;
    check_limits(&calendar.of_case)?;
    check_caps(&calendar.of_case)?;
    check_loss(calendar, loss)
}

/// The conditions on weights but for their bound, 9 to 11, where the scenario weights are to have a sum.
fn check_weights(weights: &WeightsAndFlows, sum: i128) -> Result<(), CheckFault>
    ensures { result ≡ answer
        (places_of WeightSigns 1
        (weight_tests weights.now.of_case.case weights.now.of_case.weights)
        ++ places_of WeightSum 1
        (sum_test weights.now.of_case.case weights.now.of_case.weights sum ∷ [])
        ++ places_of Charges 1 (by_closing weights.now.of_case.case
        (charge_test weights.now.of_case.case weights.now.of_case.weights))) }
{
    check_weight_signs(&weights.of_case)?;
    judge_place(Condition::WeightSum, 1, have_sum(&weights.of_case, sum))?;
    check_charges(weights)
}

/// The conditions of a calendar, its loss and its weights.
fn check_closes(
    calendar: &CalendarAndFlows,
    loss: i128,
    weights: &WeightsAndFlows,
) -> Result<(), CheckFault>
    requires loss { IsWithin128 loss }
    requires same_case { weights.now.of_case.case ≡ calendar.now.of_case.case }
    ensures { result ≡ answer (places calendar.now.of_case.case
        (Closes calendar.now.of_case.calendar loss weights.now.of_case.weights)) }
{
    let den = calendar.of_case.calendar().den;
    let weights_den = weights.of_case.weights().den;
    if den < 1 {
        return Err(CheckFault::No {
            condition: Condition::Denominators.number(),
            place: 1,
        });
    }
    if weights_den < 1 {
        return Err(CheckFault::No {
            condition: Condition::Denominators.number(),
            place: 2,
        });
    }
    check_calendar(calendar, loss)?;
    check_weights(weights, weights_den)?;
    judge_place(Condition::Bound, 1, meets(weights, den, loss))
}

/// The conditions of weights that refuse every calendar.
fn check_cannot(weights: &WeightsAndFlows) -> Result<(), CheckFault>
    ensures { result ≡ answer (places weights.now.of_case.case
        (Cannot weights.now.of_case.weights)) }
{
    let den = weights.of_case.weights().den;
    if den < 1 {
        return Err(CheckFault::No {
            condition: Condition::Denominators.number(),
            place: 2,
        });
    }
    check_weights(weights, 0)?;
    judge_place(Condition::Bound, 1, refuses(weights))
}

/// The conditions of a certificate of the case of the flows.
pub(crate) fn check_cert(flows: &Flows, cert: &Cert) -> Result<(), CheckFault>
    requires fits { Fits flows.now cert.now }
    ensures { result ≡ answer (places flows.now cert.now) }
{
    match cert {
        Cert::Closes {
            calendar,
            loss,
            weights,
        } => {
            let calendar = CalendarAndFlows::of(flows, calendar);
            check_closes(&calendar, *loss, &WeightsAndFlows::of(flows, weights))
        }
        Cert::Cannot { weights } => check_cannot(&WeightsAndFlows::of(flows, weights)),
    }
}
