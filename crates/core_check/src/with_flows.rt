// A calendar and weights of a case, each with the flows of that case.
ghost use Rattle.std.specs.Prelude.{◌≡◌};
ghost use Rattle.core_model.specs.Fits.{CalendarFits, WeightsFit};

use core_flows::Flows;
use core_model::{Calendar, CaseCalendar, CaseWeights, Weights};

/// A calendar with the flows of its case.
#[derive(Drop)]
pub(crate) struct CalendarAndFlows<'a> {
    pub(crate) of_case: CaseCalendar<'a>,
    pub(crate) flows: &'a Flows<'a>,
    ghost same_case: { flows.now ≡ of_case.case },
}

impl<'a> CalendarAndFlows<'a> {
    /// A calendar of the case of the flows.
    pub(crate) fn of(flows: &'a Flows<'a>, calendar: &'a Calendar) -> CalendarAndFlows<'a>
        requires { CalendarFits flows.now calendar.now }
        ensures { result.of_case ≡ record { case = flows.now; calendar = calendar.now } }
    {
        let of_case = CaseCalendar::of(flows.case(), calendar);
        CalendarAndFlows { of_case, flows }
    }
}

/// Weights with the flows of their case.
#[derive(Drop)]
pub(crate) struct WeightsAndFlows<'a> {
    pub(crate) of_case: CaseWeights<'a>,
    pub(crate) flows: &'a Flows<'a>,
    ghost same_case: { flows.now ≡ of_case.case },
}

impl<'a> WeightsAndFlows<'a> {
    /// Weights of the case of the flows.
    pub(crate) fn of(flows: &'a Flows<'a>, weights: &'a Weights) -> WeightsAndFlows<'a>
        requires { WeightsFit flows.now weights.now }
        ensures { result.of_case ≡ record { case = flows.now; weights = weights.now } }
    {
        let of_case = CaseWeights::of(flows.case(), weights);
        WeightsAndFlows { of_case, flows }
    }
}
