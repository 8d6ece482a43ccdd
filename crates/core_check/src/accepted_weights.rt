// Weights that the check accepts as refusing every calendar.
ghost use Rattle.std.specs.Prelude.{◌≡◌, ◌≤ℤ◌, pos};
ghost use Rattle.core_sums.specs.Sums.{total};
ghost use Rattle.core_book.specs.WellFormed.{IsCase};
ghost use Rattle.core_model.specs.Bounds.{AreRefusing};
ghost use Rattle.core_model.specs.Closing.{CannotClose};
ghost use Rattle.core_model.specs.Check.{bound_terms};
ghost use Rattle.core_model.specs.Fits.{IsWithin128, WeightsFit};

use crate::bounds::bound;
use crate::with_flows::WeightsAndFlows;
use core_book::Case;
use core_flows::Flows;
use core_model::CaseWeights;
use std::marker::Model;

/// Weights that the check accepts as refusing every calendar, with their case and its flows.
#[derive(Drop)]
pub struct AcceptedWeights<'a> {
    pub(crate) of_case: CaseWeights<'a>,
    pub(crate) flows: &'a Flows<'a>,
}

impl<'a> Model for AcceptedWeights<'a> {
    ghost use Rattle.std.specs.Prelude.{◌≡◌};
    ghost use Rattle.core_model.specs.declared.cert.Cert.TheVariants.{Cannot};
    ghost use Rattle.core_model.specs.OfCase.{WeightsOfCase};
    ghost use Rattle.core_check.specs.Accepted.{IsAccepted};

    ghost Value = { WeightsOfCase };

    ghost view = { λ a. a.of_case };

    ghost invariant = { λ a. (a.flows.now ≡ a.of_case.case)
        × IsAccepted a.of_case.case (Cannot a.of_case.weights) };
}

impl<'a> AcceptedWeights<'a> {
    /// The weights with their case. No calendar of the case is admissible.
    pub fn of_case(&self) -> &CaseWeights<'a>
        ensures value { result.now ≡ self.now }
        ensures kept { IsCase self.now.case }
        ensures fits { WeightsFit self.now.case self.now.weights }
        ensures refusing { AreRefusing self.now.case self.now.weights }
        ensures none { CannotClose self.now.case }
    {
        self.of_case.case().well_formed();
        &self.of_case
    }

    /// The case. It keeps the ranges and references of a well-formed one, and the weights fit it.
    pub fn case(&self) -> &'a Case
        ensures value { result.now ≡ self.now.case }
        ensures kept { IsCase self.now.case }
        ensures fits { WeightsFit self.now.case self.now.weights }
    {
        self.of_case.case()
    }

    /// The denominator of the weights.
    pub fn den(&self) -> i128
        ensures value { result ≡ self.now.weights.den }
        ensures positive { pos 1 ≤ℤ result }
    {
        self.of_case.weights().den
    }

    /// By how much the book is short: the bound of the weights, as a numerator over their denominator.
    pub fn short(&self) -> i128
        ensures value { result ≡ total (bound_terms self.now.case self.now.weights) }
        ensures kept { IsWithin128 result }
    {
        bound(&WeightsAndFlows::of(self.flows, self.of_case.weights())).unwrap_or(0)
    }
}
