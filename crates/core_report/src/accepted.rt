// What a report stands on: a calendar or weights that the check accepts, with the case and its dates.
ghost use Rattle.std.specs.Prelude.{◌≡◌, ◌≤ℤ◌, pos};
ghost use Rattle.core_book.specs.WellFormed.{IsCase};
ghost use Rattle.core_model.specs.Bounds.{AreRefusing};
ghost use Rattle.core_model.specs.Fits.{CalendarFits, WeightsFit};
ghost use Rattle.core_model.specs.OfCase.{planned};
ghost use Rattle.core_report.specs.Report.{AreDates};
ghost use Rattle.core_report.specs.Stays.{BoundStays, ClosingsStay};

use crate::dates::Dates;
use core_book::Case;
use core_model::{CaseCalendar, CaseWeights};

/// A calendar whose sums of closings stay within 128 bits, with the dates of its case's house days.
#[derive(Drop)]
pub(crate) struct AcceptedCalendar<'a> {
    pub(crate) calendar: CaseCalendar<'a>,
    pub(crate) dates: &'a Dates,
    ghost are_dates: { AreDates calendar.case dates.now },
    ghost stays: { ClosingsStay calendar.case (planned calendar) },
}

impl<'a> AcceptedCalendar<'a> {
    /// The case. It keeps the ranges and references of a well-formed one, and calendar and dates are of it.
    pub(crate) fn case(&self) -> &'a Case
        ensures value { result.now ≡ self.now.calendar.case }
        ensures kept { IsCase self.now.calendar.case }
        ensures fits { CalendarFits self.now.calendar.case self.now.calendar.calendar }
        ensures dates { AreDates self.now.calendar.case self.now.dates.now }
    {
        self.calendar.case()
    }

    /// The denominator of the amounts.
    pub(crate) fn den(&self) -> i128
        ensures value { result ≡ self.now.calendar.calendar.den }
        ensures positive { pos 1 ≤ℤ result }
    {
        self.calendar.calendar().den
    }
}

/// Weights that refuse every calendar and whose bound stays within 128 bits, with the dates of their case's house days.
#[derive(Drop)]
pub(crate) struct AcceptedWeights<'a> {
    pub(crate) weights: CaseWeights<'a>,
    pub(crate) dates: &'a Dates,
    ghost are_dates: { AreDates weights.case dates.now },
    ghost refusing: { AreRefusing weights.case weights.weights },
    ghost stays: { BoundStays weights.case weights.weights },
}

impl<'a> AcceptedWeights<'a> {
    /// The case. It keeps the ranges and references of a well-formed one, and weights and dates are of it.
    pub(crate) fn case(&self) -> &'a Case
        ensures value { result.now ≡ self.now.weights.case }
        ensures kept { IsCase self.now.weights.case }
        ensures fits { WeightsFit self.now.weights.case self.now.weights.weights }
        ensures dates { AreDates self.now.weights.case self.now.dates.now }
    {
        self.weights.case()
    }

    /// The denominator of the weights.
    pub(crate) fn den(&self) -> i128
        ensures value { result ≡ self.now.weights.weights.den }
        ensures positive { pos 1 ≤ℤ result }
    {
        self.weights.weights().den
    }
}
