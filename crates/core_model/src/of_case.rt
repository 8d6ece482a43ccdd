// A calendar and weights, each with the case that it is of.
ghost use Rattle.std.specs.Prelude.{◌≡◌, ◌<◌, ◌≤◌, length};
ghost use Rattle.core_book.specs.WellFormed.{IsCase};
ghost use Rattle.core_model.specs.Closing.{IsClosingDay, IsTierNumber, line_count};
ghost use Rattle.core_model.specs.Fits.{CalendarFits, WeightsFit};
ghost use Rattle.core_model.specs.Layout.{full_weight, limit_weight, plan_of, pool_weight, scenario_weight};

use crate::cert::{Calendar, Weights};
use core_book::Case;
use std::marker::Model;

/// A calendar with the case that it is of: its list has the case's length. Contracts see both.
#[derive(Drop)]
pub struct CaseCalendar<'a> {
    case: &'a Case,
    calendar: &'a Calendar,
}

impl<'a> Model for CaseCalendar<'a> {
    ghost use Rattle.core_model.specs.Fits.{CalendarFits};
    ghost use Rattle.core_model.specs.OfCase.{CalendarOfCase};

    ghost Value = { CalendarOfCase };

    ghost view = { λ a. record { case = a.case.now; calendar = a.calendar.now } };

    ghost invariant = { λ a. CalendarFits a.case.now a.calendar.now };
}

impl<'a> CaseCalendar<'a> {
    /// A calendar with its case.
    pub fn of(case: &'a Case, calendar: &'a Calendar) -> CaseCalendar<'a>
        requires { CalendarFits case.now calendar.now }
        ensures { result ≡ record { case = case.now; calendar = calendar.now } }
    {
        CaseCalendar { case, calendar }
    }

    /// The case. It keeps the ranges and references of a well-formed one, and the calendar fits it.
    pub fn case(&self) -> &'a Case
        ensures value { result.now ≡ self.now.case }
        ensures kept { IsCase self.now.case }
        ensures fits { CalendarFits self.now.case self.now.calendar }
    {
        self.case.well_formed();
        self.case
    }

    /// The calendar.
    pub fn calendar(&self) -> &'a Calendar
        ensures value { result.now ≡ self.now.calendar }
        ensures fits { CalendarFits self.now.case self.now.calendar }
    {
        self.calendar
    }

    /// The amount of a line, from 0, on a closing day in a tier, both from 1, as a numerator.
    pub fn amount(&self, line: usize, day: u8, tier: u8) -> i128
        requires line { line < line_count self.now.case }
        requires day { IsClosingDay self.now.case day }
        requires tier { IsTierNumber self.now.case tier }
        ensures { result ≡ (plan_of self.now.case self.now.calendar).amount line day tier }
    {
        self.calendar.amount(self.case, line, day, tier)
    }
}

/// Weights with the case that they are of: each of their lists has the case's length. Contracts see both.
#[derive(Drop)]
pub struct CaseWeights<'a> {
    case: &'a Case,
    weights: &'a Weights,
}

impl<'a> Model for CaseWeights<'a> {
    ghost use Rattle.core_model.specs.Fits.{WeightsFit};
    ghost use Rattle.core_model.specs.OfCase.{WeightsOfCase};

    ghost Value = { WeightsOfCase };

    ghost view = { λ a. record { case = a.case.now; weights = a.weights.now } };

    ghost invariant = { λ a. WeightsFit a.case.now a.weights.now };
}

impl<'a> CaseWeights<'a> {
    /// Weights with their case.
    pub fn of(case: &'a Case, weights: &'a Weights) -> CaseWeights<'a>
        requires { WeightsFit case.now weights.now }
        ensures { result ≡ record { case = case.now; weights = weights.now } }
    {
        CaseWeights { case, weights }
    }

    /// The case. It keeps the ranges and references of a well-formed one, and the weights fit it.
    pub fn case(&self) -> &'a Case
        ensures value { result.now ≡ self.now.case }
        ensures kept { IsCase self.now.case }
        ensures fits { WeightsFit self.now.case self.now.weights }
    {
        self.case.well_formed();
        self.case
    }

    /// The weights.
    pub fn weights(&self) -> &'a Weights
        ensures value { result.now ≡ self.now.weights }
        ensures fits { WeightsFit self.now.case self.now.weights }
    {
        self.weights
    }

    /// The weight of the limit of an instrument, from 0, on a closing day in a tier, both from 1, as a numerator.
    pub fn limit_on(&self, instrument: usize, day: u8, tier: u8) -> i128
        requires instrument { instrument < length self.now.case.instruments }
        requires day { IsClosingDay self.now.case day }
        requires tier { IsTierNumber self.now.case tier }
        ensures { result ≡ limit_weight self.now.case self.now.weights instrument day tier }
    {
        self.weights.limit_on(self.case, instrument, day, tier)
    }

    /// The weight of the cap of a pool, from 0, on a closing day, from 1, as a numerator.
    pub fn pool_on(&self, pool: usize, day: u8) -> i128
        requires pool { pool < length self.now.case.pools }
        requires day { IsClosingDay self.now.case day }
        ensures { result ≡ pool_weight self.now.case self.now.weights pool day }
    {
        self.weights.pool_on(self.case, pool, day)
    }

    /// The weight of a scenario and a house day, both from 0, as a numerator.
    pub fn scenario_on(&self, scenario: usize, day: u8) -> i128
        requires scenario { scenario < length self.now.case.scenarios }
        requires day { day ≤ self.now.case.last }
        ensures { result ≡ scenario_weight self.now.case self.now.weights scenario day }
    {
        self.weights.scenario_on(self.case, scenario, day)
    }

    /// The weight of the full closing of a line, from 0, as a numerator.
    pub fn full_of(&self, line: usize) -> i128
        requires { line < line_count self.now.case }
        ensures { result ≡ full_weight self.now.weights line }
    {
        self.weights.full_of(self.case, line)
    }
}
