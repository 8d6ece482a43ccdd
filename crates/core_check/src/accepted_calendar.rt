// A calendar that the check accepts.
ghost use Rattle.std.specs.Prelude.{◌≡◌, ◌≤ℤ◌, ◌<◌, true, pos, length};
ghost use Rattle.core_sums.specs.Sums.{total};
ghost use Rattle.core_book.specs.View.{counts};
ghost use Rattle.core_book.specs.WellFormed.{IsCase};
ghost use Rattle.core_model.specs.Bounds.{AreBounding};
ghost use Rattle.core_model.specs.Closing.{IsClosingDay, IsLeast, IsTierNumber, worst_loss};
ghost use Rattle.core_model.specs.Check.{pool_terms, tier_closings};
ghost use Rattle.core_model.specs.Fits.{CalendarFits, IsWithin128, WeightsFit};
ghost use Rattle.core_model.specs.OfCase.{planned};

use crate::closings::{pool_closed, tier_closed};
use core_book::Case;
use core_model::{Calendar, CaseCalendar, CaseWeights, ClosingCell, Weights};
use std::marker::Model;

/// A calendar that the check accepts, with its case, its worst loss and the weights that bound every loss.
#[derive(Drop)]
pub struct AcceptedCalendar<'a> {
    pub(crate) of_case: CaseCalendar<'a>,
    pub(crate) loss: i128,
    pub(crate) weights: CaseWeights<'a>,
}

impl<'a> Model for AcceptedCalendar<'a> {
    ghost use Rattle.std.specs.Prelude.{◌≡◌};
    ghost use Rattle.core_model.specs.declared.cert.Cert.TheVariants.{Closes};
    ghost use Rattle.core_check.specs.Accepted.{ClosesOfCase, IsAccepted};

    ghost Value = { ClosesOfCase };

    ghost view = { λ a. record { of_case = a.of_case; loss = a.loss; weights = a.weights.weights } };

    ghost invariant = { λ a. IsAccepted a.of_case.case (Closes a.of_case.calendar a.loss
        a.weights.weights) };
}

impl<'a> AcceptedCalendar<'a> {
    /// The calendar with its case. It is admissible and no admissible calendar has a lower worst loss.
    pub fn of_case(&self) -> &CaseCalendar<'a>
        ensures value { result.now ≡ self.now.of_case }
        ensures kept { IsCase self.now.of_case.case }
        ensures fits { CalendarFits self.now.of_case.case self.now.of_case.calendar }
        ensures least { IsLeast self.now.of_case.case (planned self.now.of_case) }
    {
        self.of_case.case().well_formed();
        &self.of_case
    }

    /// The case. It keeps the ranges and references of a well-formed one, and the calendar fits it.
    pub fn case(&self) -> &'a Case
        ensures value { result.now ≡ self.now.of_case.case }
        ensures kept { IsCase self.now.of_case.case }
        ensures fits { CalendarFits self.now.of_case.case self.now.of_case.calendar }
    {
        self.of_case.case()
    }

    /// The calendar.
    pub fn calendar(&self) -> &'a Calendar
        ensures value { result.now ≡ self.now.of_case.calendar }
        ensures fits { CalendarFits self.now.of_case.case self.now.of_case.calendar }
    {
        self.of_case.calendar()
    }

    /// The denominator of the amounts.
    pub fn den(&self) -> i128
        ensures value { result ≡ self.now.of_case.calendar.den }
        ensures positive { pos 1 ≤ℤ result }
    {
        self.of_case.calendar().den
    }

    /// The worst loss, as a numerator over the denominator of the amounts.
    pub fn loss(&self) -> i128
        ensures value { result ≡ self.now.loss }
        ensures kept { IsWithin128 result }
        ensures worst { result ≡ worst_loss self.now.of_case.case (planned self.now.of_case) }
    {
        self.loss
    }

    /// The weights that bound every loss from below by this one.
    pub fn weights(&self) -> &'a Weights
        ensures value { result.now ≡ self.now.weights }
        ensures fits { WeightsFit self.now.of_case.case self.now.weights }
        ensures bounding { AreBounding self.now.of_case.case self.now.weights }
    {
        self.weights.weights()
    }

    /// What is closed of an instrument on a day that is not its expiry in a tier, over its lines, as a numerator.
    pub fn tier_closed(&self, cell: ClosingCell) -> i128
        requires instrument { cell.row < length self.now.of_case.case.instruments }
        requires day { IsClosingDay self.now.of_case.case cell.day }
        requires tier { IsTierNumber self.now.of_case.case cell.tier }
        requires counts { counts self.now.of_case.case cell.row cell.day ≡ true }
        ensures value { result ≡ total (tier_closings self.now.of_case.case
            (planned self.now.of_case) cell.row cell.day cell.tier) }
        ensures kept { IsWithin128 result }
    {
        tier_closed(&self.of_case, cell).unwrap_or(0)
    }

    /// The weighted closings of a pool's members on a day, of those whose expiry it is not, as a numerator.
    pub fn pool_closed(&self, pool: usize, day: u8) -> i128
        requires pool { pool < length self.now.of_case.case.pools }
        requires day { IsClosingDay self.now.of_case.case day }
        ensures value { result ≡ total (pool_terms self.now.of_case.case
            (planned self.now.of_case) pool day) }
        ensures kept { IsWithin128 result }
    {
        pool_closed(&self.of_case, pool, day).unwrap_or(0)
    }
}
