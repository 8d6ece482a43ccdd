//! The check of a certificate, and what a certificate and its weights show of a case, whoever made them and however
//! wide their numbers are.
//!
//! Weights are dual values of the close-out as a linear programme. That their bound is below every loss is weak
//! duality, and that refusing weights leave no calendar is one direction of Farkas' lemma (Farkas 1902).
#![tactic(auto)]

mod accepted;
mod accepted_calendar;
mod accepted_weights;
mod bounds;
mod cash;
mod charges;
mod closings;
mod conditions;
mod fault;
mod form;
mod numbers;
mod places;
mod ratios;
mod weights;
mod with_flows;

ghost use Rattle.std.specs.Prelude.{◌≡◌, OnOk, IfErr};
ghost use Rattle.core_model.specs.Fits.{Fits};
ghost use Rattle.core_model.specs.Shows.{Shows};
ghost use Rattle.core_model.specs.Check.{verdict, Passed};
ghost use Rattle.core_check.specs.Answers.{Refuses};
ghost use Rattle.core_check.specs.Laws.{MetBoundShowsLeast, RefusingShowsNone, ShowingIsValid, ValidShows};

pub use accepted::{Accepted, accept};
pub use accepted_calendar::AcceptedCalendar;
pub use accepted_weights::AcceptedWeights;
use core_book::Case;
use core_model::Cert;
pub use fault::CheckFault;
pub use form::Form;
use std::alloc::Global;

/// Judges a certificate of a case: Ok says that it shows what it states.
///
/// The twelve conditions are gone through in order, and the places of each in order. A place passes where no product and
/// no sum of it, each from 0 on in the order of its terms, is above 2^127 - 1 in absolute value, and where it holds. The
/// answer is Ok exactly where all places pass; otherwise it names the first that does not, `TooWide` where one of its
/// numbers is too large and `No` where it does not hold.
///
/// For a calendar the conditions are: (1) both denominators are at least 1; (2) no amount is below 0, and (3) none is
/// there on a day and in a tier that are not allowed; (4) each position is closed in full, and collateral at most in
/// full; (5) each limit and (6) each pool's cap is kept, for which an instrument's closings on its expiry do not count;
/// (7) no loss of any scenario and day is above the stated one, and (8) one
/// reaches it. For weights: (9) they have their signs; (10) the scenario weights sum to their denominator, or to 0 where
/// they refuse; (11) each allowed closing is charged at least the full weight of its line; (12) the bound is the loss,
/// or above 0 where they refuse.
///
/// Memory is taken for the flows of the case alone, before the first condition.
pub fn check(alloc: Global, case: &Case, cert: &Cert) -> Result<(), CheckFault>
    requires { Fits case.now cert.now }
    ensures passed { OnOk result (verdict case.now cert.now ≡ Passed) }
    ensures refused { IfErr result (Refuses (verdict case.now cert.now)) }
    ensures shows { OnOk result (Shows case.now cert.now) }
{
    accept(alloc, case, cert)?;
    Ok(())
}

/// The law of bounding weights: an admissible calendar whose worst loss meets their bound is least.
pub fn weights_bound()
    ensures { MetBoundShowsLeast }
{}

/// The law of refusing weights: they show that no calendar is admissible.
pub fn weights_refuse()
    ensures { RefusingShowsNone }
{}

/// The law of valid certificates: a certificate that holds at every place of the check is true of its case.
pub fn valid_law()
    ensures { ValidShows }
{}

/// The law of showing certificates: a certificate that is true of its case holds at every place of the check. So none
/// of its places fails, and besides want of memory only a number that leaves 128 bits can keep `check` from accepting it.
pub fn showing_law()
    ensures { ShowingIsValid }
{}
