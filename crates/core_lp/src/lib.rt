//! The linear programme of a case, with names for its columns and rows: its solutions are the case's calendars.
#![tactic(auto)]

ghost use Rattle.core_lp.specs.Laws.{CalendarsAreProgramme, NumeratorsAreCalendars, AsNumberedIsLeast};
ghost use Rattle.core_lp.specs.Laws.{BestIsValid, NoSolutionIsValid};

mod built;
mod certificate;
mod column_numbers;
mod columns;
mod names;
mod numbers;
mod orders;
mod places;
mod row_numbers;
mod rows;
mod weights;

pub use built::{Built, build};
pub use certificate::{Parts, cert_of};
use core_dict::weight_laws;
use core_duals::list_law;
pub use names::{Col, RowName};
pub use orders::{ranks_of, variables};

/// The programme of a case is its calendars, with a number for the loss that is enough for them; and all numerators of
/// its columns are those of a calendar.
pub fn programme_laws()
    ensures programme { CalendarsAreProgramme }
    ensures numerators { NumeratorsAreCalendars }
{}

/// Under the order of ranks in which the variables are numbered the choice is that of the least variable.
pub fn rank_law()
    ensures { AsNumberedIsLeast }
{}

/// The certificate of a last dictionary of a case's programme, whose numbers stand over their least common denominators,
/// shows what it states, and holds in every condition of the check: of a dictionary without a negative cost or value the
/// least calendar with its loss and weights, and of a row that cannot hold weights that refuse (Farkas 1902).
pub fn certificate_law()
    ensures best { BestIsValid }
    ensures no_solution { NoSolutionIsValid }
{
    list_law();
    weight_laws();
}
