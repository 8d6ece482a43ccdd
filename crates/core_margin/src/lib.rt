//! The margin of a case: the certificate that the last dictionary of the run of its programme gives.
//!
//! The run is made at 64 bits as far as they hold its numbers, and then at 128. What a case comes to under a rule and
//! with a budget of pivots is one thing, and the answer is that thing, unless memory is refused.
#![tactic(auto)]

ghost use Rattle.core_margin.specs.Laws.{SomeMargin, OneMargin, MarginIsSame, HouseOrderIsLeast};
ghost use Rattle.core_margin.specs.Laws.{StartStands, RunStands, RunReaches, CertIsValid, MarginIsValid};

mod fault;
mod last;
mod orders;
mod over;

use core_dict::start_laws;
use core_lp::{certificate_law, rank_law};
use core_run::{run_laws, width_laws};
pub use fault::MarginFault;
pub use last::{Solved, last_cert};
pub use orders::{Order, margin_by};
pub use over::{margin, margin_over, solve};

/// The run from a dictionary, under a preference and with a budget of pivots, comes to exactly one thing; so does a
/// case, by the run from its start.
pub fn outcome_law()
    ensures some { SomeMargin }
    ensures one { OneMargin }
{
    width_laws();
}

/// What a case comes to depends on what its preference says of the programme's variables alone. So a house's order of
/// the kinds that is the order of the variables comes to what the rule of the least variable does.
pub fn order_laws()
    ensures same { MarginIsSame }
    ensures least { HouseOrderIsLeast }
{
    run_laws();
    start_laws();
    rank_law();
}

/// A run may begin at the start of a case's programme. Each dictionary of a run is one of the programme, no cost of it
/// is negative, and the run may go on from it.
pub fn run_reaches()
    ensures start { StartStands }
    ensures stands { RunStands }
    ensures reached { RunReaches }
{
    run_laws();
    start_laws();
}

/// The certificate of a dictionary at which a run of a case's programme ends, wherever the run began, shows what it
/// states and holds at every place of the check.
pub fn cert_law()
    ensures { CertIsValid }
{
    certificate_law();
}

/// The certificate that a case comes to shows what it states and holds at every place of the check.
pub fn valid_margins()
    ensures { MarginIsValid }
{
    run_reaches();
    cert_law();
}
