//! The ledger of a calendar, day by day, and its worst loss, by a replay that adds up what is paid.
#![tactic(auto)]

mod fault;
mod flows;
mod ledger;
mod lines;
mod losses;
mod payable;

pub use fault::ReplayFault;
pub use ledger::{Ledger, replay};
pub use losses::{WorstLoss, worst};
