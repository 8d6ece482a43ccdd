//! The report of a checked certificate: of a calendar what it closes, what that uses of limits and pools, the ledger of
//! its worst scenario and its greatest losses; of weights that refuse every calendar by how much the book is short.
#![tactic(auto)]

mod accepted;
mod cells;
mod closes;
mod dates;
mod fault;
mod laws;
mod ledger;
mod numbers;
mod row;
mod sums;
mod text;
mod top;
mod weights;

pub use fault::ReportFault;
pub use laws::report_law;
pub use text::report;
pub use top::Loss;
