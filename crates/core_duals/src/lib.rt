//! The numbers that stand in a dictionary, each list over its least common denominator: the values
//! of the columns' variables, the costs of the last of these and of the slacks, and a row's
//! coefficients of the slacks. Variables 1 to n are a programme's columns, and n + i is the slack of
//! its i-th row.
#![tactic(auto)]

ghost use Rattle.core_duals.specs.Laws.{ListsAreOverCommon};

mod lists;
mod scaled;

pub use core_wide::Numbers;
pub use lists::{duals, farkas, primal};
pub use scaled::{DualFault, Scaled};

/// The numerators of a list over its least common denominator are its fractions.
pub fn list_law()
    ensures { ListsAreOverCommon }
{}
