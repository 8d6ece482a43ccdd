//! The case: instruments, limits, lines, pools and scenarios, as the records of a file state them.
#![tactic(auto)]

mod faults;
mod fields;
mod forms;
mod heading;
mod kinds;
mod laws;
mod prices;
mod read;
mod register;
mod shape;
mod state;

pub use core_book::{Case, Instr, Kind, Line, Member, Pool, Side, Tier};
pub use laws::stated_case_law;
pub use read::{CaseFault, read_case};
