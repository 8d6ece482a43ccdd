//! House days, open days and pay days.
//!
//! A house day is a date on which the house works: Monday to Friday, and no holiday of the house. Day 0 is the
//! default date, whatever weekday it is, and each later day is counted from there. A market is open on a house day
//! that is none of its holidays, and what happens on an open day is paid some open days later.
#![tactic(auto)]

mod house;
mod laws;
mod pay;

pub use house::{house_days, open_flags};
pub use laws::{house_day_law, pay_day_law};
pub use pay::pay_day;
