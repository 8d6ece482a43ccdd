//! Records with fractions, as they are printed: a fraction is two fields, its numerator and its denominator in lowest
//! terms, and a record of nought may be left out.
#![tactic(auto)]

mod print;
mod row;

pub use print::{put, put_end, put_ratio, put_some, put_words};
pub use row::Row;
