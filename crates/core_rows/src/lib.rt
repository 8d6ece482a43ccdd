//! The records of a text, the grammars of their fields, and the rows that are printed.
#![tactic(auto)]

mod day;
mod fields;
mod first_fault;
mod name;
mod number;
mod push;
mod put;
mod reading;
mod shape;

pub use day::day_text;
pub use fields::{Fields, same};
pub use first_fault::missing_after;
pub use name::{Name, name_of, names_equal_by_bytes};
pub use number::{whole, wide};
pub use push::{law_of_date_texts, law_of_number_texts};
pub use put::{law_of_put_rows, put_row};
pub use reading::{MOST_BYTES, records};
pub use shape::{Shape, fault_unless, fields_fault};
