//! Dictionaries that keep only the entries that are not 0.
#![tactic(auto)]

mod fault;
mod fill;
mod find;
mod keep;
mod merge;
mod own;
mod row;
mod shift;
mod sparse;
mod steps;
mod widen;

pub use row::Item;
pub use sparse::Sparse;
