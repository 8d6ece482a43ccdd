//! The tests of the libraries from files and days to the flows of a case, a module for each, by their public calls
//! alone, and the books that tests of certificates share with them.
//!
//! A library with tests of its own would be proved twice, so they all stand here, over what the gate proves once.
#![tactic(auto)]

pub mod books;
#[cfg(test)]
mod case;
#[cfg(test)]
mod days;
#[cfg(test)]
mod demo;
#[cfg(test)]
mod flows;
#[cfg(test)]
mod io;
#[cfg(test)]
mod rows;
