//! The tests of dictionaries, rules and runs, and of the numbers that these leave, a module for each, by their public
//! calls alone, and the programme and the store that other
//! tests share with them.
//!
//! A library with tests of its own would be proved twice, so they all stand here, over what the gate proves once.
#![tactic(auto)]

#[cfg(test)]
mod dict;
#[cfg(test)]
mod duals;
#[cfg(test)]
mod exact;
pub mod programmes;
pub mod refuse;
#[cfg(test)]
mod rules;
#[cfg(test)]
mod runs;
#[cfg(test)]
mod same;
#[cfg(test)]
mod sparse;
