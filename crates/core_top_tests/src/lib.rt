//! The tests of replays, of certificates and their check, of programmes and margins, and of the top call, a module for
//! each, by their public calls alone.
//!
//! A library with tests of its own would be proved twice, so they all stand here, over what the gate proves once.
#![tactic(auto)]

#[cfg(test)]
mod cert;
#[cfg(test)]
mod check;
#[cfg(test)]
mod faults;
#[cfg(test)]
mod margin;
#[cfg(test)]
mod programme;
#[cfg(test)]
mod replay;
#[cfg(test)]
mod report;
#[cfg(test)]
mod top;
