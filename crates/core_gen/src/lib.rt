//! Demo cases.
#![tactic(auto)]

mod demo;
mod record;

pub use demo::{demo_case, demo_case_law};
