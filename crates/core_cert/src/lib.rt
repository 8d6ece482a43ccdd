//! The text of a certificate.
#![tactic(auto)]

mod faults;
mod fields;
mod forms;
mod kinds;
mod laws;
mod lists;
mod names;
mod read;
mod record;
mod shape;
mod state;
mod steps;
mod write;

pub use laws::cert_text_law;
pub use read::{CertFault, read_cert};
pub use write::write_cert;
