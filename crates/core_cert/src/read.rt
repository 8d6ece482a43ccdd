// Reading a certificate.
ghost use Rattle.std.specs.Prelude.{◌≡◌, ◌≤◌, ◌<◌, ◌^◌, None, Ok, length, IfOk, IfErr};
ghost use Rattle.core_model.specs.Fits.{Fits, IsPlainlyRefusing};
ghost use Rattle.core_rows.specs.Fields.{most_bytes};
ghost use Rattle.core_rows.specs.FirstFault.{missing_after};
ghost use Rattle.core_cert.specs.Codes.{code_of};
ghost use Rattle.core_cert.specs.Faults.{first_fault, has_ended};
ghost use Rattle.core_cert.specs.Refusals.{IsFault, RefusesBytes, RefusesRecords};
ghost use Rattle.core_cert.specs.Stated.{cert_of_bytes, cert_of_records};
ghost use Rattle.core_cert.specs.declared.faults.RecordFault.TheVariants.{EndMissing, FirstNotCert};
ghost use Rattle.core_cert.specs.declared.read.CertFault.TheVariants.{Bad};

use crate::faults::RecordFault;
use crate::kinds::RecordKind;
use crate::lists::NameLists;
use crate::names::CaseNames;
use crate::state::state_cert;
use crate::steps::{ends_with, record_fault};
use core_book::Case;
use core_model::Cert;
use core_rows::{Fields, missing_after, records};
use std::alloc::{AllocError, Global};

/// Why no certificate was read.
#[derive(Clone, Copy, Debug, PartialEq, Eq)]
pub enum CertFault {
    /// The record of that number, counted from 1, has a fault of that code.
    Bad { row: u32, code: u8 },
    /// Memory ran out.
    NoMemory,
}

impl From<AllocError> for CertFault {
    ghost use Rattle.std.specs.Prelude.{◌≡◌};
    ghost use Rattle.core_cert.specs.declared.read.CertFault.TheVariants.{NoMemory};

    ghost from_gives = { λ _ r. r ≡ NoMemory };

    fn from(_: AllocError) -> CertFault {
        CertFault::NoMemory
    }
}

/// The answer to a record of that number with this fault.
fn bad(row: usize, fault: RecordFault) -> CertFault
    requires { row < 2 ^ 32 }
    ensures { result ≡ Bad row (code_of fault) }
{
    CertFault::Bad {
        row: row as u32,
        code: fault.code(),
    }
}

/// The answer where the records have no end.
fn ended(rows: &[Fields]) -> Result<(), CertFault>
    requires { length rows.now < 2 ^ 31 }
    ensures ended { IfOk result (λ _.
        missing_after (length rows.now) (has_ended rows.now) FirstNotCert EndMissing ≡ None) }
    ensures fault { IfErr result (λ fault.
        IsFault fault (missing_after (length rows.now) (has_ended rows.now) FirstNotCert EndMissing)) }
{
    let has_ended = ends_with(rows, RecordKind::End);
    match missing_after(
        rows.len(),
        has_ended,
        RecordFault::FirstNotCert,
        RecordFault::EndMissing,
    ) {
        Some((row, fault)) => Err(bad(row, fault)),
        None => Ok(()),
    }
}

/// The answer to records of which one is faulty, or that have no end.
fn sound(names: &CaseNames, rows: &[Fields]) -> Result<(), CertFault>
    requires { length rows.now < 2 ^ 31 }
    ensures sound { IfOk result (λ _. first_fault names.now rows.now ≡ None) }
    ensures fault { IfErr result (λ fault. IsFault fault (first_fault names.now rows.now)) }
{
    for i in 0..rows.len() {
        if let Some(fault) = record_fault(names, &rows[..i], &rows[i]) {
            return Err(bad(i + 1, fault));
        }
    }
    ended(rows)
}

/// The certificate that sound records state, for a case whose names are numbered.
fn cert_among(alloc: Global, names: &CaseNames, rows: &[Fields]) -> Result<Cert, CertFault>
    requires { length rows.now < 2 ^ 31 }
    ensures accepted { IfOk result (λ cert. cert_of_records names.now rows.now ≡ Ok cert) }
    ensures refused { IfErr result (λ fault. RefusesRecords names.now fault rows.now) }
{
    sound(names, rows)?;
    Ok(state_cert(alloc, names, rows)?)
}

/// The certificate that records state for a case.
fn cert_for(alloc: Global, case: &Case, rows: &[Fields]) -> Result<Cert, CertFault>
    requires { length rows.now < 2 ^ 31 }
    ensures accepted { IfOk result (λ cert. cert_of_records case.now rows.now ≡ Ok cert) }
    ensures refused { IfErr result (λ fault. RefusesRecords case.now fault rows.now) }
{
    let lists = NameLists::of_case(alloc, case)?;
    let names = CaseNames::make(alloc, case, &lists)?;
    cert_among(alloc, &names, rows)
}

/// Reads the certificate of a case from the bytes of a file: of version 2 where an instrument of the case has more than
/// one tier, else of version 1. What it answers fits the case, and can be written back: one
/// that refuses has no scenario weight. The signs, the denominators and what the numbers show are not judged here.
///
/// The records are judged in order, each by the case and the sound ones before it. Where one is faulty the answer is the
/// number of the first such record and the code of its first fault; a text that does not end with `end` has its fault
/// after its last record. Reading takes time linear in the text, up to logarithms.
pub fn read_cert(alloc: Global, case: &Case, bytes: &[u8]) -> Result<Cert, CertFault>
    requires { length bytes.now ≤ most_bytes }
    ensures accepted { IfOk result (λ cert. cert_of_bytes case.now bytes.now ≡ Ok cert) }
    ensures fits { IfOk result (λ cert. Fits case.now cert) }
    ensures plain { IfOk result IsPlainlyRefusing }
    ensures refused { IfErr result (λ fault. RefusesBytes case.now fault bytes.now) }
{
    let rows = records(alloc, bytes)?;
    cert_for(alloc, case, &rows)
}
