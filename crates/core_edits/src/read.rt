// Reading the edits of a case.
ghost use Rattle.std.specs.Prelude.{◌≡◌, ◌≤◌, ◌<◌, ◌^◌, ◌++◌, None, Ok, length, option_to_list, IfOk, IfErr};
ghost use Rattle.std.specs.List.{All};
ghost use Rattle.core_case.specs.declared.read.CaseFault.TheVariants.{Bad};
ghost use Rattle.core_book.specs.Edits.{IsEdit};
ghost use Rattle.core_edits.specs.Codes.{code_of};
ghost use Rattle.core_rows.specs.Fields.{most_bytes};
ghost use Rattle.core_rows.specs.FirstFault.{missing_after};
ghost use Rattle.core_edits.specs.Faults.{first_fault, has_ended};
ghost use Rattle.core_edits.specs.declared.faults.RecordFault.TheVariants.{EndMissing, FirstNotEdits};
ghost use Rattle.core_edits.specs.Stated.{edits_of};
ghost use Rattle.core_edits.specs.Refusals.{IsFault, RefusesBytes, edits_of_bytes};

use crate::edits::Edits;
use crate::faults::RecordFault;
use crate::steps::{has_ended, sound_edit};
use core_book::{Case, Edit};
use core_case::CaseFault;
use core_rows::{Fields, missing_after, records};
use std::alloc::{AllocError, Global};

/// The answer to a record of that number with this fault.
fn bad(row: usize, fault: RecordFault) -> CaseFault
    requires { row < 2 ^ 32 }
    ensures { result ≡ Bad row (code_of fault) }
{
    CaseFault::Bad {
        row: row as u32,
        code: fault.code(),
    }
}

/// The answer where the records have no end.
fn ended(rows: &[Fields]) -> Result<(), CaseFault>
    requires { length rows.now < 2 ^ 31 }
    ensures ended { IfOk result (λ _.
        missing_after (length rows.now) (has_ended rows.now) FirstNotEdits EndMissing ≡ None) }
    ensures fault { IfErr result (λ fault.
        IsFault fault (missing_after (length rows.now) (has_ended rows.now) FirstNotEdits EndMissing)) }
{
    let missing = missing_after(
        rows.len(),
        has_ended(rows),
        RecordFault::FirstNotEdits,
        RecordFault::EndMissing,
    );
    match missing {
        Some((row, fault)) => Err(bad(row, fault)),
        None => Ok(()),
    }
}

/// The edits with one more, where there is one.
fn with(edits: Vec<Edit>, edit: Option<Edit>) -> Result<Vec<Edit>, AllocError>
    ensures { IfOk result (λ v. v.items ≡ edits.items ++ option_to_list edit) }
{
    let mut edits = edits;
    if let Some(edit) = edit {
        edits.push(edit)?;
    }
    Ok(edits)
}

/// The edits that records state, each of which is sound after those before it.
fn edits_among(alloc: Global, case: &Case, rows: &[Fields]) -> Result<Vec<Edit>, CaseFault>
    requires { length rows.now < 2 ^ 31 }
    ensures sound { IfOk result (λ _. first_fault case.now rows.now ≡ None) }
    ensures stated { IfOk result (λ v. v.items ≡ edits_of case.now rows.now) }
    ensures known { IfOk result (λ v. All (IsEdit case.now) v.items) }
    ensures fault { IfErr result (λ fault. IsFault fault (first_fault case.now rows.now)) }
{
    let mut edits = Vec::new(alloc);
    for i in 0..rows.len() {
        match sound_edit(case, &rows[..i], edits.len(), &rows[i]) {
            Ok(edit) => edits = with(edits, edit)?,
            Err(fault) => return Err(bad(i + 1, fault)),
        }
    }
    ended(rows)?;
    Ok(edits)
}

/// Reads the edits of a case from the bytes of a file, in the order of their records. Each may be made on the case, and
/// after the others.
///
/// The records are judged in order, each by the case and the sound ones before it. Where one is faulty the answer is the
/// number of the first such record and the code of its first fault; a file that does not end with `end` has its fault
/// after its last record.
pub fn read_edits(alloc: Global, case: &Case, bytes: &[u8]) -> Result<Edits, CaseFault>
    requires { length bytes.now ≤ most_bytes }
    ensures accepted { IfOk result (λ edits. edits_of_bytes case.now bytes.now ≡ Ok edits) }
    ensures known { IfOk result (All (IsEdit case.now)) }
    ensures refused { IfErr result (λ fault. RefusesBytes case.now fault bytes.now) }
{
    let rows = records(alloc, bytes)?;
    let kept = edits_among(alloc, case, &rows)?;
    Ok(Edits { kept })
}
