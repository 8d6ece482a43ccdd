// Reading a case.
ghost use Rattle.std.specs.Prelude.{◌≡◌, ◌≤◌, ◌<◌, ◌^◌, true, None, Some, Ok, length, IsTrue, IfOk, IfErr};
ghost use Rattle.core_rows.specs.Fields.{most_bytes, records};
ghost use Rattle.core_rows.specs.FirstFault.{missing_end};
ghost use Rattle.core_book.specs.WellFormed.{IsCase};
ghost use Rattle.core_case.specs.Codes.{code_of};
ghost use Rattle.core_case.specs.Kinds.{is_kind, kind_of};
ghost use Rattle.core_case.specs.Faults.{fault_of, first_fault, heading_of, judge, kind_step, shape_fault};
ghost use Rattle.core_case.specs.Refusals.{IsFault, RefusesBytes};
ghost use Rattle.core_case.specs.declared.kinds.RecordKind.TheVariants.{Path};
ghost use Rattle.core_case.specs.declared.read.CaseFault.TheVariants.{Bad};
ghost use Rattle.core_case.specs.Stated.{case_of_bytes};

use crate::faults::RecordFault;
use crate::kinds::{RecordKind, is_kind, kind_of};
use crate::prices::sound_prices;
use crate::register::Register;
use crate::shape::own_fault;
use crate::state::state_book;
use core_book::Case;
use core_rows::{Fields, missing_after, records};
use std::alloc::{AllocError, Global};

/// Why no case was read.
#[derive(Clone, Copy, Debug, PartialEq, Eq)]
pub enum CaseFault {
    /// The record of that number, counted from 1, has a fault of that code.
    Bad { row: u32, code: u8 },
    /// Memory ran out.
    NoMemory,
}

impl From<AllocError> for CaseFault {
    ghost use Rattle.std.specs.Prelude.{◌≡◌};
    ghost use Rattle.core_case.specs.declared.read.CaseFault.TheVariants.{NoMemory};

    ghost from_gives = { λ _ r. r ≡ NoMemory };

    fn from(_: AllocError) -> CaseFault {
        CaseFault::NoMemory
    }
}

/// The kind of a record, where so many came before: the first is `core`, and each is of some kind of the version.
fn known_kind(place: usize, version: usize, row: &Fields) -> Result<RecordKind, RecordFault>
    ensures known { IfOk result (λ kind.
        (kind_step place version row.now ≡ None) × (kind_of version row.now ≡ Some kind)) }
    ensures fault { IfErr result (λ fault. kind_step place version row.now ≡ Some fault) }
{
    if place == 0 {
        return if is_kind(RecordKind::Core, row) {
            Ok(RecordKind::Core)
        } else {
            Err(RecordFault::FirstNotCore)
        };
    }
    match kind_of(version, row) {
        Some(kind) => Ok(kind),
        None => Err(RecordFault::UnknownKind),
    }
}

/// The kind of a record that is sound among those before it. `priced` says that the fields of a path were found to be
/// sound.
fn sound_kind(register: &Register, row: &Fields, priced: bool) -> Result<RecordKind, RecordFault>
    requires { IsTrue priced → shape_fault (heading_of register.now) row.now Path ≡ None }
    ensures sound { IfOk result (λ kind.
        (fault_of register.now row.now ≡ None) × (is_kind kind row.now ≡ true)) }
    ensures fault { IfErr result (λ fault. fault_of register.now row.now ≡ Some fault) }
{
    if register.has_ended() {
        return Err(RecordFault::AfterEnd);
    }
    let place = register.len();
    let heading = register.heading();
    let kind = known_kind(place, heading.version, row)?;
    if let Some(fault) = own_fault(place, heading, row, kind, priced) {
        return Err(fault);
    }
    match register.book_fault(row, kind) {
        Some(fault) => Err(fault),
        None => Ok(kind),
    }
}

/// The answer to a record of that number with this fault.
fn bad(row: usize, fault: RecordFault) -> CaseFault
    requires { row < 2 ^ 32 }
    ensures { result ≡ Bad row (code_of fault) }
{
    CaseFault::Bad {
        row: row as u32,
        code: fault.code(),
    }
}

/// The records, each of which is sound among those before it.
fn read_rows(alloc: Global, rows: &[Fields]) -> Result<Register<'_>, CaseFault>
    requires { length rows.now < 2 ^ 31 }
    ensures sound { IfOk result (λ register.
        (register ≡ rows.now) × (first_fault rows.now ≡ missing_end judge rows.now)) }
    ensures fault { IfErr result (λ fault. IsFault fault (first_fault rows.now)) }
{
    let mut register = Register::make(alloc);
    for row in rows {
        let prices = sound_prices(alloc, register.heading(), row)?;
        match sound_kind(&register, row, prices.is_some()) {
            Ok(kind) => register = register.with(kind, row, prices)?,
            Err(fault) => return Err(bad(register.len() + 1, fault)),
        }
    }
    Ok(register)
}

/// The answer where the records have no end.
fn ended(register: &Register) -> Result<(), CaseFault>
    requires { length register.now < 2 ^ 31 }
    ensures ended { IfOk result (λ _. missing_end judge register.now ≡ None) }
    ensures fault { IfErr result (λ fault. IsFault fault (missing_end judge register.now)) }
{
    match missing_after(
        register.len(),
        register.has_ended(),
        RecordFault::FirstNotCore,
        RecordFault::EndMissing,
    ) {
        Some((row, fault)) => Err(bad(row, fault)),
        None => Ok(()),
    }
}

/// Reads a case from the bytes of a file.
///
/// The records are judged in order, each by the sound ones before it. Where one is faulty the answer is the number of
/// the first such record and the code of its first fault; a file that does not end with `end` has its fault after its
/// last record. Reading takes time linear in the file, up to logarithms.
pub fn read_case(alloc: Global, bytes: &[u8]) -> Result<Case, CaseFault>
    requires { length bytes.now ≤ most_bytes }
    ensures accepted { IfOk result (λ c. case_of_bytes bytes.now ≡ Ok c) }
    ensures kept { IfOk result IsCase }
    ensures refused { IfErr result (λ fault. RefusesBytes fault bytes.now) }
{
    let rows = records(alloc, bytes)?;
    let register = read_rows(alloc, &rows)?;
    ended(&register)?;
    let book = state_book(alloc, register)?;
    Ok(Case::of_book(alloc, book)?)
}
