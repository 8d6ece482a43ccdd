// The faults of a record of a certificate, by the case and the records before it.
ghost use Rattle.std.specs.Prelude.{◌≡◌, ◌≤◌, ◌<◌, [], Some, None, IfOk, IfErr, IfSome, IfNone, length};
ghost use Rattle.core_cert.specs.Kinds.{is_kind, kind_of};
ghost use Rattle.core_rows.specs.Names.{field};
ghost use Rattle.core_cert.specs.Faults.{case_fault, fault_of, is_follower, is_refusing, key_step, kind_step, last_record, later_fault, margin_step, number_in, order_step};

use crate::faults::RecordFault;
use crate::fields::number_in;
use crate::kinds::{RecordKind, followers, is_kind, kind_of};
use crate::names::CaseNames;
use crate::shape::fields_fault;
use core_rows::{Fields, fault_unless};

/// The last of some records, none where there is none.
fn last_of(earlier: &[Fields]) -> Option<&Fields>
    ensures last { IfSome result (λ row. row.now ≡ last_record earlier.now) }
    ensures some { IfSome result (λ _. 1 ≤ length earlier.now) }
    ensures none { IfNone result (earlier.now ≡ []) }
{
    if earlier.is_empty() {
        return None;
    }
    Some(&earlier[earlier.len() - 1])
}

/// Whether the last of some records is of a kind.
pub(crate) fn ends_with(earlier: &[Fields], kind: RecordKind) -> bool
    ensures { result ≡ is_kind kind (last_record earlier.now) }
{
    match last_of(earlier) {
        Some(last) => is_kind(kind, last),
        None => false,
    }
}

/// Whether the certificate refuses, as its second record says.
pub(crate) fn is_refusing(rows: &[Fields]) -> bool
    ensures { result ≡ is_refusing rows.now }
{
    rows.len() > 1 && is_kind(RecordKind::Cannot, &rows[1])
}

/// The kind of a record, where so many came before: the first is `cert`, and each is of some kind.
fn known_kind(place: usize, row: &Fields) -> Result<RecordKind, RecordFault>
    ensures known { IfOk result (λ kind.
        (kind_step place row.now ≡ None) × (kind_of row.now ≡ Some kind)) }
    ensures fault { IfErr result (λ fault. kind_step place row.now ≡ Some fault) }
{
    if place == 0 {
        return if is_kind(RecordKind::Cert, row) {
            Ok(RecordKind::Cert)
        } else {
            Err(RecordFault::FirstNotCert)
        };
    }
    match kind_of(row) {
        Some(kind) => Ok(kind),
        None => Err(RecordFault::UnknownKind),
    }
}

/// Whether a record may stand after one of this kind.
fn is_follower(refusing: bool, kind: RecordKind, row: &Fields) -> bool
    ensures { result ≡ is_follower refusing (Some kind) row.now }
{
    followers(refusing, kind)
        .iter()
        .any(|follower| is_kind(*follower, row))
}

/// The fault of a record that may not stand after the one before it.
fn order_fault(earlier: &[Fields], row: &Fields) -> Option<RecordFault>
    ensures { result ≡ order_step earlier.now row.now }
{
    let last = last_of(earlier)?;
    match kind_of(last) {
        Some(kind) => fault_unless(
            is_follower(is_refusing(earlier), kind, row),
            RecordFault::OutOfOrder,
        ),
        None => Some(RecordFault::OutOfOrder),
    }
}

/// The fault of a record whose key is not above that of the record before, where that is of the same kind.
fn key_fault(
    names: &CaseNames,
    earlier: &[Fields],
    row: &Fields,
    kind: RecordKind,
) -> Option<RecordFault>
    ensures { result ≡ key_step names.now earlier.now kind row.now }
{
    match last_of(earlier) {
        Some(last) => fault_unless(
            !is_kind(kind, last) || names.place(kind, last) < names.place(kind, row),
            RecordFault::NotRising,
        ),
        None => None,
    }
}

/// The number that the last of some records states, 0 where there is none.
fn last_loss(earlier: &[Fields]) -> i128
    ensures { result ≡ number_in (field (last_record earlier.now) 1) }
{
    match last_of(earlier) {
        Some(last) => number_in(last.word(1)),
        None => 0,
    }
}

/// The fault of a margin that is not the loss before it, floored at nought.
fn margin_fault(earlier: &[Fields], row: &Fields, kind: RecordKind) -> Option<RecordFault>
    ensures { result ≡ margin_step earlier.now kind row.now }
{
    match kind {
        RecordKind::Margin => fault_unless(
            number_in(row.word(1)) == last_loss(earlier).max(0),
            RecordFault::NotTheMargin,
        ),
        _ => None,
    }
}

/// The fault of a record of this kind by the case and the record before it.
fn case_fault(
    names: &CaseNames,
    earlier: &[Fields],
    row: &Fields,
    kind: RecordKind,
) -> Option<RecordFault>
    ensures { result ≡ case_fault names.now earlier.now kind row.now }
{
    if let Some(fault) = names.name_fault(kind, row) {
        return Some(fault);
    }
    if let Some(fault) = names.line_fault(kind, row) {
        return Some(fault);
    }
    if let Some(fault) = key_fault(names, earlier, row, kind) {
        return Some(fault);
    }
    margin_fault(earlier, row, kind)
}

/// The fault of a record of this kind.
fn later_fault(
    names: &CaseNames,
    earlier: &[Fields],
    row: &Fields,
    kind: RecordKind,
) -> Option<RecordFault>
    ensures { result ≡ later_fault names.now earlier.now row.now (Some kind) }
{
    if let Some(fault) = order_fault(earlier, row) {
        return Some(fault);
    }
    if let Some(fault) = fields_fault(names.case(), row, kind) {
        return Some(fault);
    }
    case_fault(names, earlier, row, kind)
}

/// The fault of a record that stands after others, none of a sound one.
pub(crate) fn record_fault(
    names: &CaseNames,
    earlier: &[Fields],
    row: &Fields,
) -> Option<RecordFault>
    ensures { result ≡ fault_of names.now earlier.now row.now }
{
    if ends_with(earlier, RecordKind::End) {
        return Some(RecordFault::AfterEnd);
    }
    match known_kind(earlier.len(), row) {
        Ok(kind) => later_fault(names, earlier, row, kind),
        Err(fault) => Some(fault),
    }
}
