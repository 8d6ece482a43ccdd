// The fault of a record of a list of edits, by the case and the records before it.
ghost use Rattle.std.specs.Prelude.{◌≡◌, ◌<◌, ◌^◌, Some, None, length, IfOk, IfErr, IfSome};
ghost use Rattle.core_book.specs.Edits.{IsEdit};
ghost use Rattle.core_edits.specs.Kinds.{kind_of};
ghost use Rattle.core_edits.specs.Stated.{edits_of, stated_by};
ghost use Rattle.core_edits.specs.Faults.{case_fault, fault_of, has_ended, has_instrument, has_line, is_edit, kind_step, later_fault, name_step, order_step, part_step, room_step, sign_step};

use crate::faults::RecordFault;
use crate::fields::{natural_in, number_in};
use crate::kinds::{RecordKind, is_kind, kind_of};
use crate::named::{instrument_named, line_named, pool_named, stated_by};
use crate::shape::shape_fault;
use core_book::{Case, Edit, Side};
use core_rows::{Fields, fault_unless};

/// How many edits a list may have.
const MOST_EDITS: usize = 1000;

/// Whether the last of some records is `end`.
pub(crate) fn has_ended(rows: &[Fields]) -> bool
    ensures { result ≡ has_ended rows.now }
{
    !rows.is_empty() && is_kind(RecordKind::End, &rows[rows.len() - 1])
}

/// The kind of a record, where so many came before: the first is `edits`, and each is of some kind.
fn known_kind(place: usize, row: &Fields) -> Result<RecordKind, RecordFault>
    ensures known { IfOk result (λ kind.
        (kind_step place row.now ≡ None) × (kind_of row.now ≡ Some kind)) }
    ensures fault { IfErr result (λ fault. kind_step place row.now ≡ Some fault) }
{
    if place == 0 {
        return if is_kind(RecordKind::Edits, row) {
            Ok(RecordKind::Edits)
        } else {
            Err(RecordFault::FirstNotEdits)
        };
    }
    match kind_of(row) {
        Some(kind) => Ok(kind),
        None => Err(RecordFault::UnknownKind),
    }
}

/// The fault of a later record that is `edits`.
fn order_fault(place: usize, kind: RecordKind) -> Option<RecordFault>
    ensures { result ≡ order_step place kind }
{
    fault_unless(
        place == 0 || kind != RecordKind::Edits,
        RecordFault::OutOfOrder,
    )
}

/// Whether the case has the instrument that a record names.
fn has_instrument(case: &Case, row: &Fields) -> bool
    ensures { result ≡ has_instrument case.now row.now }
{
    instrument_named(case, row) < case.instruments()
}

/// The fault of a record of this kind whose instrument or pool the case has not.
fn name_fault(case: &Case, kind: RecordKind, row: &Fields) -> Option<RecordFault>
    ensures { result ≡ name_step case.now kind row.now }
{
    let known = match kind {
        RecordKind::Limit | RecordKind::Position | RecordKind::Collateral => {
            has_instrument(case, row)
        }
        RecordKind::Cap => pool_named(case, row) < case.pools(),
        RecordKind::Edits | RecordKind::Cash | RecordKind::End => true,
    };
    fault_unless(known, RecordFault::NotInCase)
}

/// Whether the instrument that a record names has a line of a side.
fn has_line(case: &Case, side: Side, row: &Fields) -> bool
    ensures { result ≡ has_line case.now side row.now }
{
    line_named(case, side, row) < case.lines()
}

/// The fault of a record of this kind whose instrument has no such tier, or no line of the side.
fn part_fault(case: &Case, kind: RecordKind, row: &Fields) -> Option<RecordFault>
    requires { name_step case.now kind row.now ≡ None }
    ensures { result ≡ part_step case.now kind row.now }
{
    let known = match kind {
        RecordKind::Limit => {
            natural_in(row, 3) <= u64::from(case.tiers_of(instrument_named(case, row)))
        }
        RecordKind::Position => has_line(case, Side::Position, row),
        RecordKind::Collateral => has_line(case, Side::Collateral, row),
        _ => true,
    };
    fault_unless(known, RecordFault::NoSuchPart)
}

/// The fault of a position that would change its sign.
fn sign_fault(case: &Case, kind: RecordKind, row: &Fields) -> Option<RecordFault>
    requires { part_step case.now kind row.now ≡ None }
    ensures { result ≡ sign_step case.now kind row.now }
{
    match kind {
        RecordKind::Position => {
            let line = case.line(line_named(case, Side::Position, row));
            fault_unless(
                (number_in(row, 2) > 0) == (line.sign > 0),
                RecordFault::OtherSign,
            )
        }
        _ => None,
    }
}

/// Whether a kind is that of an edit.
fn is_edit(kind: RecordKind) -> bool
    ensures { result ≡ is_edit kind }
{
    kind != RecordKind::Edits && kind != RecordKind::End
}

/// The fault of an edit after as many as a list may have.
fn room_fault(count: usize, kind: RecordKind) -> Option<RecordFault>
    ensures { result ≡ room_step count kind }
{
    fault_unless(!is_edit(kind) || count < MOST_EDITS, RecordFault::TooMany)
}

/// The fault of a record of this kind by the case, where so many edits came before.
fn case_fault(case: &Case, count: usize, kind: RecordKind, row: &Fields) -> Option<RecordFault>
    ensures { result ≡ case_fault case.now count kind row.now }
{
    if let Some(fault) = name_fault(case, kind, row) {
        return Some(fault);
    }
    if let Some(fault) = part_fault(case, kind, row) {
        return Some(fault);
    }
    if let Some(fault) = sign_fault(case, kind, row) {
        return Some(fault);
    }
    room_fault(count, kind)
}

/// The fault of a record of this kind, where so many records and edits came before.
fn later_fault(
    case: &Case,
    place: usize,
    count: usize,
    kind: RecordKind,
    row: &Fields,
) -> Option<RecordFault>
    ensures { result ≡ later_fault case.now place count row.now (Some kind) }
{
    if let Some(fault) = order_fault(place, kind) {
        return Some(fault);
    }
    if let Some(fault) = shape_fault(case, row, kind) {
        return Some(fault);
    }
    case_fault(case, count, kind, row)
}

/// The kind of a record that is sound after others, which state so many edits.
pub(crate) fn sound_kind(
    case: &Case,
    earlier: &[Fields],
    count: usize,
    row: &Fields,
) -> Result<RecordKind, RecordFault>
    requires { count ≡ length (edits_of case.now earlier.now) }
    ensures sound { IfOk result (λ kind.
        (fault_of case.now earlier.now row.now ≡ None) × (kind_of row.now ≡ Some kind)) }
    ensures fault { IfErr result (λ fault. fault_of case.now earlier.now row.now ≡ Some fault) }
{
    if has_ended(earlier) {
        return Err(RecordFault::AfterEnd);
    }
    let kind = known_kind(earlier.len(), row)?;
    match later_fault(case, earlier.len(), count, kind, row) {
        Some(fault) => Err(fault),
        None => Ok(kind),
    }
}

/// The edit that a sound record states, none of `edits` and `end`.
pub(crate) fn sound_edit(
    case: &Case,
    earlier: &[Fields],
    count: usize,
    row: &Fields,
) -> Result<Option<Edit>, RecordFault>
    requires { count ≡ length (edits_of case.now earlier.now) }
    ensures sound { IfOk result (λ _. fault_of case.now earlier.now row.now ≡ None) }
    ensures stated { IfOk result (λ edit. stated_by case.now row.now (kind_of row.now) ≡ edit) }
    ensures known { IfOk result (λ edit. IfSome edit (IsEdit case.now)) }
    ensures fault { IfErr result (λ fault. fault_of case.now earlier.now row.now ≡ Some fault) }
{
    case.well_formed();
    let kind = sound_kind(case, earlier, count, row)?;
    Ok(stated_by(case, row, kind))
}
