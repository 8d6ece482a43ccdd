// The certificate that records state for a case.
ghost use Rattle.std.specs.Prelude.{◌≡◌, [], IfOk, slice_set, if◌then◌else◌};
ghost use Rattle.std.specs.Option.{unwrap_or};
ghost use Rattle.std.specs.List.{find};
ghost use Rattle.core_cert.specs.Kinds.{is_kind};
ghost use Rattle.core_cert.specs.Faults.{place_in};
ghost use Rattle.core_cert.specs.Stated.{calendar_stated, cert_of, last_number, numbers_of, weights_stated};

use crate::fields::last_number;
use crate::kinds::{RecordKind, is_kind};
use crate::names::CaseNames;
use crate::steps::is_refusing;
use core_model::{Calendar, Cert, Numbers, Weights};
use core_rows::Fields;
use std::alloc::{AllocError, Global};

/// Puts a number at its place, where the list has that place.
fn put(numbers: &mut Numbers, place: u128, number: i128)
    ensures { numbers.new ≡ slice_set numbers.old place number }
{
    if place < numbers.len() as u128 {
        numbers.set(place as usize, number);
    }
}

/// Puts the number of a record at its place, where the record is of the kind.
fn put_of_kind(numbers: &mut Numbers, names: &CaseNames, kind: RecordKind, row: &Fields)
    ensures { numbers.new
        ≡ (if is_kind kind row.now then slice_set numbers.old (place_in names.now kind row.now)
        (last_number row.now) else numbers.old) }
{
    if is_kind(kind, row) {
        put(numbers, names.place(kind, row), last_number(row));
    }
}

/// The numbers of a kind by place, 0 where no record states one.
///
/// The records are taken from the last to the first, so the first record of a place is the one that counts.
fn numbers_of(
    alloc: Global,
    names: &CaseNames,
    rows: &[Fields],
    kind: RecordKind,
) -> Result<Numbers, AllocError>
    ensures { IfOk result (λ v. v ≡ numbers_of names.now rows.now kind) }
{
    let mut numbers = Numbers::zeros(alloc, names.places(kind))?;
    for i in (0..rows.len()).rev() {
        put_of_kind(&mut numbers, names, kind, &rows[i]);
    }
    Ok(numbers)
}

/// The number that ends the first record of a kind, 0 where there is none.
fn number_of(rows: &[Fields], kind: RecordKind) -> i128
    ensures { result ≡ last_number (unwrap_or (find (is_kind kind) rows.now) []) }
{
    for row in rows {
        if is_kind(kind, row) {
            return last_number(row);
        }
    }
    0
}

/// The calendar that records state.
fn state_calendar(alloc: Global, names: &CaseNames, rows: &[Fields]) -> Result<Calendar, AllocError>
    ensures { IfOk result (λ calendar. calendar ≡ calendar_stated names.now rows.now) }
{
    Ok(Calendar {
        den: number_of(rows, RecordKind::Closes),
        amounts: numbers_of(alloc, names, rows, RecordKind::Amount)?,
    })
}

/// The weights that records state.
fn state_weights(alloc: Global, names: &CaseNames, rows: &[Fields]) -> Result<Weights, AllocError>
    ensures { IfOk result (λ weights. weights ≡ weights_stated names.now rows.now) }
{
    Ok(Weights {
        den: number_of(rows, RecordKind::Weights),
        scenario: numbers_of(alloc, names, rows, RecordKind::Scenario)?,
        limit: numbers_of(alloc, names, rows, RecordKind::Limit)?,
        pool: numbers_of(alloc, names, rows, RecordKind::Pool)?,
        full: numbers_of(alloc, names, rows, RecordKind::Full)?,
    })
}

/// The certificate that records state.
pub(crate) fn state_cert(
    alloc: Global,
    names: &CaseNames,
    rows: &[Fields],
) -> Result<Cert, AllocError>
    ensures { IfOk result (λ cert. cert ≡ cert_of names.now rows.now) }
{
    let weights = state_weights(alloc, names, rows)?;
    if is_refusing(rows) {
        return Ok(Cert::Cannot { weights });
    }
    Ok(Cert::Closes {
        calendar: state_calendar(alloc, names, rows)?,
        loss: number_of(rows, RecordKind::Loss),
        weights,
    })
}
