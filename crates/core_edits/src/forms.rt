// What the fields of a record are to be, and the faults of a field.
ghost use Rattle.std.specs.Prelude.{◌≡◌, ◌<◌, length, get_or, is_some};
ghost use Rattle.core_rows.specs.Fields.{whole};
ghost use Rattle.core_rows.specs.Steps.{fault_unless};
ghost use Rattle.core_edits.specs.Kinds.{forms};
ghost use Rattle.core_case.specs.Faults.{is_between};
ghost use Rattle.core_edits.specs.Faults.{form_fault, is_size, range_fault};
ghost use Rattle.core_edits.specs.declared.faults.RecordFault.TheVariants.{NotANumber};
ghost use Rattle.core_edits.specs.declared.forms.Form.TheVariants.{Number, Version};

use crate::faults::RecordFault;
use crate::kinds::RecordKind;
use core_book::Case;
use core_rows::{fault_unless, name_of, same, whole};

/// The tiers of an instrument, at most.
const MOST_TIERS: i64 = 4;

/// The amount of a line, a limit and a cap, at most.
const MOST_AMOUNT: i64 = 1_000_000_000;

/// The fixed cash of a day, at most in absolute value.
const MOST_CASH: i64 = 1_000_000_000_000_000;

/// What a field is to be.
#[derive(Clone, Copy, Debug)]
pub(crate) enum Form {
    /// The version, which is 1.
    Version,
    /// A name.
    Name,
    /// A whole number from `low` to `high`.
    Number { low: i64, high: i64 },
    /// A whole number other than 0, at most `most` in absolute value.
    NotZero { most: i64 },
}

/// How many fields a record of this kind has after the first.
pub(crate) fn field_count(case: &Case, kind: RecordKind) -> usize
    ensures { result ≡ length (forms case.now kind) }
{
    match kind {
        RecordKind::End => 0,
        RecordKind::Edits => 1,
        RecordKind::Limit => 4,
        RecordKind::Cap | RecordKind::Position | RecordKind::Collateral | RecordKind::Cash => 2,
    }
}

/// A number in a range.
fn number(low: i64, high: i64) -> Form
    ensures { result ≡ Number low high }
{
    Form::Number { low, high }
}

/// What the field at a place after the kind is to be.
pub(crate) fn form_at(case: &Case, kind: RecordKind, place: usize) -> Form
    requires { place < length (forms case.now kind) }
    ensures { result ≡ get_or (forms case.now kind) place Version }
{
    match (kind, place) {
        (RecordKind::Edits | RecordKind::End, _) => Form::Version,
        (RecordKind::Cash, 0) => number(0, case.last() as i64),
        (RecordKind::Cash, _) => number(-MOST_CASH, MOST_CASH),
        (_, 0) => Form::Name,
        (RecordKind::Limit, 1) => number(1, case.horizon() as i64),
        (RecordKind::Limit, 2) => number(1, MOST_TIERS),
        (RecordKind::Position, _) => Form::NotZero { most: MOST_AMOUNT },
        (RecordKind::Collateral, _) => number(1, MOST_AMOUNT),
        _ => number(0, MOST_AMOUNT),
    }
}

/// Whether a number that a word writes lies from `low` to `high`; true where it writes none.
fn is_between(low: i64, high: i64, word: &[u8]) -> bool
    ensures { result ≡ is_between low high (whole word.now) }
{
    match whole(word) {
        Some(number) => low <= number && number <= high,
        None => true,
    }
}

/// Whether a number that a word writes is 1 to `most` in absolute value; true where it writes none.
fn is_size(most: i64, word: &[u8]) -> bool
    ensures { result ≡ is_size most (whole word.now) }
{
    match whole(word) {
        Some(number) => {
            let size = number.unsigned_abs() as i64;
            0 < size && size <= most
        }
        None => true,
    }
}

/// The fault of a word that is to be a number and is none.
fn number_fault(word: &[u8]) -> Option<RecordFault>
    ensures { result ≡ fault_unless (is_some (whole word.now)) NotANumber }
{
    fault_unless(whole(word).is_some(), RecordFault::NotANumber)
}

/// The fault of a field that has not its form.
pub(crate) fn form_fault(form: Form, word: &[u8]) -> Option<RecordFault>
    ensures { result ≡ form_fault form word.now }
{
    match form {
        Form::Version => fault_unless(same(word, b"1"), RecordFault::OtherVersion),
        Form::Name => fault_unless(name_of(word).is_some(), RecordFault::NotAName),
        Form::Number { .. } | Form::NotZero { .. } => number_fault(word),
    }
}

/// The fault of a field that is out of its range.
pub(crate) fn range_fault(form: Form, word: &[u8]) -> Option<RecordFault>
    ensures { result ≡ range_fault form word.now }
{
    match form {
        Form::Version | Form::Name => None,
        Form::Number { low, high } => {
            fault_unless(is_between(low, high, word), RecordFault::OutOfRange)
        }
        Form::NotZero { most } => fault_unless(is_size(most, word), RecordFault::OutOfRange),
    }
}
