// What the fields of a record are to be, and the faults of a field.
ghost use Rattle.std.specs.Prelude.{◌≡◌, ◌<◌, [], length, get_or, true, false, if◌then◌else◌, is_some, Some, None, Ok, Err, IfOk, IfErr};
ghost use Rattle.jiff.specs.Words.{epoch_day};
ghost use Rattle.core_rows.specs.Fields.{day_of};
ghost use Rattle.core_case.specs.Kinds.{forms, heading_view};
ghost use Rattle.core_case.specs.Faults.{first_date, form_fault, is_between, is_version, range_fault};
ghost use Rattle.core_rows.specs.Steps.{fault_unless};
ghost use Rattle.core_case.specs.declared.faults.RecordFault.TheVariants.{NotADate, OutOfRange};
ghost use Rattle.core_case.specs.declared.forms.Form.TheVariants.{Version, Number};
ghost use Rattle.core_case.specs.declared.kinds.RecordKind.TheVariants.{Instrument};

use crate::faults::RecordFault;
use crate::fields::{day_is_between, first_date, last_holiday, last_start, number_in};
use crate::heading::Heading;
use crate::kinds::RecordKind;
use core_rows::{Fields, day_text, name_of, same, whole};
use jiff::civil::Date;

/// The largest absolute value of a price.
pub(crate) const LARGEST_PRICE: i64 = 1_000_000_000_000;

/// What a field is to be.
#[derive(Clone, Copy, Debug)]
pub(crate) enum Form {
    /// The version: 1, 2 or 3.
    Version,
    /// A name.
    Name,
    /// `future` or `security`.
    InstrumentKind,
    /// A whole number from `low` to `high`.
    Number { low: i64, high: i64 },
    /// A date of the years 1900 to 2200.
    StartDate,
    /// A date of the years 1900 to 2210.
    HolidayDate,
}

/// How many fields a record of this kind has after the first.
pub(crate) fn field_count(heading: Heading, row: &Fields, kind: RecordKind) -> usize
    ensures { result ≡ length (forms (heading_view heading) row.now kind) }
{
    match kind {
        RecordKind::End => 0,
        RecordKind::Core | RecordKind::Market | RecordKind::Scenario => 1,
        RecordKind::Holiday
        | RecordKind::Pool
        | RecordKind::Position
        | RecordKind::Collateral
        | RecordKind::Cash => 2,
        RecordKind::House | RecordKind::Member => 3,
        RecordKind::Instrument if heading.version < 2 => 6,
        RecordKind::Instrument => 7,
        RecordKind::Limit => heading.horizon + 1,
        RecordKind::Tier => heading.horizon + 2,
        RecordKind::Path => heading.last + 3,
    }
}

/// A number in a range.
fn number(low: i64, high: i64) -> Form
    ensures { result ≡ Number low high }
{
    Form::Number { low, high }
}

/// What the field at a place after the kind is to be, for an instrument.
fn instrument_form(heading: Heading, place: usize) -> Form
    requires { place < length (forms (heading_view heading) [] Instrument) }
    ensures { result ≡ get_or (forms (heading_view heading) [] Instrument) place Version }
{
    match place {
        0 | 2 => Form::Name,
        1 => Form::InstrumentKind,
        3 => number(1, 1_000_000),
        4 => number(1, 20),
        5 => number(0, 10),
        _ => number(0, heading.horizon as i64),
    }
}

/// What the field at a place after the kind is to be.
pub(crate) fn form_at(heading: Heading, row: &Fields, kind: RecordKind, place: usize) -> Form
    requires { place < length (forms (heading_view heading) row.now kind) }
    ensures { result ≡ get_or (forms (heading_view heading) row.now kind) place Version }
{
    match (kind, place) {
        (RecordKind::Core | RecordKind::End, _) => Form::Version,
        (RecordKind::House, 0) => Form::StartDate,
        (RecordKind::House, 1) => number(1, 20),
        (RecordKind::House, _) => number(number_in(row, 2), 40),
        (RecordKind::Instrument, _) => instrument_form(heading, place),
        (RecordKind::Cash, 0) => number(0, heading.last as i64),
        (RecordKind::Cash, _) => number(-1_000_000_000_000_000, 1_000_000_000_000_000),
        (_, 0) => Form::Name,
        (RecordKind::Holiday, _) => Form::HolidayDate,
        (RecordKind::Tier, 1) => number(0, 1_000_000_000_000),
        (RecordKind::Member | RecordKind::Path, 1) => Form::Name,
        (RecordKind::Path, _) => number(-LARGEST_PRICE, LARGEST_PRICE),
        (RecordKind::Member, _) => number(1, 1_000_000),
        (RecordKind::Position, _) => number(-1_000_000_000, 1_000_000_000),
        (RecordKind::Collateral, _) => number(1, 1_000_000_000),
        _ => number(0, 1_000_000_000),
    }
}

/// True where the test passes, else the fault.
fn true_unless(passes: bool, fault: RecordFault) -> Result<bool, RecordFault>
    ensures { result ≡ (if passes then Ok true else Err fault) }
{
    if passes { Ok(true) } else { Err(fault) }
}

/// Whether the date that a word writes lies from the first date to `last`, or the fault of a word that writes none.
fn date_in_range(word: &[u8], last: Date) -> Result<bool, RecordFault>
    ensures form { IfOk result (λ _. is_some (day_of word.now) ≡ true) }
    ensures range { IfOk result (λ within.
        is_between first_date (epoch_day last) (day_of word.now) ≡ within) }
    ensures fault { IfErr result (λ fault.
        (fault ≡ NotADate) × (is_some (day_of word.now) ≡ false)) }
{
    match day_text(word) {
        Some(day) => Ok(day_is_between(day, first_date(), last)),
        None => Err(RecordFault::NotADate),
    }
}

/// Whether a word is the number of a version.
fn is_version(word: &[u8]) -> bool
    ensures { result ≡ is_version word.now }
{
    same(word, b"1") || same(word, b"2") || same(word, b"3")
}

/// Whether a field is in its range, or the fault of a field that has not its form.
pub(crate) fn field_in_range(form: Form, word: &[u8]) -> Result<bool, RecordFault>
    ensures form { IfOk result (λ _. form_fault form word.now ≡ None) }
    ensures range { IfOk result (λ within.
        range_fault form word.now ≡ fault_unless within OutOfRange) }
    ensures fault { IfErr result (λ fault. form_fault form word.now ≡ Some fault) }
{
    match form {
        Form::Version => true_unless(is_version(word), RecordFault::UnknownVersion),
        Form::Name => true_unless(name_of(word).is_some(), RecordFault::NotAName),
        Form::InstrumentKind => true_unless(
            same(word, b"future") || same(word, b"security"),
            RecordFault::NotAnInstrumentKind,
        ),
        Form::Number { low, high } => match whole(word) {
            Some(number) => Ok(low <= number && number <= high),
            None => Err(RecordFault::NotANumber),
        },
        Form::StartDate => date_in_range(word, last_start()),
        Form::HolidayDate => date_in_range(word, last_holiday()),
    }
}
