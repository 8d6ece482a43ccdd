// What the fields of a record are to be, and the faults of a field.
ghost use Rattle.std.specs.Prelude.{◌≡◌, ◌<◌, ◌++◌, ◌∷◌, [], true, length, get_or, is_some};
ghost use Rattle.core_rows.specs.Fields.{wide};
ghost use Rattle.core_book.specs.View.{is_tiered};
ghost use Rattle.core_cert.specs.Kinds.{forms, tier_forms};
ghost use Rattle.core_cert.specs.Faults.{form_fault, range_fault};
ghost use Rattle.core_rows.specs.Steps.{fault_unless};
ghost use Rattle.core_cert.specs.declared.faults.RecordFault.TheVariants.{NotANumber};
ghost use Rattle.core_cert.specs.declared.forms.Form.TheVariants.{NotZero, Number, Version};

use crate::faults::RecordFault;
use crate::fields::number_in;
use crate::kinds::RecordKind;
use crate::record::version_word;
use core_book::Case;
use core_rows::{fault_unless, name_of, same, wide};

/// What a field is to be.
#[derive(Clone, Copy, Debug)]
pub(crate) enum Form {
    /// The version, which is 2 for a case of which an instrument has more than one tier, else 1.
    Version { tiered: bool },
    /// A name.
    Name,
    /// `position` or `collateral`.
    SideWord,
    /// A day or a tier from `first` to `last`.
    Number { first: u8, last: u8 },
    /// A number.
    Numerator,
    /// A number that is not 0.
    NotZero,
}

/// Whether an instrument of the case has more than one tier.
pub(crate) fn is_tiered(case: &Case) -> bool
    ensures { result ≡ is_tiered case.now }
{
    case.tiers() > 1
}

/// How many fields a record of this kind has after the first.
pub(crate) fn field_count(case: &Case, kind: RecordKind) -> usize
    ensures { result ≡ length (forms case.now kind) }
{
    match kind {
        RecordKind::Cannot | RecordKind::End => 0,
        RecordKind::Cert
        | RecordKind::Closes
        | RecordKind::Loss
        | RecordKind::Margin
        | RecordKind::Weights => 1,
        RecordKind::Scenario | RecordKind::Pool | RecordKind::Full => 3,
        RecordKind::Limit => 3 + usize::from(is_tiered(case)),
        RecordKind::Amount => 4 + usize::from(is_tiered(case)),
    }
}

/// A closing day.
fn closing_day(case: &Case) -> Form
    ensures { result ≡ Number 1 case.now.horizon }
{
    Form::Number {
        first: 1,
        last: case.horizon(),
    }
}

/// The tier of a record that has one, else its number.
fn tier_or_number(case: &Case) -> Form
    ensures { result ≡ get_or (tier_forms case.now ++ (NotZero ∷ [])) 0 NotZero }
{
    if is_tiered(case) {
        Form::Number {
            first: 1,
            last: case.tiers(),
        }
    } else {
        Form::NotZero
    }
}

/// What the field at a place after the kind is to be.
pub(crate) fn form_at(case: &Case, kind: RecordKind, place: usize) -> Form
    requires { place < length (forms case.now kind) }
    ensures { result ≡ get_or (forms case.now kind) place (Version true) }
{
    match (kind, place) {
        (RecordKind::Cert | RecordKind::Cannot | RecordKind::End, _) => Form::Version {
            tiered: is_tiered(case),
        },
        (RecordKind::Closes | RecordKind::Loss | RecordKind::Margin | RecordKind::Weights, _) =>
            Form::Numerator,
        (_, 0) => Form::Name,
        (RecordKind::Amount | RecordKind::Full, 1) => Form::SideWord,
        (RecordKind::Amount, 2) | (RecordKind::Limit | RecordKind::Pool, 1) => closing_day(case),
        (RecordKind::Amount, 3) | (RecordKind::Limit, 2) => tier_or_number(case),
        (RecordKind::Scenario, 1) => Form::Number {
            first: 0,
            last: case.last(),
        },
        _ => Form::NotZero,
    }
}

/// The fault of a word that is to be a number and is none.
fn number_fault(word: &[u8]) -> Option<RecordFault>
    ensures { result ≡ fault_unless (is_some (wide word.now)) NotANumber }
{
    fault_unless(wide(word).is_some(), RecordFault::NotANumber)
}

/// The fault of a field that has not its form.
pub(crate) fn form_fault(form: Form, word: &[u8]) -> Option<RecordFault>
    ensures { result ≡ form_fault form word.now }
{
    match form {
        Form::Version { tiered } => {
            fault_unless(same(word, version_word(tiered)), RecordFault::OtherVersion)
        }
        Form::Name => fault_unless(name_of(word).is_some(), RecordFault::NotAName),
        Form::SideWord => fault_unless(
            same(word, b"position") || same(word, b"collateral"),
            RecordFault::NotASide,
        ),
        Form::Number { .. } | Form::Numerator | Form::NotZero => number_fault(word),
    }
}

/// The fault of a field that is out of its range.
pub(crate) fn range_fault(form: Form, word: &[u8]) -> Option<RecordFault>
    ensures { result ≡ range_fault form word.now }
{
    match form {
        Form::Number { first, last } => {
            let number = number_in(word);
            fault_unless(
                i128::from(first) <= number && number <= i128::from(last),
                RecordFault::OutOfRange,
            )
        }
        Form::NotZero => fault_unless(number_in(word) != 0, RecordFault::OutOfRange),
        Form::Version { .. } | Form::Name | Form::SideWord | Form::Numerator => None,
    }
}
