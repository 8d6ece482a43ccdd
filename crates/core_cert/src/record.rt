// The records of a certificate that is written, one by one.
ghost use Rattle.std.specs.Prelude.{◌≡◌, ◌<◌, ◌++◌, ◌∷◌, [], IsTrue, OnOk, IfOk, codes, decimal, length};
ghost use Rattle.core_rows.specs.Fields.{row_text};
ghost use Rattle.core_rows.specs.Written.{IsPlainRow, rows_text};
ghost use Rattle.core_model.specs.Fits.{IsWithin128};
ghost use Rattle.core_cert.specs.Written.{amount_record, day_record, first_record, full_record, is_plain_word, limit_record, line_fields, side_word, tier_fields, version_word, word_record};

use crate::forms::is_tiered;
use core_book::{Case, Side};
use core_rows::{Fields, Name, put_row};
use std::alloc::{AllocError, Global};

/// The version of the format: 2 for a case of which an instrument has more than one tier, else 1.
pub(crate) fn version_word(tiered: bool) -> &'static [u8]
    ensures { result.now ≡ version_word tiered }
{
    if tiered { b"2" } else { b"1" }
}

/// The word of a side.
pub(crate) fn side_word(side: Side) -> &'static [u8]
    ensures { result.now ≡ side_word side }
{
    match side {
        Side::Position => b"position",
        Side::Collateral => b"collateral",
    }
}

/// Prints a record of a word alone.
pub(crate) fn put_word(alloc: Global, out: &mut Vec<u8>, word: &[u8]) -> Result<(), AllocError>
    requires { IsTrue (is_plain_word word.now) }
    ensures { OnOk result (out.new.items ≡ out.old.items ++ row_text (word.now ∷ [])) }
{
    let mut fields = Fields::make(alloc);
    fields.push(word)?;
    put_row(alloc, out, &fields)
}

/// Prints the first record of a certificate of a case.
pub(crate) fn put_first(alloc: Global, out: &mut Vec<u8>, case: &Case) -> Result<(), AllocError>
    ensures { OnOk result (out.new.items ≡ out.old.items ++ row_text (first_record case.now)) }
{
    let mut fields = Fields::make(alloc);
    fields.push(b"cert")?;
    fields.push(version_word(is_tiered(case)))?;
    put_row(alloc, out, &fields)
}

/// Prints a record of a word and a number.
pub(crate) fn put_number(
    alloc: Global,
    out: &mut Vec<u8>,
    word: &[u8],
    number: i128,
) -> Result<(), AllocError>
    requires word { IsTrue (is_plain_word word.now) }
    requires number { IsWithin128 number }
    ensures { OnOk result (out.new.items
        ≡ out.old.items ++ row_text (word_record word.now number)) }
{
    let mut fields = Fields::make(alloc);
    fields.push(word)?;
    fields.push_number(number)?;
    put_row(alloc, out, &fields)
}

/// Prints a record of a word, a name, a day and a number, none where the number is 0.
pub(crate) fn put_day(
    alloc: Global,
    out: &mut Vec<u8>,
    word: &[u8],
    name: Name,
    day: u8,
    number: i128,
) -> Result<(), AllocError>
    requires word { IsTrue (is_plain_word word.now) }
    requires number { IsWithin128 number }
    ensures { OnOk result (out.new.items
        ≡ out.old.items ++ rows_text (day_record word.now name day number)) }
{
    if number == 0 {
        return Ok(());
    }
    let mut fields = Fields::make(alloc);
    fields.push(word)?;
    fields.push(name.bytes())?;
    fields.push_number(i128::from(day))?;
    fields.push_number(number)?;
    put_row(alloc, out, &fields)
}

/// A record that begins with a word and a line, by its instrument and its side.
fn line_record(alloc: Global, case: &Case, word: &[u8], l: usize) -> Result<Fields, AllocError>
    requires word { IsTrue (is_plain_word word.now) }
    requires line { l < length case.now.lines }
    ensures value { IfOk result (λ fields. fields ≡ word.now ∷ line_fields case.now l) }
    ensures plain { IfOk result IsPlainRow }
{
    // Every case keeps that its lines are of instruments that it has.
    case.well_formed();
    let line = case.line(l);
    let instrument = case.instrument(line.instrument);
    let mut fields = Fields::make(alloc);
    fields.push(word)?;
    fields.push(instrument.name.bytes())?;
    fields.push(side_word(line.side))?;
    Ok(fields)
}

/// Adds a day, and a tier where the case has more than one.
fn push_closing(fields: &mut Fields, case: &Case, day: u8, tier: u8) -> Result<(), AllocError>
    requires { IsPlainRow fields.old }
    ensures value { OnOk result (fields.new
        ≡ fields.old ++ (decimal day ∷ tier_fields case.now tier)) }
    ensures plain { OnOk result (IsPlainRow fields.new) }
{
    fields.push_number(i128::from(day))?;
    if is_tiered(case) {
        fields.push_number(i128::from(tier))?;
    }
    Ok(())
}

/// Prints the amount of a line on a day in a tier, nothing where it is 0.
pub(crate) fn put_amount(
    alloc: Global,
    out: &mut Vec<u8>,
    case: &Case,
    l: usize,
    day: u8,
    tier: u8,
    amount: i128,
) -> Result<(), AllocError>
    requires line { l < length case.now.lines }
    requires amount { IsWithin128 amount }
    ensures { OnOk result (out.new.items
        ≡ out.old.items ++ rows_text (amount_record case.now l day tier amount)) }
{
    if amount == 0 {
        return Ok(());
    }
    let mut fields = line_record(alloc, case, b"amount", l)?;
    push_closing(&mut fields, case, day, tier)?;
    fields.push_number(amount)?;
    put_row(alloc, out, &fields)
}

/// Prints the weight of an instrument's limit on a day in a tier, nothing where it is 0.
pub(crate) fn put_limit(
    alloc: Global,
    out: &mut Vec<u8>,
    case: &Case,
    i: usize,
    day: u8,
    tier: u8,
    weight: i128,
) -> Result<(), AllocError>
    requires instrument { i < length case.now.instruments }
    requires weight { IsWithin128 weight }
    ensures { OnOk result (out.new.items
        ≡ out.old.items ++ rows_text (limit_record case.now i day tier weight)) }
{
    if weight == 0 {
        return Ok(());
    }
    let mut fields = Fields::make(alloc);
    fields.push(b"limit")?;
    fields.push(case.instrument(i).name.bytes())?;
    push_closing(&mut fields, case, day, tier)?;
    fields.push_number(weight)?;
    put_row(alloc, out, &fields)
}

/// Prints the weight of a line's full closing, nothing where it is 0.
pub(crate) fn put_full(
    alloc: Global,
    out: &mut Vec<u8>,
    case: &Case,
    l: usize,
    weight: i128,
) -> Result<(), AllocError>
    requires line { l < length case.now.lines }
    requires weight { IsWithin128 weight }
    ensures { OnOk result (out.new.items
        ≡ out.old.items ++ rows_text (full_record case.now l weight)) }
{
    if weight == 0 {
        return Ok(());
    }
    let mut fields = line_record(alloc, case, b"full", l)?;
    fields.push_number(weight)?;
    put_row(alloc, out, &fields)
}
