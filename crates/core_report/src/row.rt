// A record that is printed, field by field.
ghost use Rattle.std.specs.Prelude.{◌≡◌, ◌<◌, ◌≤ℤ◌, ◌∷◌, ◌++◌, [], pos, decimal, IsTrue, OnOk, IfOk, length};
ghost use Rattle.core_sums.specs.Places.{row_at};
ghost use Rattle.core_rows.specs.Fields.{number_text};
ghost use Rattle.core_rows.specs.Written.{IsPlainField, rows_text};
ghost use Rattle.core_model.specs.Fits.{IsWithin128};
ghost use Rattle.core_cert.specs.Written.{is_plain_word, line_fields, side_word, tier_fields};
ghost use Rattle.core_report.specs.Records.{listed, ratio_fields};

use crate::dates::Dates;
use core_book::{Case, Side};
use core_rows::{Fields, Name, put_row};
use exact_frac::{Exact, Frac128};
use std::alloc::{AllocError, Global};
use std::marker::Model;

/// A record of at least one field, each of letters, digits and hyphens, which contracts see as the list of its fields.
#[derive(Drop)]
pub(crate) struct Row {
    fields: Fields,
}

impl Model for Row {
    ghost use Rattle.core_rows.specs.Names.{Record};
    ghost use Rattle.core_rows.specs.Written.{IsPlainRow};

    ghost Value = { Record };

    ghost view = { λ row. row.fields };

    ghost invariant = { λ row. IsPlainRow row.fields };
}

/// The word of a side.
fn side_word(side: Side) -> &'static [u8]
    ensures { result.now ≡ side_word side }
{
    match side {
        Side::Position => b"position",
        Side::Collateral => b"collateral",
    }
}

impl Row {
    /// A record of one word.
    pub(crate) fn start(alloc: Global, word: &[u8]) -> Result<Row, AllocError>
        requires { IsTrue (is_plain_word word.now) }
        ensures { IfOk result (λ row. row ≡ word.now ∷ []) }
    {
        let mut fields = Fields::make(alloc);
        fields.push(word)?;
        Ok(Row { fields })
    }

    /// Adds a field.
    fn push(&mut self, field: &[u8]) -> Result<(), AllocError>
        requires { IsPlainField field.now }
        ensures { OnOk result (self.new ≡ self.old ++ (field.now ∷ [])) }
    {
        self.fields.push(field)
    }

    /// Adds a word.
    pub(crate) fn push_word(&mut self, word: &[u8]) -> Result<(), AllocError>
        requires { IsTrue (is_plain_word word.now) }
        ensures { OnOk result (self.new ≡ self.old ++ (word.now ∷ [])) }
    {
        self.push(word)
    }

    /// Adds a name.
    pub(crate) fn push_name(&mut self, name: Name) -> Result<(), AllocError>
        ensures { OnOk result (self.new ≡ self.old ++ (name ∷ [])) }
    {
        self.push(name.bytes())
    }

    /// Adds a number.
    pub(crate) fn push_number(&mut self, number: i128) -> Result<(), AllocError>
        requires { IsWithin128 number }
        ensures { OnOk result (self.new ≡ self.old ++ (number_text number ∷ [])) }
    {
        self.fields.push_number(number)
    }

    /// Adds a whole number of the case.
    pub(crate) fn push_whole(&mut self, number: i64) -> Result<(), AllocError>
        ensures { OnOk result (self.new ≡ self.old ++ (number_text number ∷ [])) }
    {
        self.push_number(i128::from(number))
    }

    /// Adds the date of a house day.
    pub(crate) fn push_date(&mut self, dates: &Dates, t: u8) -> Result<(), AllocError>
        requires { t < length dates.now }
        ensures { OnOk result (self.new ≡ self.old ++ (row_at dates.now t ∷ [])) }
    {
        self.fields.push_date(dates.on(t))
    }

    /// Adds a number over a denominator, in lowest terms.
    pub(crate) fn push_ratio(&mut self, number: i128, den: i128) -> Result<(), AllocError>
        requires number { IsWithin128 number }
        requires den { pos 1 ≤ℤ den }
        ensures { OnOk result (self.new ≡ self.old ++ ratio_fields number den) }
    {
        let ratio = Frac128::of(number, den);
        self.push_number(ratio.num())?;
        self.push_number(ratio.den())
    }

    /// Adds what names a line: its instrument and its side.
    pub(crate) fn push_line(&mut self, case: &Case, l: usize) -> Result<(), AllocError>
        requires { l < length case.now.lines }
        ensures { OnOk result (self.new ≡ self.old ++ line_fields case.now l) }
    {
        // Every case keeps that its lines are of instruments that it has.
        let _kept = case.horizon();
        let line = case.line(l);
        self.push_name(case.instrument(line.instrument).name)?;
        self.push(side_word(line.side))
    }

    /// Adds a tier where the case has more than one.
    pub(crate) fn push_tier(&mut self, case: &Case, tier: u8) -> Result<(), AllocError>
        ensures { OnOk result (self.new ≡ self.old ++ tier_fields case.now tier) }
    {
        if case.tiers() > 1 {
            self.push_number(i128::from(tier))
        } else {
            Ok(())
        }
    }
}

/// Prints a record.
pub(crate) fn put(alloc: Global, out: &mut Vec<u8>, row: &Row) -> Result<(), AllocError>
    ensures { OnOk result (out.new.items ≡ out.old.items ++ rows_text (row.now ∷ [])) }
{
    put_row(alloc, out, &row.fields)
}

/// Prints a record where there is one.
pub(crate) fn put_some(alloc: Global, out: &mut Vec<u8>, row: Option<Row>) -> Result<(), AllocError>
    ensures { OnOk result (out.new.items ≡ out.old.items ++ rows_text (listed row)) }
{
    match row {
        Some(row) => put(alloc, out, &row),
        None => Ok(()),
    }
}
