// A record that is printed, field by field, whose fractions are two fields in lowest terms.
ghost use Rattle.std.specs.Prelude.{◌≡◌, ◌<◌, ◌≤ℤ◌, ◌∷◌, ◌++◌, [], pos, decimal, IsTrue, OnOk, IfOk, length};
ghost use Rattle.jiff_core.specs.Calendar.{IsBetween};
ghost use Rattle.core_rows.specs.Fields.{number_text};
ghost use Rattle.core_rows.specs.Written.{IsPlainField, date_text};
ghost use Rattle.core_model.specs.Fits.{IsWithin128};
ghost use Rattle.core_cert.specs.Written.{is_plain_word, line_fields, side_word, tier_fields};
ghost use Rattle.core_ratios.specs.Ratios.{ratio_fields};

use core_book::{Case, Side};
use core_rows::{Fields, Name};
use exact_frac::{Exact, Frac128};
use jiff::civil::Date;
use std::alloc::{AllocError, Global};
use std::marker::Model;

/// A record of at least one field, each of letters, digits and hyphens, which contracts see as the list of its fields.
#[derive(Drop)]
pub struct Row {
    pub(crate) fields: Fields,
}

impl Model for Row {
    ghost use Rattle.core_rows.specs.Names.{Record};
    ghost use Rattle.core_rows.specs.Written.{IsPlainRow};

    ghost Value = { Record };

    ghost view = { λ row. row.fields };

    ghost invariant = { λ row. IsPlainRow row.fields };
}

/// The word of a side.
fn side_word(side: Side) -> &'static [u8]
    ensures { result.now ≡ side_word side }
{
    match side {
        Side::Position => b"position",
        Side::Collateral => b"collateral",
    }
}

impl Row {
    /// A record of one word, of letters, digits and hyphens, which takes its memory from `alloc` as fields are added.
    pub fn start(alloc: Global, word: &[u8]) -> Result<Row, AllocError>
        requires { IsTrue (is_plain_word word.now) }
        ensures { IfOk result (λ row. row ≡ word.now ∷ []) }
    {
        let mut fields = Fields::make(alloc);
        fields.push(word)?;
        Ok(Row { fields })
    }

    /// Adds a field.
    fn push(&mut self, field: &[u8]) -> Result<(), AllocError>
        requires { IsPlainField field.now }
        ensures { OnOk result (self.new ≡ self.old ++ (field.now ∷ [])) }
    {
        self.fields.push(field)
    }

    /// Adds a word of letters, digits and hyphens.
    pub fn push_word(&mut self, word: &[u8]) -> Result<(), AllocError>
        requires { IsTrue (is_plain_word word.now) }
        ensures { OnOk result (self.new ≡ self.old ++ (word.now ∷ [])) }
    {
        self.push(word)
    }

    /// Adds a name.
    pub fn push_name(&mut self, name: Name) -> Result<(), AllocError>
        ensures { OnOk result (self.new ≡ self.old ++ (name ∷ [])) }
    {
        self.push(name.bytes())
    }

    /// Adds a number of 128 bits whose absolute value is at most 2^127 - 1.
    pub fn push_number(&mut self, number: i128) -> Result<(), AllocError>
        requires { IsWithin128 number }
        ensures { OnOk result (self.new ≡ self.old ++ (number_text number ∷ [])) }
    {
        self.fields.push_number(number)
    }

    /// Adds a whole number of the case.
    pub fn push_whole(&mut self, number: i64) -> Result<(), AllocError>
        ensures { OnOk result (self.new ≡ self.old ++ (number_text number ∷ [])) }
    {
        self.push_number(i128::from(number))
    }

    /// Adds a date of the years 1 to 9999.
    pub fn push_date(&mut self, date: Date) -> Result<(), AllocError>
        requires { IsBetween (pos 1) (pos 9999) date.year }
        ensures { OnOk result (self.new ≡ self.old ++ (date_text date ∷ [])) }
    {
        self.fields.push_date(date)
    }

    /// Adds a number over a denominator of at least 1, in lowest terms: the numerator, then the denominator. 0 is 0 over 1.
    pub fn push_ratio(&mut self, number: i128, den: i128) -> Result<(), AllocError>
        requires number { IsWithin128 number }
        requires den { pos 1 ≤ℤ den }
        ensures { OnOk result (self.new ≡ self.old ++ ratio_fields number den) }
    {
        let ratio = Frac128::of(number, den);
        self.push_number(ratio.num())?;
        self.push_number(ratio.den())
    }

    /// Adds what names a line, from 0: its instrument and its side.
    pub fn push_line(&mut self, case: &Case, l: usize) -> Result<(), AllocError>
        requires { l < length case.now.lines }
        ensures { OnOk result (self.new ≡ self.old ++ line_fields case.now l) }
    {
        case.well_formed();
        let line = case.line(l);
        self.push_name(case.instrument(line.instrument).name)?;
        self.push(side_word(line.side))
    }

    /// Adds a tier, from 1, where an instrument of the case has more than one.
    pub fn push_tier(&mut self, case: &Case, tier: u8) -> Result<(), AllocError>
        ensures { OnOk result (self.new ≡ self.old ++ tier_fields case.now tier) }
    {
        if case.tiers() > 1 {
            self.push_number(i128::from(tier))
        } else {
            Ok(())
        }
    }
}
