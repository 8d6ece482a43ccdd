// A record that is made field by field.
ghost use Rattle.std.specs.Prelude.{◌≡◌, ◌≤ℤ◌, OnOk, neg_ℤ, pos, [], ◌∷◌, ◌++◌, OnErr};
ghost use Rattle.core_sums.specs.Widths.{most};
ghost use Rattle.core_rows.specs.Fields.{number_text};
ghost use Rattle.core_rows.specs.Written.{last_digit, date_text, DateTextsRead, NumberTextsRead, OnlyDateTextsRead, OnlyNumberTextsRead};
ghost use Rattle.jiff_core.specs.Calendar.{IsBetween};

use crate::fields::Fields;
use csv::ByteRecord;
use itoa::Buffer;
use jiff::civil::Date;
use std::alloc::{AllocError, Global};

impl Fields {
    /// A record of no field, which takes its memory from `alloc` as fields are pushed.
    pub fn make(alloc: Global) -> Fields
        ensures { result ≡ [] }
    {
        Fields {
            row: ByteRecord::new(alloc),
        }
    }

    /// Appends the field. Where memory is refused the record stays as it was.
    pub fn push(&mut self, field: &[u8]) -> Result<(), AllocError>
        ensures ok { OnOk result (self.new ≡ self.old ++ field.now ∷ []) }
        ensures err { OnErr result (self.new ≡ self.old) }
    {
        // Lets go of the bytes that a refused push may have left behind the last field.
        let count = self.row.len();
        self.row.push_field(b"")?;
        self.row.truncate(count);
        self.row.push_field(field)
    }

    /// Appends a number of at least -(2^127 - 1) in decimal digits, with a minus sign where it is below 0. Where memory
    /// is refused the record stays as it was.
    pub fn push_number(&mut self, v: i128) -> Result<(), AllocError>
        requires { neg_ℤ (pos most) ≤ℤ v }
        ensures ok { OnOk result (self.new ≡ self.old ++ number_text v ∷ []) }
        ensures err { OnErr result (self.new ≡ self.old) }
    {
        self.push(Buffer::new().format(v).as_bytes())
    }

    /// Appends a date of the years 1 to 9999 as the ten bytes `YYYY-MM-DD`. Where memory is refused the record stays as
    /// it was.
    pub fn push_date(&mut self, date: Date) -> Result<(), AllocError>
        requires { IsBetween (pos 1) (pos 9999) date.year }
        ensures ok { OnOk result (self.new ≡ self.old ++ date_text date ∷ []) }
        ensures err { OnErr result (self.new ≡ self.old) }
    {
        self.push(&date_text(date))
    }
}

// The byte of a number's last digit.
fn last_digit(n: u16) -> u8
    ensures { result ≡ last_digit n }
{
    b'0' + (n % 10) as u8
}

// The ten bytes of a date.
fn date_text(date: Date) -> [u8; 10]
    requires { IsBetween (pos 1) (pos 9999) date.year }
    ensures { result ≡ date_text date }
{
    let year = date.year() as u16;
    let month = date.month() as u16;
    let day = date.day() as u16;
    [
        last_digit(year / 1000),
        last_digit(year / 100),
        last_digit(year / 10),
        last_digit(year),
        b'-',
        last_digit(month / 10),
        last_digit(month),
        b'-',
        last_digit(day / 10),
        last_digit(day),
    ]
}

/// The law of number texts: the text of a number is the one field that is read as this number.
pub fn law_of_number_texts()
    ensures read { NumberTextsRead }
    ensures only { OnlyNumberTextsRead }
{}

/// The law of date texts: the text of a date is the one field that is read as this date.
pub fn law_of_date_texts()
    ensures read { DateTextsRead }
    ensures only { OnlyDateTextsRead }
{}
