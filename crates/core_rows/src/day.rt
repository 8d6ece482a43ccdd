// The dates that fields write.
ghost use Rattle.std.specs.Prelude.{◌≡◌, ◌≤◌, option_map};
ghost use Rattle.core_rows.specs.Fields.{civil_day, day_of};
ghost use Rattle.jiff.specs.Words.{epoch_day};

use crate::number::digits;
use jiff::civil::Date;

/// The civil date of these parts, where the year is at least 1 and the calendar has it.
fn civil_day(year: u16, month: u8, day: u8) -> Option<Date>
    requires year_in { year ≤ 9999 }
    requires month_in { month ≤ 99 }
    requires day_in { day ≤ 99 }
    ensures { option_map epoch_day result ≡ civil_day year month day }
{
    if year == 0 {
        return None;
    }
    Date::new(year as i16, month as i8, day as i8).ok()
}

/// The date that a field writes as `YYYY-MM-DD`. None exactly where the field is not ten bytes of this form, or the
/// calendar has no such day, or the year is 0.
pub fn day_text(field: &[u8]) -> Option<Date>
    ensures { option_map epoch_day result ≡ day_of field.now }
{
    if field.len() != 10 || field[4] != b'-' || field[7] != b'-' {
        return None;
    }
    let year = digits(&field[..4], 9999)?;
    let month = digits(&field[5..7], 99)?;
    let day = digits(&field[8..], 99)?;
    civil_day(year as u16, month as u8, day as u8)
}
