ghost use Rattle.std.specs.Prelude.{◌≡◌, ◌≤◌, ◌+ℤ◌, ◌<ℤ◌, pos, length, map, IfOk, nat_lt};
ghost use Rattle.jiff.specs.Words.{epoch_day};
ghost use Rattle.core_sums.specs.Places.{has};
ghost use Rattle.core_days.specs.Days.{weekday, is_open_on, is_working as is_working_on};
ghost use Rattle.core_days.specs.Limits.{most_holidays, most_house_days};
ghost use Rattle.core_days.specs.Flags.{IsStart, AreHouseDays, AreOpenFlags};

use jiff::civil::Date;
use std::alloc::{AllocError, Global};

/// The house days 0 to `last`, as dates in order.
///
/// Day 0 is `start`, a date of the years 1900 to 2200. Day t is the t-th date after it that is Monday to Friday and
/// none of the holidays of the house, which come in any order. The only error is want of memory.
pub fn house_days(
    alloc: Global,
    start: Date,
    holidays: &[Date],
    last: u8,
) -> Result<Vec<Date>, AllocError>
    requires start { IsStart (epoch_day start) }
    requires few { length holidays.now ≤ most_holidays }
    requires last { last ≤ most_house_days }
    ensures { IfOk result (λ days. AreHouseDays (epoch_day start) (map epoch_day holidays.now) last
        (map epoch_day days.items)) }
{
    let count = last as usize + 1;
    let mut days = Vec::with_capacity(alloc, count)?;
    days.push(start)?;
    let mut date = start;
    while days.len() < count {
        date = date_after(date);
        if is_working(date, holidays) {
            days.push(date)?;
        }
    }
    Ok(days)
}

/// Whether a market with these holidays is open, by house day: one flag for each date.
///
/// Day 0 counts as open for every market. The only error is want of memory.
pub fn open_flags(alloc: Global, days: &[Date], holidays: &[Date]) -> Result<Vec<bool>, AllocError>
    ensures { IfOk result (λ flags. AreOpenFlags (map epoch_day holidays.now)
        (map epoch_day days.now) flags.items) }
{
    let mut flags = Vec::with_capacity(alloc, days.len())?;
    for (t, date) in days.iter().enumerate() {
        flags.push(is_open(t, *date, holidays))?;
    }
    Ok(flags)
}

// Whether a market is open on the house day of that number and date.
fn is_open(t: usize, date: Date, holidays: &[Date]) -> bool
    ensures { result ≡ is_open_on (map epoch_day holidays.now) t (epoch_day date) }
{
    t == 0 || !is_holiday(date, holidays)
}

// Whether the house works on a date: Monday to Friday, and no holiday.
fn is_working(date: Date, holidays: &[Date]) -> bool
    ensures { result ≡ is_working_on (map epoch_day holidays.now) (epoch_day date) }
{
    is_weekday(date) && !is_holiday(date, holidays)
}

// Whether a date is Monday to Friday.
fn is_weekday(date: Date) -> bool
    ensures { result ≡ nat_lt (weekday (epoch_day date)) 5 }
{
    date.weekday().to_monday_zero_offset() < 5
}

// Whether a date is one of the holidays.
fn is_holiday(date: Date, holidays: &[Date]) -> bool
    ensures { result ≡ has (map epoch_day holidays.now) (epoch_day date) }
{
    holidays.contains(&date)
}

// The date after a date that is not the calendar's last.
fn date_after(date: Date) -> Date
    requires { epoch_day date <ℤ pos 2_932_896 }
    ensures { epoch_day result ≡ epoch_day date +ℤ pos 1 }
{
    date.tomorrow().unwrap()
}
