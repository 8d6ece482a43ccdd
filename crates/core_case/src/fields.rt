// Fields of a record: words, and the numbers and days that they write.
ghost use Rattle.std.specs.Prelude.{◌≡◌, ◌<◌, ◌^◌, IfOk, Some};
ghost use Rattle.jiff.specs.Words.{epoch_day};
ghost use Rattle.core_rows.specs.Fields.{whole, day_of};
ghost use Rattle.core_case.specs.Kinds.{number_in, natural_in};
ghost use Rattle.core_case.specs.Faults.{first_date, has_expiry, is_between, is_future, last_holiday, last_start};
ghost use Rattle.core_case.specs.Stated.{day_in, numbers_from};

use core_rows::{Fields, day_text, same, whole};
use jiff::civil::{Date, date};
use std::alloc::{AllocError, Global};

/// The number in a field, 0 where it writes none.
pub(crate) fn number_in(row: &Fields, i: usize) -> i64
    ensures { result ≡ number_in row.now i }
{
    whole(row.word(i)).unwrap_or(0)
}

/// The absolute value of the number in a field, 0 where it writes none.
pub(crate) fn natural_in(row: &Fields, i: usize) -> usize
    ensures value { result ≡ natural_in row.now i }
    ensures bound { result < 2 ^ 63 }
{
    number_in(row, i).unsigned_abs() as usize
}

/// The numbers in the fields of a record from one on.
pub(crate) fn numbers_from(
    alloc: Global,
    row: &Fields,
    first: usize,
) -> Result<Vec<i64>, AllocError>
    ensures { IfOk result (λ v. v.items ≡ numbers_from first row.now) }
{
    let mut numbers = Vec::with_capacity(alloc, row.len().saturating_sub(first))?;
    for i in first..row.len() {
        numbers.push(number_in(row, i))?;
    }
    Ok(numbers)
}

/// Whether the record of an instrument is of a future.
pub(crate) fn is_future(row: &Fields) -> bool
    ensures { result ≡ is_future row.now }
{
    same(row.word(2), b"future")
}

/// Whether the record of an instrument states an expiry.
pub(crate) fn has_expiry(row: &Fields) -> bool
    ensures { result ≡ has_expiry row.now }
{
    0 < natural_in(row, 7)
}

/// The date in a field, 1970-01-01 where it writes none.
pub(crate) fn day_in(row: &Fields, i: usize) -> Date
    ensures { epoch_day result ≡ day_in row.now i }
{
    match day_text(row.word(i)) {
        Some(day) => day,
        None => date(1970, 1, 1),
    }
}

/// Whether a date lies from `first` to `last`.
pub(crate) fn day_is_between(day: Date, first: Date, last: Date) -> bool
    ensures { result ≡ is_between (epoch_day first) (epoch_day last) (Some (epoch_day day)) }
{
    first <= day && day <= last
}

/// The first date that a case may have.
pub(crate) fn first_date() -> Date
    ensures { epoch_day result ≡ first_date }
{
    date(1900, 1, 1)
}

/// The last date that a case may start on.
pub(crate) fn last_start() -> Date
    ensures { epoch_day result ≡ last_start }
{
    date(2200, 12, 31)
}

/// The last date that a holiday may have.
pub(crate) fn last_holiday() -> Date
    ensures { epoch_day result ≡ last_holiday }
{
    date(2210, 12, 31)
}
