// Fields of a record: words, and the numbers that they write.
ghost use Rattle.std.specs.Prelude.{◌≡◌};
ghost use Rattle.core_model.specs.Fits.{IsWithin128};
ghost use Rattle.core_cert.specs.Faults.{number_in, small_in};
ghost use Rattle.core_cert.specs.Stated.{last_number};

use core_rows::{Fields, wide};

/// The number that a word writes, 0 where it writes none.
pub(crate) fn number_in(word: &[u8]) -> i128
    ensures value { result ≡ number_in word.now }
    ensures kept { IsWithin128 result }
{
    wide(word).unwrap_or(0)
}

/// The absolute value of the number in a field, 0 where it writes none, and 255 where it is more than that. Days and
/// tiers are below 255.
pub(crate) fn small_in(row: &Fields, i: usize) -> u8
    ensures { result ≡ small_in row.now i }
{
    number_in(row.word(i)).unsigned_abs().min(255) as u8
}

/// The number that ends a record, 0 where it ends with none.
pub(crate) fn last_number(row: &Fields) -> i128
    ensures { result ≡ last_number row.now }
{
    number_in(row.word(row.len().saturating_sub(1)))
}
