// Records that are printed, each ended by a line feed.
ghost use Rattle.std.specs.Prelude.{◌≡◌, ◌≤ℤ◌, ◌∷◌, ◌++◌, [], codes, pos, IsTrue, OnOk};
ghost use Rattle.core_rows.specs.Written.{rows_text};
ghost use Rattle.core_model.specs.Fits.{IsWithin128};
ghost use Rattle.core_cert.specs.Written.{is_plain_word};
ghost use Rattle.core_ratios.specs.Ratios.{listed, ratio_record};

use crate::row::Row;
use core_rows::put_row;
use std::alloc::{AllocError, Global};

/// Prints a record behind what `out` has. Where memory is refused the answer is an error.
pub fn put(alloc: Global, out: &mut Vec<u8>, row: &Row) -> Result<(), AllocError>
    ensures { OnOk result (out.new.items ≡ out.old.items ++ rows_text (row.now ∷ [])) }
{
    put_row(alloc, out, &row.fields)
}

/// Prints a record where there is one.
pub fn put_some(alloc: Global, out: &mut Vec<u8>, row: Option<Row>) -> Result<(), AllocError>
    ensures { OnOk result (out.new.items ≡ out.old.items ++ rows_text (listed row)) }
{
    match row {
        Some(row) => put(alloc, out, &row),
        None => Ok(()),
    }
}

/// Prints a record of two words.
pub fn put_words(
    alloc: Global,
    out: &mut Vec<u8>,
    first: &[u8],
    second: &[u8],
) -> Result<(), AllocError>
    requires first { IsTrue (is_plain_word first.now) }
    requires second { IsTrue (is_plain_word second.now) }
    ensures { OnOk result (out.new.items
        ≡ out.old.items ++ rows_text ((first.now ∷ second.now ∷ []) ∷ [])) }
{
    let mut row = Row::start(alloc, first)?;
    row.push_word(second)?;
    put(alloc, out, &row)
}

/// Prints a record of a word and a number over a denominator of at least 1, in lowest terms.
pub fn put_ratio(
    alloc: Global,
    out: &mut Vec<u8>,
    word: &[u8],
    number: i128,
    den: i128,
) -> Result<(), AllocError>
    requires word { IsTrue (is_plain_word word.now) }
    requires number { IsWithin128 number }
    requires den { pos 1 ≤ℤ den }
    ensures { OnOk result (out.new.items
        ≡ out.old.items ++ rows_text (ratio_record word.now number den ∷ [])) }
{
    let mut row = Row::start(alloc, word)?;
    row.push_ratio(number, den)?;
    put(alloc, out, &row)
}

/// Prints the last record of a text: the word `end`.
pub fn put_end(alloc: Global, out: &mut Vec<u8>) -> Result<(), AllocError>
    ensures { OnOk result (out.new.items ≡ out.old.items ++ rows_text ((codes "end" ∷ []) ∷ [])) }
{
    put(alloc, out, &Row::start(alloc, b"end")?)
}
