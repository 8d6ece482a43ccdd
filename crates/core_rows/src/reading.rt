// The records of a text.
ghost use Rattle.std.specs.Prelude.{◌≡◌, IfOk};
ghost use Rattle.core_rows.specs.Fields.{records};

use crate::fields::Fields;
use csv::ReaderBuilder;
use std::alloc::{AllocError, Global};

/// The greatest length of a text that is read or written, in bytes.
pub const MOST_BYTES: usize = 4_194_304;

/// Every record of a text, in the order of the text: fields between commas, no header, no trimming, and no record
/// has to be as long as another. A byte order mark at the head of the text is no part of it. Each failure of the
/// reader is answered as want of memory.
pub fn records(alloc: Global, bytes: &[u8]) -> Result<Vec<Fields>, AllocError>
    ensures { IfOk result (λ v. v.items ≡ records bytes.now) }
{
    let rdr = ReaderBuilder::new()
        .has_headers(false)
        .flexible(true)
        .from_reader(alloc, bytes);
    let mut rows = Vec::new(alloc);
    for row in rdr.into_byte_records() {
        match row {
            Ok(row) => rows.push(Fields::of_row(row))?,
            Err(_) => return Err(AllocError),
        }
    }
    Ok(rows)
}
