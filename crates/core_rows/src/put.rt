// Rows that are printed.
ghost use Rattle.std.specs.Prelude.{◌≡◌, ◌++◌, OnOk, OnErr, IfOk};
ghost use Rattle.core_rows.specs.Fields.{row_text};
ghost use Rattle.core_rows.specs.Written.{IsPlainRow, PutRowsReadBack};

use crate::fields::Fields;
use csv::WriterBuilder;
use std::alloc::{AllocError, Global};

// The text of one row.
fn text_of_row(alloc: Global, row: &Fields) -> Result<Vec<u8>, AllocError>
    requires { IsPlainRow row.now }
    ensures { IfOk result (λ text. text.items ≡ row_text row.now) }
{
    let mut writer = WriterBuilder::new().from_writer(Vec::new(alloc));
    writer.write_byte_record(&row.row).map_err(|_| AllocError)?;
    writer.into_inner().map_err(|_| AllocError)
}

/// Appends the text of a row to `out`: its fields joined by commas, and a line feed. The row has at least one field,
/// and each field at least one byte, all of them letters, digits or hyphens. Where memory is refused `out` stays as it
/// was.
pub fn put_row(alloc: Global, out: &mut Vec<u8>, row: &Fields) -> Result<(), AllocError>
    requires { IsPlainRow row.now }
    ensures ok { OnOk result (out.new.items ≡ out.old.items ++ row_text row.now) }
    ensures err { OnErr result (out.new.items ≡ out.old.items) }
{
    let text = text_of_row(alloc, row)?;
    out.extend_from_slice(text.as_slice())
}

/// The law of printed rows: the records of the text of plain rows, one after the other, are these rows.
pub fn law_of_put_rows()
    ensures { PutRowsReadBack }
{}
