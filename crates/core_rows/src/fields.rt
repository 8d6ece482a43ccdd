// One record of a text.
ghost use Rattle.std.specs.Prelude.{◌≡◌, ◌<◌, ◌↔◌, IsSome, length, option_map, slice_get};
ghost use Rattle.std.specs.Str.{bytes_eq};

use csv::ByteRecord;
use std::marker::Model;

/// One record, which contracts see as the list of its fields, each a list of bytes.
#[derive(Drop)]
pub struct Fields {
    pub(crate) row: ByteRecord,
}

impl Model for Fields {
    ghost use Rattle.std.specs.Prelude.{List, ℕ};
    ghost use Rattle.csv.specs.Records.{fields_of};

    ghost Value = { List (List ℕ) };

    ghost view = { λ a. fields_of a.row };
}

impl Fields {
    ghost use Rattle.csv.specs.Records.{fields_of};
    ghost use Rattle.core_rows.specs.Names.{field};

    /// How many fields the record has.
    pub fn len(&self) -> usize
        ensures { result ≡ length self.now }
    {
        self.row.len()
    }

    /// The field at this index, from 0. None exactly where the index is not below the number of fields.
    pub fn field(&self, i: usize) -> Option<&[u8]>
        ensures place { IsSome result ↔ (i < length self.now) }
        ensures value { option_map (λ f. f.now) result ≡ slice_get self.now i }
    {
        self.row.get(i)
    }

    /// The field at this index, empty where the record has none.
    pub fn word(&self, i: usize) -> &[u8]
        ensures { result.now ≡ field self.now i }
    {
        match self.field(i) {
            Some(word) => word,
            None => &[],
        }
    }

    /// The record that was read.
    pub(crate) fn of_row(row: ByteRecord) -> Fields
        ensures { result ≡ fields_of row }
    {
        Fields { row }
    }
}

/// Whether two words are the same.
pub fn same(word: &[u8], other: &[u8]) -> bool
    ensures { result ≡ bytes_eq word.now other.now }
{
    word == other
}
