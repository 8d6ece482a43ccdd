// A row of a tableau with room for what a pivot makes of it.
ghost use Rattle.core_dict.specs.NextEntry.{IsNextEntry};
ghost use Rattle.core_dict.specs.Rows.{entry_of, width};

use crate::RowEntry;
use crate::numbers::is_zero;
use exact_frac::Exact;

/// The entries of a row by column, and its value.
#[derive(Drop)]
pub struct Row<E> {
    pub entries: Vec<E>,
    pub value: E,
}

/// A row, and room for what a pivot makes of it.
#[derive(Drop)]
pub struct Slot<E> {
    pub row: Row<E>,
    pub spare: Row<E>,
}

impl<E: Exact> Row<E> {
    /// The first entry from a column on that is not 0, or none.
    pub fn next_entry(&self, from: usize) -> Option<RowEntry<E>>
        ensures { IsNextEntry E.value (width self.now) (entry_of E.value self.now) from result }
    {
        for col in from..self.entries.len() {
            let value = self.entries[col];
            if !is_zero(value) {
                return Some(RowEntry {
                    col,
                    value,
                    place: col,
                });
            }
        }
        None
    }
}
