// A dictionary behind a trait, at two widths.
ghost use Rattle.std.specs.Prelude.{◌≡◌, ◌≢◌, ◌↔◌, ◌≤◌, ◌<◌, ◌+◌, suc, Bool, true, pos};
ghost use Rattle.std.specs.Prelude.{unsigned_abs, Ok, Err, IfOk, OnOk, OnErr};
ghost use Rattle.core_sums.specs.Widths.{most, most64};
ghost use Rattle.fractions.specs.Fraction.{zero_q};
ghost use Rattle.core_dict.specs.Dictionary.{Dictionary, start as start_of, slack_of, IsDictionary};
ghost use Rattle.core_dict.specs.Pivot.{pivot as pivot_of};
ghost use Rattle.core_dict.specs.Leaving.{PivotLeaves};
ghost use Rattle.core_dict.specs.NextEntry.{IsNextEntry};
ghost use Rattle.core_dict.specs.Shift.{shifted, ShiftLeaves};

use crate::Programme;
use exact_frac::{Exact, Frac64, Frac128};
use std::alloc::{AllocError, Global};

/// Why a dictionary was not changed.
#[derive(Clone, Copy, Debug, PartialEq, Eq)]
pub enum PivotFault {
    /// One of the operations left the type.
    Left,
    /// Memory was refused.
    NoMemory,
}

/// An entry of a row that is not 0, and the place where a search for the next one begins.
#[derive(Clone, Copy, Debug)]
pub struct RowEntry<E> {
    pub col: usize,
    pub value: E,
    pub place: usize,
}

/// A dictionary. Rows and columns are known by their positions from 0, variables by their numbers
/// from 1.
pub trait Store<E: Exact>: Sized + Drop {
    /// Whether a pivot may want memory.
    const TAKES_MEMORY: bool;

    ghost TAKES_MEMORY: { Bool };

    /// The dictionary that it holds.
    ghost dictionary: { Self → Dictionary };

    /// The start dictionary of a programme.
    fn start(alloc: Global, programme: &Programme) -> Result<Self, AllocError>
        ensures { IfOk result (λ s. dictionary s ≡ start_of programme.now) };

    /// The number of rows.
    fn rows(&self) -> usize
        ensures { result ≡ (dictionary self.now).rows };

    /// The number of columns.
    fn cols(&self) -> usize
        ensures { result ≡ (dictionary self.now).cols };

    /// The basic variable of a row.
    fn basic(&self, row: usize) -> u32
        requires { row < (dictionary self.now).rows }
        ensures { result ≡ (dictionary self.now).basic row };

    /// The variable of a column.
    fn nonbasic(&self, col: usize) -> u32
        requires { col < (dictionary self.now).cols }
        ensures { result ≡ (dictionary self.now).nonbasic col };

    /// The value of a row.
    fn value(&self, row: usize) -> E
        requires { row < (dictionary self.now).rows }
        ensures { E.value result ≡ (dictionary self.now).value row };

    /// The entry of a row in a column.
    fn entry(&self, row: usize, col: usize) -> E
        requires row_in { row < (dictionary self.now).rows }
        requires col_in { col < (dictionary self.now).cols }
        ensures { E.value result ≡ (dictionary self.now).entry row col };

    /// The first entry of a row, from a column on, that is not 0, or none. The search begins at
    /// `place`: no column and no value depends on it, and an answer's own place is the quickest for
    /// the columns behind it.
    fn next_entry(&self, row: usize, from: usize, place: usize) -> Option<RowEntry<E>>
        requires { row < (dictionary self.now).rows }
        ensures { let d = dictionary self.now in
            IsNextEntry E.value d.cols (d.entry row) from result };

    /// The cost of a column.
    fn cost(&self, col: usize) -> E
        requires { col < (dictionary self.now).cols }
        ensures { E.value result ≡ (dictionary self.now).cost col };

    /// Pivots on a row and a column, or changes nothing.
    fn pivot(&mut self, alloc: Global, row: usize, col: usize) -> Result<(), PivotFault>
        requires row_in { row < (dictionary self.old).rows }
        requires col_in { col < (dictionary self.old).cols }
        requires entry { (dictionary self.old).entry row col ≢ zero_q }
        ensures pivoted { OnOk result
            (dictionary self.new ≡ pivot_of (dictionary self.old) row col) }
        ensures fits { OnOk result
            (¬ (PivotLeaves (unsigned_abs E.MOST) (dictionary self.old) row col)) }
        ensures left { result ≡ Err PivotFault.Left
            → PivotLeaves (unsigned_abs E.MOST) (dictionary self.old) row col }
        ensures memory { result ≡ Err PivotFault.NoMemory → TAKES_MEMORY ≡ true }
        ensures unchanged { OnErr result (dictionary self.new ≡ dictionary self.old) };

    /// What it holds is a dictionary.
    ghost is_dictionary: { (s : Self) → IsDictionary (dictionary s) };
}

/// A dictionary that has the same one at 128 bits.
pub trait Widen<W: Store<Frac128>>: Store<Frac64> {
    /// The same dictionary at 128 bits.
    fn widen(&self, alloc: Global) -> Result<W, AllocError>
        ensures { IfOk result (λ w. W.dictionary w ≡ Self.dictionary self.now) };
}

/// A dictionary that follows the bounds of its programme.
pub trait Shift: Store<Frac128> {
    /// The bound of a row of the programme, by position from 0, grows by `by`. Left changes nothing.
    fn shift(&mut self, alloc: Global, row: usize, by: i64) -> Result<(), PivotFault>
        requires row_in { row < (Self.dictionary self.old).rows }
        requires small { unsigned_abs by ≤ most64 }
        ensures moved { let d = Self.dictionary self.old in
            OnOk result (Self.dictionary self.new ≡ shifted d (slack_of d row) by) }
        ensures fits { let d = Self.dictionary self.old in
            OnOk result (¬ (ShiftLeaves most d (slack_of d row) by)) }
        ensures left { let d = Self.dictionary self.old in
            result ≡ Err PivotFault.Left → ShiftLeaves most d (slack_of d row) by }
        ensures memory { result ≡ Err PivotFault.NoMemory → Self.TAKES_MEMORY ≡ true }
        ensures unchanged { OnErr result (Self.dictionary self.new ≡ Self.dictionary self.old) };
}
