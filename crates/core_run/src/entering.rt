// Which column enters.
ghost use Rattle.std.specs.Prelude.{◌≡◌, ◌+◌, ◌<◌, ◌↔◌, IfOk, IsErr, unsigned_abs};
ghost use Rattle.core_rules.specs.Candidates.{lower_value};
ghost use Rattle.core_run.specs.Choice.{entering_column as entering_column_of};
ghost use Rattle.core_run.specs.SoFar.{ColumnLeaves, IsColumnSoFar, column_of};
ghost use Rattle.core_run.specs.Widths.{RatioLeaves};

use crate::signs::is_negative;
use core_dict::{RowEntry, Store};
use exact_frac::{Exact, Left};
use std::cmp::Ordering;

/// A column that may enter, by its position from 0, with its variable and its ratio.
#[derive(Clone, Copy)]
pub struct ColumnSoFar<E: Exact> {
    col: usize,
    var: u32,
    ratio: E,
}

impl<E: Exact> ColumnSoFar<E> {
    // Whether the ratio is lower than the other one's, or is the same and the variable is lower.
    fn is_before(&self, other: &ColumnSoFar<E>) -> bool
        ensures { result ≡ lower_value (column_of E.value other.now) (column_of E.value self.now) }
    {
        match self.ratio.cmp(&other.ratio) {
            Ordering::Less => true,
            Ordering::Equal => self.var < other.var,
            Ordering::Greater => false,
        }
    }
}

/// Of the columns with a negative entry in the row, the one with the least ratio, and of equal ones
/// the one with the least variable; none where no entry is negative. `Left` exactly where one of
/// the ratios leaves.
pub fn entering_column<E: Exact, D: Store<E>>(dict: &D, row: usize) -> Result<Option<usize>, Left>
    requires { row < (D.dictionary dict.now).rows }
    ensures chosen { IfOk result (λ col. col ≡ entering_column_of (D.dictionary dict.now) row) }
    ensures left { IsErr result ↔ RatioLeaves (unsigned_abs E.MOST) (D.dictionary dict.now) row }
{
    let cols = dict.cols();
    let mut so_far = None;
    let mut from = 0;
    let mut place = 0;
    while from < cols {
        match dict.next_entry(row, from, place) {
            Some(next) => {
                so_far = column_after(dict, row, next, so_far)?;
                from = next.col + 1;
                place = next.place;
            }
            None => from = cols,
        }
    }
    Ok(so_far.map(|k: ColumnSoFar<E>| k.col))
}

// The column so far, after that of one more entry. Left exactly where the entry is negative and
// the column's ratio leaves.
fn column_after<E: Exact, D: Store<E>>(
    dict: &D,
    row: usize,
    entry: RowEntry<E>,
    so_far: Option<ColumnSoFar<E>>,
) -> Result<Option<ColumnSoFar<E>>, Left>
    requires col_in { entry.col < (D.dictionary dict.now).cols }
    requires entry { E.value entry.value ≡ (D.dictionary dict.now).entry row entry.col }
    requires so_far { IsColumnSoFar E.value (D.dictionary dict.now) row entry.col so_far }
    ensures so_far { let d = D.dictionary dict.now in
        IfOk result (IsColumnSoFar E.value d row (entry.col + 1)) }
    ensures left { let d = D.dictionary dict.now in
        IsErr result ↔ ColumnLeaves (unsigned_abs E.MOST) d row entry.col }
{
    if !is_negative(entry.value) {
        return Ok(so_far);
    }
    let next = ColumnSoFar {
        col: entry.col,
        var: dict.nonbasic(entry.col),
        ratio: dict.cost(entry.col).over(entry.value.negated())?,
    };
    let Some(held) = so_far else {
        return Ok(Some(next));
    };
    if next.is_before(&held) {
        Ok(Some(next))
    } else {
        Ok(Some(held))
    }
}
