// The items of a row from those of two rows, by rising column.
ghost use Rattle.std.specs.Prelude.{◌≡◌, ◌≢◌, ◌↔◌, ℕ, ◌<◌, ◌≤◌, [], false, if◌then◌else◌};
ghost use Rattle.std.specs.Prelude.{OnOk, Err, IfOk, IsErr, unsigned_abs};
ghost use Rattle.fractions.specs.Fraction.{zero_q, ◌-ℚ◌, ◌*ℚ◌};
ghost use Rattle.fractions.specs.Leaves.{LessTimesLeaves};
ghost use Rattle.core_sparse.specs.Items.{number as number_of, AreItems, Stands};
ghost use Rattle.core_sparse.specs.Steps.{merged, AreBefore, IsCopied};

use crate::fault::Fault;
use crate::find::{column, take};
use crate::keep::keep;
use crate::row::Item;
use exact_frac::{Exact, Left};
use std::alloc::AllocError;

// The number in a column afterwards, from those before and in the pivot's own row.
#[inline(always)]
fn number_after<E: Exact>(a: E, b: E, q: E, turned: E, is_pivot: bool) -> Result<E, Left>
    ensures exact { IfOk result (λ x. E.value x
        ≡ (if is_pivot then E.value turned else E.value a -ℚ E.value q *ℚ E.value b)) }
    ensures left { IsErr result ↔ ((is_pivot ≡ false)
        × LessTimesLeaves (unsigned_abs E.MOST) (E.value a) (E.value q) (E.value b)) }
{
    if is_pivot {
        return Ok(turned);
    }
    a.less_times(q, b)
}

// Puts the items of a row that stand before a column behind others, for a walk that stands at the
// column `from` and a place, and answers the place where it stands then.
#[inline(always)]
fn copied<E: Exact>(
    before: &[Item<E>],
    place: usize,
    from: usize,
    until: usize,
    cols: usize,
    after: &mut Vec<Item<E>>,
) -> Result<usize, AllocError>
    requires before { AreItems E.value cols before.now }
    requires stands { Stands before.now from place }
    requires kept { AreItems E.value cols after.old.items }
    requires below { AreBefore from after.old.items }
    requires order { from ≤ until }
    requires until { until ≤ cols }
    ensures { IfOk result
        (IsCopied E.value cols before.now from until after.old.items after.new.items) }
{
    let mut place = place;
    let mut j = column(before, place, until).min(until);
    while j < until {
        let (a, next) = take(before, place, j);
        keep(after, j, a)?;
        place = next;
        j = column(before, place, until).min(until);
    }
    Ok(place)
}

/// Each number less q times the pivot's own one, and `turned` in the pivot's column.
pub fn merge<E: Exact>(
    before: &[Item<E>],
    own: &[Item<E>],
    q: E,
    turned: E,
    col: usize,
    cols: usize,
    after: &mut Vec<Item<E>>,
) -> Result<(), Fault>
    requires before { AreItems E.value cols before.now }
    requires own { AreItems E.value cols own.now }
    requires pivot { number_of E.value own.now col ≢ zero_q }
    requires empty { after.old.items ≡ [] }
    ensures kept { OnOk result (AreItems E.value cols after.new.items) }
    ensures exact { OnOk result ((j : ℕ) → j < cols → number_of E.value after.new.items j
        ≡ merged col (E.value q) (E.value turned) (number_of E.value before.now)
        (number_of E.value own.now) j) }
    ensures fits { OnOk result ((j : ℕ) → j < cols → j ≢ col
        → ¬ (LessTimesLeaves (unsigned_abs E.MOST) (number_of E.value before.now j) (E.value q)
        (number_of E.value own.now j))) }
    ensures left { result ≡ Err Fault.Left → (j : ℕ) × (j < cols) × (j ≢ col)
        × LessTimesLeaves (unsigned_abs E.MOST) (number_of E.value before.now j) (E.value q)
        (number_of E.value own.now j) }
{
    after.reserve(before.len() + own.len())?;
    let mut k = 0;
    let mut j = column(own, 0, cols);
    let mut i = copied(before, 0, 0, j, cols, after)?;
    while j < cols {
        let (a, next) = take(before, i, j);
        let (b, next_own) = take(own, k, j);
        let value = number_after(a, b, q, turned, j == col)?;
        keep(after, j, value)?;
        let from = j + 1;
        k = next_own;
        j = column(own, k, cols);
        i = copied(before, next, from, j, cols, after)?;
    }
    Ok(())
}
