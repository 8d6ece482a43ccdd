// What a pivot makes of its own row.
ghost use Rattle.std.specs.Prelude.{◌≡◌, ◌≢◌, ◌↔◌, ◌==◌, ℕ, ◌<◌, []};
ghost use Rattle.std.specs.Prelude.{if◌then◌else◌, IfOk, IsErr, OnOk, Err, length, unsigned_abs};
ghost use Rattle.fractions.specs.Fraction.{zero_q, one_q, ◌/ℚ◌};
ghost use Rattle.fractions.specs.Leaves.{OverLeaves};
ghost use Rattle.core_sparse.specs.Items.{AreItems};
ghost use Rattle.core_sparse.specs.Steps.{entry_of, divided_value, AreDivided, IsOwnAfter, OwnRowLeaves};

use crate::fault::Fault;
use crate::keep::push;
use crate::row::{Item, Row};
use core_dict::divided;
use exact_frac::{Exact, Left};

// An entry of the pivot's own row afterwards.
fn item_divided<E: Exact>(at: usize, value: E, pivot: E, col: usize) -> Result<E, Left>
    requires { E.value pivot ≢ zero_q }
    ensures exact { IfOk result (λ x. E.value x
        ≡ (if at == col then one_q else E.value value) /ℚ E.value pivot) }
    ensures left { IsErr result ↔ OverLeaves (unsigned_abs E.MOST)
        (if at == col then one_q else E.value value) (E.value pivot) }
{
    if at == col {
        return E::one().over(pivot);
    }
    value.over(pivot)
}

// The items of the pivot's own row afterwards.
fn own_items<E: Exact>(
    before: &[Item<E>],
    pivot: E,
    col: usize,
    after: &mut Vec<Item<E>>,
) -> Result<(), Fault>
    requires pivot { E.value pivot ≢ zero_q }
    requires empty { after.old.items ≡ [] }
    ensures exact { OnOk result
        (AreDivided E.value col (E.value pivot) before.now after.new.items) }
    ensures fits { OnOk result ((k : ℕ) → k < length before.now
        → ¬ (OverLeaves (unsigned_abs E.MOST) (divided_value E.value col before.now k)
        (E.value pivot))) }
    ensures left { result ≡ Err Fault.Left → (k : ℕ) × (k < length before.now)
        × OverLeaves (unsigned_abs E.MOST) (divided_value E.value col before.now k)
        (E.value pivot) }
{
    after.reserve(before.len())?;
    for item in before {
        let value = item_divided(item.col, item.value, pivot, col)?;
        push(after, item.col, value)?;
    }
    Ok(())
}

/// The pivot's own row afterwards.
pub fn own_row<E: Exact>(
    before: &Row<E>,
    pivot: E,
    col: usize,
    cols: usize,
    after: &mut Row<E>,
) -> Result<(), Fault>
    requires before { AreItems E.value cols before.now.items.items }
    requires pivot { E.value pivot ≢ zero_q }
    requires entry { E.value pivot ≡ entry_of E.value before.now col }
    ensures exact { OnOk result (IsOwnAfter E.value cols col before.now after.new) }
    ensures fits { OnOk result
        (¬ (OwnRowLeaves (unsigned_abs E.MOST) E.value cols col before.now)) }
    ensures left { result ≡ Err Fault.Left
        → OwnRowLeaves (unsigned_abs E.MOST) E.value cols col before.now }
{
    after.items.clear();
    own_items(&before.items, pivot, col, &mut after.items)?;
    after.value = divided(before.value, pivot)?;
    Ok(())
}
