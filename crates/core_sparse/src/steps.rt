// What a pivot makes of the numbers of a tableau, one operation and one row after the other.
ghost use Rattle.std.specs.Prelude.{◌≡◌, ◌≢◌, ◌↔◌, ℕ, ◌<◌, IfOk, IsErr, IsTrue, OnOk, Err};
ghost use Rattle.std.specs.Prelude.{length, map, get_or, unsigned_abs};
ghost use Rattle.fractions.specs.Fraction.{zero_q, ◌-ℚ◌, ◌*ℚ◌, ◌/ℚ◌};
ghost use Rattle.fractions.specs.Leaves.{OverLeaves, LessTimesLeaves};
ghost use Rattle.core_dict.specs.Rows.{EntriesLeave};
ghost use Rattle.core_sparse.specs.Items.{number as number_of, AreItems, IsRising};
ghost use Rattle.core_sparse.specs.Steps.{entry_of, AreKept, AreAfter, IsAfter, RowLeaves};
ghost use Rattle.core_sparse.specs.Steps.{IsMade, IsPut};

use crate::fault::Fault;
use crate::find::number;
use crate::merge::merge;
use crate::row::{Item, Row, Slot};
use core_dict::{divided, is_zero};
use exact_frac::Exact;
use std::mem;

// The items of another row, or of the costs, afterwards, where `q` is in the pivot's column.
fn other_items<E: Exact>(
    before: &Vec<Item<E>>,
    own: &Vec<Item<E>>,
    pivot: E,
    q: E,
    col: usize,
    cols: usize,
    after: &mut Vec<Item<E>>,
) -> Result<(), Fault>
    requires before { AreItems E.value cols before.now.items }
    requires own { AreItems E.value cols own.now.items }
    requires pivot { E.value pivot ≢ zero_q }
    requires turned { number_of E.value own.now.items col ≢ zero_q }
    requires q { E.value q ≡ number_of E.value before.now.items col }
    ensures exact { OnOk result
        (AreAfter E.value cols (E.value pivot) col own.now.items before.now.items after.new.items) }
    ensures fits { OnOk result (¬ (EntriesLeave (unsigned_abs E.MOST) cols (E.value pivot) col
        (number_of E.value own.now.items) (number_of E.value before.now.items))) }
    ensures left { result ≡ Err Fault.Left
        → EntriesLeave (unsigned_abs E.MOST) cols (E.value pivot) col
        (number_of E.value own.now.items) (number_of E.value before.now.items) }
{
    let turned = divided(q, pivot)?.negated();
    after.clear();
    merge(before, own, q, turned, col, cols, after)?;
    Ok(())
}

// Another row afterwards.
fn other_row<E: Exact>(
    before: &Row<E>,
    own: &Row<E>,
    pivot: E,
    q: E,
    col: usize,
    cols: usize,
    after: &mut Row<E>,
) -> Result<(), Fault>
    requires before { AreItems E.value cols before.now.items.items }
    requires own { AreItems E.value cols own.now.items.items }
    requires pivot { E.value pivot ≢ zero_q }
    requires turned { entry_of E.value own.now col ≢ zero_q }
    requires q { E.value q ≡ entry_of E.value before.now col }
    ensures exact { OnOk result
        (IsAfter E.value cols (E.value pivot) col own.now before.now after.new) }
    ensures fits { OnOk result
        (¬ (RowLeaves (unsigned_abs E.MOST) E.value cols (E.value pivot) col own.now before.now)) }
    ensures left { result ≡ Err Fault.Left
        → RowLeaves (unsigned_abs E.MOST) E.value cols (E.value pivot) col own.now before.now }
{
    other_items(
        &before.items,
        &own.items,
        pivot,
        q,
        col,
        cols,
        &mut after.items,
    )?;
    after.value = before.value.less_times(q, own.value)?;
    Ok(())
}

// Makes another row in its room, where it changes.
fn make<E: Exact>(
    slot: &mut Slot<E>,
    own: &Row<E>,
    pivot: E,
    col: usize,
    cols: usize,
) -> Result<(), Fault>
    requires before { AreItems E.value cols slot.old.row.items.items }
    requires own { AreItems E.value cols own.now.items.items }
    requires pivot { E.value pivot ≢ zero_q }
    requires turned { entry_of E.value own.now col ≢ zero_q }
    ensures row { slot.new.row ≡ slot.old.row }
    ensures exact { OnOk result (IsMade E.value cols (E.value pivot) col own.now slot.new) }
    ensures fits { OnOk result
        (¬ (RowLeaves (unsigned_abs E.MOST) E.value cols (E.value pivot) col own.now
        slot.old.row)) }
    ensures left { result ≡ Err Fault.Left
        → RowLeaves (unsigned_abs E.MOST) E.value cols (E.value pivot) col own.now slot.old.row }
{
    let q = number(&slot.row.items, col);
    slot.made = !is_zero(q);
    if slot.made {
        other_row(&slot.row, own, pivot, q, col, cols, &mut slot.spare)?;
    }
    Ok(())
}

/// Makes each row but the pivot's own in its room, where it changes.
pub fn make_others<E: Exact>(
    slots: &mut [Slot<E>],
    own: &Row<E>,
    pivot: E,
    row: usize,
    col: usize,
    cols: usize,
) -> Result<(), Fault>
    requires before { AreKept E.value cols slots.old }
    requires own { AreItems E.value cols own.now.items.items }
    requires pivot { E.value pivot ≢ zero_q }
    requires turned { entry_of E.value own.now col ≢ zero_q }
    ensures rows { map (λ x. x.row) slots.new ≡ map (λ x. x.row) slots.old }
    ensures exact { OnOk result ((k : ℕ) (x : _) → k < length slots.new → k ≢ row
        → IsMade E.value cols (E.value pivot) col own.now (get_or slots.new k x)) }
    ensures fits { OnOk result ((k : ℕ) (x : _) → k < length slots.old → k ≢ row
        → ¬ (RowLeaves (unsigned_abs E.MOST) E.value cols (E.value pivot) col own.now
        (get_or slots.old k x).row)) }
    ensures left { result ≡ Err Fault.Left
        → (k : ℕ) × (k < length slots.old) × (k ≢ row) × ((x : _)
        → RowLeaves (unsigned_abs E.MOST) E.value cols (E.value pivot) col own.now
        (get_or slots.old k x).row) }
{
    for i in 0..slots.len() {
        if i != row {
            make(&mut slots[i], own, pivot, col, cols)?;
        }
    }
    Ok(())
}

/// Makes the costs in their room, where they change.
pub fn make_costs<E: Exact>(
    costs: &Vec<Item<E>>,
    own: &Vec<Item<E>>,
    pivot: E,
    col: usize,
    cols: usize,
    after: &mut Vec<Item<E>>,
) -> Result<(), Fault>
    requires before { AreItems E.value cols costs.now.items }
    requires own { AreItems E.value cols own.now.items }
    requires pivot { E.value pivot ≢ zero_q }
    requires turned { number_of E.value own.now.items col ≢ zero_q }
    ensures exact { OnOk result (number_of E.value costs.now.items col ≢ zero_q
        → AreAfter E.value cols (E.value pivot) col own.now.items costs.now.items after.new.items) }
    ensures fits { OnOk result (¬ (EntriesLeave (unsigned_abs E.MOST) cols (E.value pivot) col
        (number_of E.value own.now.items) (number_of E.value costs.now.items))) }
    ensures left { result ≡ Err Fault.Left
        → EntriesLeave (unsigned_abs E.MOST) cols (E.value pivot) col
        (number_of E.value own.now.items) (number_of E.value costs.now.items) }
{
    let q = number(costs, col);
    if is_zero(q) {
        return Ok(());
    }
    other_items(costs, own, pivot, q, col, cols, after)?;
    Ok(())
}

// Puts what was made of a row in its place, where it changes.
fn exchange<E: Exact>(slot: &mut Slot<E>)
    ensures { IsPut slot.old slot.new }
{
    if slot.made {
        mem::swap(&mut slot.row, &mut slot.spare);
    }
}

/// Puts what was made of each row in its place, where it changes.
pub fn exchange_all<E: Exact>(slots: &mut [Slot<E>])
    ensures { (k : ℕ) (x : _) → k < length slots.old
        → IsPut (get_or slots.old k x) (get_or slots.new k x) }
{
    for i in 0..slots.len() {
        exchange(&mut slots[i]);
    }
}

/// Puts what was made of the costs in their place, where they change.
pub fn exchange_costs<E: Exact>(costs: &mut Vec<Item<E>>, spare: &mut Vec<Item<E>>, col: usize)
    requires { IsRising costs.old.items }
    ensures changed { number_of E.value costs.old.items col ≢ zero_q
        → costs.new.items ≡ spare.old.items }
    ensures same { number_of E.value costs.old.items col ≡ zero_q
        → costs.new.items ≡ costs.old.items }
{
    if !is_zero(number(costs, col)) {
        mem::swap(costs, spare);
    }
}
