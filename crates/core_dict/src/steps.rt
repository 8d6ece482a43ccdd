// What a pivot makes of the rows of a tableau, one row after the other.
ghost use Rattle.std.specs.Prelude.{◌≡◌, ◌≢◌, ◌↔◌, ℕ, ◌<◌, ◌==◌, if◌then◌else◌, IfOk, IsErr, IsTrue, OnOk, OnErr, length, map, get_or, unsigned_abs};
ghost use Rattle.std.specs.List.{AllWithin};
ghost use Rattle.fractions.specs.Fraction.{zero_q, ◌-ℚ◌, ◌*ℚ◌, ◌/ℚ◌};
ghost use Rattle.fractions.specs.Leaves.{OverLeaves, LessTimesLeaves};
ghost use Rattle.core_dict.specs.Rows.{fraction_at, width, entry_of, divided_entry, entry_after};
ghost use Rattle.core_dict.specs.Rows.{IsOwnAfter, OwnRowLeaves, EntriesLeave, IsAfter, RowLeaves};
ghost use Rattle.core_dict.specs.Rows.{IsWide, AreWide, IsMade, IsExchanged};

use crate::numbers::{divided, is_zero};
use crate::row::{Row, Slot};
use exact_frac::{Exact, Left};
use std::mem;

// The entries of the pivot's own row afterwards.
fn own_entries<E: Exact>(before: &[E], col: usize, after: &mut [E]) -> Result<(), Left>
    requires same { length after.old ≡ length before.now }
    requires col_in { col < length before.now }
    requires pivot { fraction_at E.value before.now col ≢ zero_q }
    ensures exact { let a = fraction_at E.value before.now in
        OnOk result ((j : ℕ) → j < length before.now
        → fraction_at E.value after.new j ≡ divided_entry col a j /ℚ a col) }
    ensures fits { let a = fraction_at E.value before.now in
        OnOk result ((j : ℕ) → j < length before.now
        → ¬ (OverLeaves (unsigned_abs E.MOST) (divided_entry col a j) (a col))) }
    ensures left { let a = fraction_at E.value before.now in
        OnErr result ((j : ℕ) × (j < length before.now)
        × OverLeaves (unsigned_abs E.MOST) (divided_entry col a j) (a col)) }
{
    let pivot = before[col];
    for j in 0..before.len() {
        let a = if j == col { E::one() } else { before[j] };
        after[j] = divided(a, pivot)?;
    }
    Ok(())
}

// An entry of another row, or of the costs, afterwards, where `turned` is the one in the pivot's
// column.
fn other_entry<E: Exact>(
    before: &[E],
    own: &[E],
    turned: E,
    col: usize,
    j: usize,
) -> Result<E, Left>
    requires own_in { length own.now ≡ length before.now }
    requires col_in { col < length before.now }
    requires place_in { j < length before.now }
    ensures exact { let a = fraction_at E.value before.now in
        IfOk result (λ x. E.value x
        ≡ (if j == col then E.value turned else a j -ℚ a col *ℚ fraction_at E.value own.now j)) }
    ensures left { let a = fraction_at E.value before.now in
        IsErr result ↔ ((j ≢ col) × LessTimesLeaves (unsigned_abs E.MOST) (a j) (a col)
        (fraction_at E.value own.now j)) }
{
    if j == col {
        return Ok(turned);
    }
    before[j].less_times(before[col], own[j])
}

// The entries of another row, or the costs, afterwards.
pub fn other_entries<E: Exact>(
    before: &[E],
    own: &[E],
    pivot: E,
    col: usize,
    after: &mut [E],
) -> Result<(), Left>
    requires same { length after.old ≡ length before.now }
    requires own_in { length own.now ≡ length before.now }
    requires col_in { col < length before.now }
    requires pivot { E.value pivot ≢ zero_q }
    ensures exact { let a = fraction_at E.value before.now in
        OnOk result ((j : ℕ) → j < length before.now
        → fraction_at E.value after.new j
        ≡ entry_after (E.value pivot) col (fraction_at E.value own.now) a j) }
    ensures fits { let a = fraction_at E.value before.now in
        OnOk result (¬ (EntriesLeave (unsigned_abs E.MOST) (length before.now) (E.value pivot) col
        (fraction_at E.value own.now) a)) }
    ensures left { let a = fraction_at E.value before.now in
        OnErr result (EntriesLeave (unsigned_abs E.MOST) (length before.now) (E.value pivot) col
        (fraction_at E.value own.now) a) }
{
    let turned = divided(before[col], pivot)?.negated();
    for j in 0..before.len() {
        after[j] = other_entry(before, own, turned, col, j)?;
    }
    Ok(())
}

/// The pivot's own row afterwards.
pub fn own_row<E: Exact>(before: &Row<E>, col: usize, after: &mut Row<E>) -> Result<(), Left>
    requires same { width after.old ≡ width before.now }
    requires col_in { col < width before.now }
    requires pivot { entry_of E.value before.now col ≢ zero_q }
    ensures width { width after.new ≡ width after.old }
    ensures exact { OnOk result (IsOwnAfter E.value col before.now after.new) }
    ensures fits { OnOk result (¬ (OwnRowLeaves (unsigned_abs E.MOST) E.value col before.now)) }
    ensures left { OnErr result (OwnRowLeaves (unsigned_abs E.MOST) E.value col before.now) }
{
    own_entries(&before.entries, col, &mut after.entries)?;
    after.value = divided(before.value, before.entries[col])?;
    Ok(())
}

// Another row afterwards.
fn other_row<E: Exact>(
    before: &Row<E>,
    own: &Row<E>,
    pivot: E,
    col: usize,
    after: &mut Row<E>,
) -> Result<(), Left>
    requires same { width after.old ≡ width before.now }
    requires own_in { width own.now ≡ width before.now }
    requires col_in { col < width before.now }
    requires pivot { E.value pivot ≢ zero_q }
    ensures width { width after.new ≡ width after.old }
    ensures exact { OnOk result (IsAfter E.value (E.value pivot) col own.now before.now after.new) }
    ensures fits { OnOk result
        (¬ (RowLeaves (unsigned_abs E.MOST) E.value (E.value pivot) col own.now before.now)) }
    ensures left { OnErr result
        (RowLeaves (unsigned_abs E.MOST) E.value (E.value pivot) col own.now before.now) }
{
    other_entries(
        &before.entries,
        &own.entries,
        pivot,
        col,
        &mut after.entries,
    )?;
    after.value = before.value.less_times(before.entries[col], own.value)?;
    Ok(())
}

// Makes another row in its room, where it changes.
fn make<E: Exact>(slot: &mut Slot<E>, own: &Row<E>, pivot: E, col: usize) -> Result<(), Left>
    requires wide { IsWide (width own.now) slot.old }
    requires col_in { col < width own.now }
    requires pivot { E.value pivot ≢ zero_q }
    ensures row { slot.new.row ≡ slot.old.row }
    ensures wide { IsWide (width own.now) slot.new }
    ensures exact { OnOk result (IsMade E.value (E.value pivot) col own.now slot.new) }
    ensures fits { OnOk result
        (¬ (RowLeaves (unsigned_abs E.MOST) E.value (E.value pivot) col own.now slot.old.row)) }
    ensures left { OnErr result
        (RowLeaves (unsigned_abs E.MOST) E.value (E.value pivot) col own.now slot.old.row) }
{
    if is_zero(slot.row.entries[col]) {
        return Ok(());
    }
    other_row(&slot.row, own, pivot, col, &mut slot.spare)
}

/// Makes each row but the pivot's own in its room, where it changes.
pub fn make_others<E: Exact>(
    slots: &mut [Slot<E>],
    own: &Row<E>,
    pivot: E,
    row: usize,
    col: usize,
) -> Result<(), Left>
    requires wide { AreWide (width own.now) slots.old }
    requires col_in { col < width own.now }
    requires pivot { E.value pivot ≢ zero_q }
    ensures rows { map (λ x. x.row) slots.new ≡ map (λ x. x.row) slots.old }
    ensures wide { AreWide (width own.now) slots.new }
    ensures exact { OnOk result ((k : ℕ) (x : _) → k < length slots.new → k ≢ row
        → IsMade E.value (E.value pivot) col own.now (get_or slots.new k x)) }
    ensures fits { OnOk result ((k : ℕ) (x : _) → k < length slots.old → k ≢ row
        → ¬ (RowLeaves (unsigned_abs E.MOST) E.value (E.value pivot) col own.now
        (get_or slots.old k x).row)) }
    ensures left { OnErr result ((k : ℕ) × (k < length slots.old) × (k ≢ row) × ((x : _)
        → RowLeaves (unsigned_abs E.MOST) E.value (E.value pivot) col own.now
        (get_or slots.old k x).row)) }
{
    for i in 0..slots.len() {
        if i != row {
            make(&mut slots[i], own, pivot, col)?;
        }
    }
    Ok(())
}

// Puts what was made of a row in its place, where it changes.
fn exchange<E: Exact>(slot: &mut Slot<E>, col: usize)
    requires { col < width slot.old.row }
    ensures { IsExchanged E.value col slot.old slot.new }
{
    if !is_zero(slot.row.entries[col]) {
        mem::swap(&mut slot.row, &mut slot.spare);
    }
}

/// Puts what was made of each row in its place, where it changes.
pub fn exchange_all<E: Exact>(slots: &mut [Slot<E>], col: usize)
    requires { AllWithin (λ x. col < width x.row) slots.old 0 (length slots.old) }
    ensures { (k : ℕ) (x : _) → k < length slots.old
        → IsExchanged E.value col (get_or slots.old k x) (get_or slots.new k x) }
{
    for i in 0..slots.len() {
        exchange(&mut slots[i], col);
    }
}
