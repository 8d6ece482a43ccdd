// What a shift makes of the values of the rows.
ghost use Rattle.std.specs.Prelude.{◌≡◌, ◌↔◌, ℕ, ◌<◌, ◌+◌, ◌*◌, ◌==◌, if◌then◌else◌};
ghost use Rattle.std.specs.Prelude.{IfOk, IsErr, OnOk, OnErr, length, map, get_or, unsigned_abs};
ghost use Rattle.fractions.specs.Fraction.{one_q, ◌+ℚ◌, ◌*ℚ◌};
ghost use Rattle.core_sparse.specs.Items.{number as number_of, IsRising};
ghost use Rattle.core_sparse.specs.Moved.{StandsIn, coefficient_of, MoveLeaves};
ghost use Rattle.core_sparse.specs.Moved.{ValueLeaves, IsMoved, IsPlaced};

use crate::find::number;
use crate::row::{Item, Slot};
use exact_frac::{Exact, Left};

/// The column in which a variable stands, or the number of columns where it stands in none.
pub fn column_of(nonbasic: &[u32], variable: usize) -> usize
    requires { (i j : ℕ) → i < length nonbasic.now → j < length nonbasic.now
        → get_or nonbasic.now i 0 ≡ get_or nonbasic.now j 0 → i ≡ j }
    ensures { StandsIn nonbasic.now variable result }
{
    for j in 0..nonbasic.len() {
        if nonbasic[j] as usize == variable {
            return j;
        }
    }
    nonbasic.len()
}

// The coefficient of a variable that stands in a column or in none, in a row with a basic variable.
fn coefficient<E: Exact>(items: &Vec<Item<E>>, basic: u32, variable: usize, col: usize) -> E
    requires { IsRising items.now.items }
    ensures { E.value result
        ≡ (if basic == variable then one_q else number_of E.value items.now.items col) }
{
    if basic as usize == variable {
        return E::one();
    }
    number(items, col)
}

// A value that moves by a coefficient times a number.
fn moved<E: Exact>(value: E, coefficient: E, by: E) -> Result<E, Left>
    ensures exact { IfOk result (λ x. E.value x
        ≡ E.value value +ℚ E.value coefficient *ℚ E.value by) }
    ensures left { IsErr result ↔ MoveLeaves (unsigned_abs E.MOST) (E.value value)
        (E.value coefficient) (E.value by) }
{
    value.plus(coefficient.times(by)?)
}

// Makes the value of a row in its room.
fn make_value<E: Exact>(
    slot: &mut Slot<E>,
    basic: u32,
    variable: usize,
    col: usize,
    by: E,
) -> Result<(), Left>
    requires { IsRising slot.old.row.items.items }
    ensures row { slot.new.row ≡ slot.old.row }
    ensures exact { OnOk result (IsMoved E.value variable col (E.value by) basic slot.new) }
    ensures fits { OnOk result (¬ (ValueLeaves (unsigned_abs E.MOST) E.value variable col
        (E.value by) basic slot.old.row)) }
    ensures left { OnErr result (ValueLeaves (unsigned_abs E.MOST) E.value variable col
        (E.value by) basic slot.old.row) }
{
    let coefficient = coefficient(&slot.row.items, basic, variable, col);
    slot.spare.value = moved(slot.row.value, coefficient, by)?;
    Ok(())
}

/// Makes the value of each row in its room, where the bound of the row with slack `variable` grows.
pub fn make_values<E: Exact>(
    slots: &mut [Slot<E>],
    basic: &[u32],
    variable: usize,
    col: usize,
    by: E,
) -> Result<(), Left>
    requires rows { length slots.old ≡ length basic.now }
    requires rising { (k : ℕ) (x : _) → k < length slots.old
        → IsRising (get_or slots.old k x).row.items.items }
    ensures rows { map (λ x. x.row) slots.new ≡ map (λ x. x.row) slots.old }
    ensures exact { OnOk result ((k : ℕ) (x : _) → k < length slots.new
        → IsMoved E.value variable col (E.value by) (get_or basic.now k 0)
        (get_or slots.new k x)) }
    ensures fits { OnOk result ((k : ℕ) (x : _) → k < length slots.old
        → ¬ (ValueLeaves (unsigned_abs E.MOST) E.value variable col (E.value by)
        (get_or basic.now k 0) (get_or slots.old k x).row)) }
    ensures left { OnErr result ((k : ℕ) × (k < length slots.old) × ((x : _)
        → ValueLeaves (unsigned_abs E.MOST) E.value variable col (E.value by)
        (get_or basic.now k 0) (get_or slots.old k x).row)) }
{
    for i in 0..slots.len() {
        make_value(&mut slots[i], basic[i], variable, col, by)?;
    }
    Ok(())
}

// Puts the value in a row's room in place.
fn place_value<E: Exact>(slot: &mut Slot<E>)
    ensures { IsPlaced slot.old slot.new }
{
    slot.row.value = slot.spare.value;
}

/// Puts the value in each row's room in place.
pub fn place_values<E: Exact>(slots: &mut [Slot<E>])
    ensures { (k : ℕ) (x : _) → k < length slots.old
        → IsPlaced (get_or slots.old k x) (get_or slots.new k x) }
{
    for i in 0..slots.len() {
        place_value(&mut slots[i]);
    }
}
