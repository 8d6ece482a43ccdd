// A tableau at 128 bits.
ghost use Rattle.std.specs.Prelude.{◌≡◌, ℕ, ◌<◌, IfOk, length, map, get_or};
ghost use Rattle.exact_frac.specs.Value64.{value64};
ghost use Rattle.exact_frac.specs.Value128.{value128};
ghost use Rattle.core_dict.specs.Rows.{IsWidened};

use crate::fill::room;
use crate::row::{Row, Slot};
use exact_frac::{Exact, Frac64, Frac128};
use std::alloc::{AllocError, Global};

/// The same numbers at 128 bits.
pub fn wide_numbers(alloc: Global, numbers: &[Frac64]) -> Result<Vec<Frac128>, AllocError>
    ensures { IfOk result (λ v. map value128 v.items ≡ map value64 numbers.now) }
{
    let mut all = Vec::with_capacity(alloc, numbers.len())?;
    for number in numbers {
        all.push(number.wide())?;
    }
    Ok(all)
}

// The same row, with room of its own.
fn wide_slot(alloc: Global, slot: &Slot<Frac64>) -> Result<Slot<Frac128>, AllocError>
    ensures { IfOk result (IsWidened value64 value128 slot.now) }
{
    let row = Row {
        entries: wide_numbers(alloc, &slot.row.entries)?,
        value: slot.row.value.wide(),
    };
    let spare = room(alloc, slot.row.entries.len())?;
    Ok(Slot { row, spare })
}

/// The same rows.
pub fn wide_slots(alloc: Global, slots: &[Slot<Frac64>]) -> Result<Vec<Slot<Frac128>>, AllocError>
    ensures rows { IfOk result (λ v. length v.items ≡ length slots.now) }
    ensures each { IfOk result (λ v. (k : ℕ) (y x : _) → k < length slots.now
        → IsWidened value64 value128 (get_or slots.now k x) (get_or v.items k y)) }
{
    let mut all = Vec::with_capacity(alloc, slots.len())?;
    for slot in slots {
        all.push(wide_slot(alloc, slot)?)?;
    }
    Ok(all)
}
