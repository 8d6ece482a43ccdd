// A tableau at 128 bits.
ghost use Rattle.std.specs.Prelude.{◌≡◌, ℕ, ◌<◌, IfOk, length, get_or};
ghost use Rattle.exact_frac.specs.Value64.{value64};
ghost use Rattle.exact_frac.specs.Value128.{value128};
ghost use Rattle.core_sparse.specs.Steps.{AreSame, IsWidened};

use crate::fill::room;
use crate::keep::push;
use crate::row::{Item, Row, Slot};
use exact_frac::{Exact, Frac64, Frac128};
use std::alloc::{AllocError, Global};

/// The same items at 128 bits.
pub fn wide_items(alloc: Global, items: &[Item<Frac64>]) -> Result<Vec<Item<Frac128>>, AllocError>
    ensures { IfOk result (λ v. AreSame value64 value128 items.now v.items) }
{
    let mut all = Vec::with_capacity(alloc, items.len())?;
    for item in items {
        push(&mut all, item.col, item.value.wide())?;
    }
    Ok(all)
}

// The same row, with room beside it.
fn wide_slot(alloc: Global, slot: &Slot<Frac64>) -> Result<Slot<Frac128>, AllocError>
    ensures { IfOk result (IsWidened value64 value128 slot.now) }
{
    let row = Row {
        items: wide_items(alloc, &slot.row.items)?,
        value: slot.row.value.wide(),
    };
    Ok(Slot {
        row,
        spare: room(alloc),
        made: false,
    })
}

/// The same rows.
pub fn wide_slots(alloc: Global, slots: &[Slot<Frac64>]) -> Result<Vec<Slot<Frac128>>, AllocError>
    ensures rows { IfOk result (λ v. length v.items ≡ length slots.now) }
    ensures each { IfOk result (λ v. (k : ℕ) (y x : _) → k < length slots.now
        → IsWidened value64 value128 (get_or slots.now k x) (get_or v.items k y)) }
{
    let mut all = Vec::with_capacity(alloc, slots.len())?;
    for slot in slots {
        all.push(wide_slot(alloc, slot)?)?;
    }
    Ok(all)
}
