// Items that are put behind those of a row.
ghost use Rattle.std.specs.Prelude.{◌≡◌, ◌≢◌, ℕ, ◌<◌, ◌≤◌, ◌++◌, [], ◌∷◌, OnOk, length};
ghost use Rattle.core_sparse.specs.Items.{number as number_of, col_at, AreItems};
ghost use Rattle.core_sparse.specs.declared.row.Item.{Item};

use crate::row::Item;
use core_dict::is_zero;
use exact_frac::Exact;
use std::alloc::AllocError;

/// Puts an item behind the others.
#[inline(always)]
pub fn push<E: Exact>(items: &mut Vec<Item<E>>, col: usize, value: E) -> Result<(), AllocError>
    ensures { OnOk result
        (items.new.items ≡ items.old.items ++ (record { col = col; value = value }) ∷ []) }
{
    items.push(Item { col, value })?;
    Ok(())
}

/// Puts a number behind the items of a row, where it is not 0.
#[inline(always)]
pub fn keep<E: Exact>(items: &mut Vec<Item<E>>, col: usize, value: E) -> Result<(), AllocError>
    requires behind { (k : ℕ) → k < length items.old.items → col_at items.old.items k < col }
    ensures kept { OnOk result ((n : ℕ) → col < n → AreItems E.value n items.old.items
        → AreItems E.value n items.new.items) }
    ensures below { OnOk result ((k : ℕ) → k < length items.new.items
        → col_at items.new.items k ≤ col) }
    ensures here { OnOk result (number_of E.value items.new.items col ≡ E.value value) }
    ensures others { OnOk result ((j : ℕ) → j ≢ col
        → number_of E.value items.new.items j ≡ number_of E.value items.old.items j) }
{
    if is_zero(value) {
        return Ok(());
    }
    push(items, col, value)?;
    Ok(())
}
