// Where an item of a row stands.
ghost use Rattle.std.specs.Prelude.{◌≡◌, ◌<◌, ◌≤◌, ℕ, suc, get_or, length, IsTrue};
ghost use Rattle.core_dict.specs.NextEntry.{IsNextEntry};
ghost use Rattle.core_sparse.specs.Items.{columns, col_at, number as number_of};
ghost use Rattle.core_sparse.specs.Items.{AreItems, IsRising, Stands};

use crate::row::Item;
use core_dict::RowEntry;
use exact_frac::Exact;

/// The column of the item at a place, or another where there is none.
#[inline(always)]
pub fn column<E: Exact>(items: &[Item<E>], place: usize, past: usize) -> usize
    ensures { result ≡ get_or (columns items.now) place past }
{
    if place < items.len() {
        items[place].col
    } else {
        past
    }
}

/// The place of the first item that does not stand before a column. Most columns stand before the
/// first item or behind the last one.
#[inline(always)]
pub fn place_of<E: Exact>(items: &[Item<E>], col: usize) -> usize
    requires { IsRising items.now }
    ensures { Stands items.now col result }
{
    if col <= column(items, 0, col) {
        return 0;
    }
    if ends_before(items, items.len(), col) {
        return items.len();
    }
    place_among(items, col)
}

// The same by halves.
fn place_among<E: Exact>(items: &[Item<E>], col: usize) -> usize
    requires { IsRising items.now }
    ensures { Stands items.now col result }
{
    let mut low = 0;
    let mut high = items.len();
    while low < high {
        let middle = low + (high - low) / 2;
        if items[middle].col < col {
            low = middle + 1;
        } else {
            high = middle;
        }
    }
    low
}

/// The number in a column, for a walk that stands there, and the place where the walk goes on.
#[inline(always)]
pub fn take<E: Exact>(items: &[Item<E>], place: usize, col: usize) -> (E, usize)
    requires rising { IsRising items.now }
    requires stands { Stands items.now col place }
    ensures value { E.value result.0 ≡ number_of E.value items.now col }
    ensures stands { Stands items.now (suc col) result.1 }
{
    if place < items.len() && items[place].col == col {
        return (items[place].value, place + 1);
    }
    (E::zero(), place)
}

/// The number in a column.
pub fn number<E: Exact>(items: &Vec<Item<E>>, col: usize) -> E
    requires { IsRising items.now.items }
    ensures { E.value result ≡ number_of E.value items.now.items col }
{
    let (value, _place) = take(items, place_of(items, col), col);
    value
}

// Whether the item before a place, if there is one, stands before a column.
#[inline(always)]
fn ends_before<E: Exact>(items: &[Item<E>], place: usize, col: usize) -> bool
    requires { IsRising items.now }
    ensures { IsTrue result → (k : ℕ) → k < place → k < length items.now
        → col_at items.now k < col }
{
    place == 0 || column(items, place - 1, col) < col
}

/// The place of the first item that does not stand before a column, where the search begins at a
/// place.
#[inline(always)]
pub fn place_from<E: Exact>(items: &[Item<E>], col: usize, place: usize) -> usize
    requires { IsRising items.now }
    ensures { Stands items.now col result }
{
    if ends_before(items, place, col) && col <= column(items, place, col) {
        return place;
    }
    place_of(items, col)
}

/// The first item from a column on, or none, where the search begins at a place. The item behind
/// an answer stands at its place.
pub fn next_item<E: Exact>(items: &Vec<Item<E>>, from: usize, place: usize) -> Option<RowEntry<E>>
    requires { IsRising items.now.items }
    ensures { (n : ℕ) → AreItems E.value n items.now.items
        → IsNextEntry E.value n (number_of E.value items.now.items) from result }
{
    let place = place_from(items, from, place);
    if place >= items.len() {
        return None;
    }
    let item = items[place];
    Some(RowEntry {
        col: item.col,
        value: item.value,
        place: place + 1,
    })
}
