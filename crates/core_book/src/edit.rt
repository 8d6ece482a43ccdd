// An edit of a case.
ghost use Rattle.std.specs.Prelude.{◌≡◌, ◌<◌, ◌≤◌, length, set};
ghost use Rattle.core_sums.specs.Places.{row_at};
ghost use Rattle.core_book.specs.Edits.{IsEdit, applied, tier_at, with_limit, with_tier};
ghost use Rattle.core_book.specs.Inside.{book_view, depth_view};
ghost use Rattle.core_book.specs.WellFormed.{IsCase};

use crate::book::Book;
use crate::case::Case;
use crate::parts::Tier;

/// A number of a case that is replaced by an amount. Instruments, pools and lines are by index from 0.
#[derive(Clone, Copy, Debug, PartialEq, Eq)]
pub enum Edit {
    /// The limit of an instrument's tier on a closing day: 0 to 10^9.
    Limit {
        instrument: usize,
        day: u8,
        tier: u8,
        amount: i64,
    },
    /// The cap of a pool: 0 to 10^9.
    Cap {
        pool: usize,
        amount: i64,
    },
    /// The amount of a line, whose sign stays: 1 to 10^9.
    Line {
        line: usize,
        amount: i64,
    },
    /// The fixed cash of a house day: at most 10^15 in absolute value.
    Cash {
        day: u8,
        amount: i64,
    },
}

/// Puts a number at a place of a list.
fn put_number(list: &mut Vec<i64>, i: usize, number: i64)
    requires { i < length list.old.items }
    ensures { list.new.items ≡ set list.old.items i number }
{
    list[i] = number;
}

/// Replaces the limit of a tier on a closing day, both from 1.
fn put_limit(depth: &mut Vec<Vec<Tier>>, i: usize, u: u8, j: u8, amount: i64)
    requires instrument { i < length depth.old.items }
    requires day { 1 ≤ u }
    requires tier { 1 ≤ j }
    requires tiers { j ≤ length (row_at (depth_view depth.old.items) i) }
    requires days { u ≤ length (tier_at (depth_view depth.old.items) i j).limits }
    ensures { depth_view depth.new.items
        ≡ with_tier (depth_view depth.old.items) i j
        (with_limit (tier_at (depth_view depth.old.items) i j) u amount) }
{
    let tiers = &mut depth[i];
    let tier = &mut tiers[j as usize - 1];
    put_number(&mut tier.limits, u as usize - 1, amount);
}

/// Replaces a number of a book.
fn put(book: &mut Book, edit: &Edit)
    requires kept { IsCase (book_view book.old) }
    requires edit { IsEdit (book_view book.old) edit.now }
    ensures { book_view book.new ≡ applied (book_view book.old) edit.now }
{
    match *edit {
        Edit::Limit {
            instrument,
            day,
            tier,
            amount,
        } => put_limit(&mut book.depth, instrument, day, tier, amount),
        Edit::Cap { pool, amount } => book.pools[pool].cap = amount,
        Edit::Line { line, amount } => book.lines[line].amount = amount,
        Edit::Cash { day, amount } => put_number(&mut book.cash, day as usize, amount),
    }
}

impl Case {
    ghost use Rattle.std.specs.Prelude.{◌≡◌};
    ghost use Rattle.core_book.specs.Edits.{IsEdit, applied};

    /// Replaces one number of the case; all else stays, a line's sign too. It takes no memory.
    pub fn apply(&mut self, edit: &Edit)
        requires { IsEdit self.old edit.now }
        ensures { self.new ≡ applied self.old edit.now }
    {
        put(&mut self.book, edit);
    }
}
