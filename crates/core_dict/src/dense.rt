// A tableau that keeps every entry.
ghost use Rattle.std.specs.Prelude.{◌≡◌, ◌≢◌, ◌<◌, ◌≤◌, length, IfOk, OnOk, OnErr, unsigned_abs};
ghost use Rattle.fractions.specs.Fraction.{zero_q};
ghost use Rattle.core_dict.specs.Rows.{AreWide, width};
ghost use Rattle.core_dict.specs.Variables.{HaveVariables};

use crate::fill::{costs, room, slots, zeros};
use crate::numbers::variables_from;
use crate::row::{Row, Slot};
use crate::steps::{exchange_all, make_others, other_entries, own_row};
use crate::widen::{wide_numbers, wide_slots};
use crate::{PivotFault, Programme, RowEntry, Store, Widen};
use exact_frac::{Exact, Frac64, Frac128, Left};
use std::alloc::{AllocError, Global};
use std::mem;

/// A dictionary that keeps every entry, and room for what a pivot makes of it, so that no pivot
/// takes memory. A row with entry 0 in the pivot's column is neither computed nor moved.
#[derive(Drop)]
pub struct Dense<E> {
    slots: Vec<Slot<E>>,
    costs: Vec<E>,
    basic: Vec<u32>,
    nonbasic: Vec<u32>,
    own: Row<E>,
    spare_costs: Vec<E>,
    ghost rows: { length slots.items ≡ length basic.items },
    ghost wide: { AreWide (length nonbasic.items) slots.items },
    ghost costs_in: { length costs.items ≡ length nonbasic.items },
    ghost own_in: { width own ≡ length nonbasic.items },
    ghost spare_in: { length spare_costs.items ≡ length nonbasic.items },
    ghost variables: { HaveVariables basic.items nonbasic.items },
}

impl<E: Exact> Dense<E> {
    ghost use Rattle.core_dict.specs.Dense.{dense_of, IsPrepared};
    ghost use Rattle.core_dict.specs.Pivot.{pivot as pivot_of};
    ghost use Rattle.core_dict.specs.Leaving.{PivotLeaves};

    // Makes in the tableau's room what a pivot makes of it.
    fn prepare(&mut self, row: usize, col: usize) -> Result<(), Left>
        requires row_in { row < length self.old.basic.items }
        requires col_in { col < length self.old.nonbasic.items }
        requires entry { (dense_of E.value self.old).entry row col ≢ zero_q }
        ensures same { dense_of E.value self.new ≡ dense_of E.value self.old }
        ensures prepared { OnOk result
            (IsPrepared E.value row col self.new.slots.items self.new.costs.items
            self.new.basic.items self.new.nonbasic.items self.new.own self.new.spare_costs.items) }
        ensures fits { OnOk result
            (¬ (PivotLeaves (unsigned_abs E.MOST) (dense_of E.value self.old) row col)) }
        ensures left { OnErr result
            (PivotLeaves (unsigned_abs E.MOST) (dense_of E.value self.old) row col) }
    {
        let slot = &self.slots[row];
        let pivot = slot.row.entries[col];
        own_row(&slot.row, col, &mut self.own)?;
        make_others(&mut self.slots, &self.own, pivot, row, col)?;
        other_entries(
            &self.costs,
            &self.own.entries,
            pivot,
            col,
            &mut self.spare_costs,
        )
    }

    // Puts what is in the tableau's room in place.
    fn exchange(&mut self, row: usize, col: usize)
        requires row_in { row < length self.old.basic.items }
        requires col_in { col < length self.old.nonbasic.items }
        requires entry { (dense_of E.value self.old).entry row col ≢ zero_q }
        requires prepared { IsPrepared E.value row col self.old.slots.items self.old.costs.items
            self.old.basic.items self.old.nonbasic.items self.old.own self.old.spare_costs.items }
        ensures { dense_of E.value self.new ≡ pivot_of (dense_of E.value self.old) row col }
    {
        mem::swap(&mut self.slots[row].spare, &mut self.own);
        exchange_all(&mut self.slots, col);
        mem::swap(&mut self.costs, &mut self.spare_costs);
        mem::swap(&mut self.basic[row], &mut self.nonbasic[col]);
    }
}

impl<E: Exact> Store<E> for Dense<E> {
    ghost use Rattle.std.specs.Prelude.{false};
    ghost use Rattle.core_dict.specs.Dense.{dense_of};
    ghost use Rattle.core_dict.specs.DenseLaw.{dense_is_dictionary};

    const TAKES_MEMORY: bool = false;

    ghost TAKES_MEMORY = { false };

    ghost dictionary = { dense_of E.value };

    fn start(alloc: Global, programme: &Programme) -> Result<Self, AllocError> {
        let rows = programme.rows();
        let cols = programme.cols();
        Ok(Dense {
            slots: slots(alloc, programme)?,
            costs: costs(alloc, cols)?,
            basic: variables_from(alloc, cols as u32 + 1, rows)?,
            nonbasic: variables_from(alloc, 1, cols)?,
            own: room(alloc, cols)?,
            spare_costs: zeros(alloc, cols)?,
        })
    }

    fn rows(&self) -> usize {
        self.basic.len()
    }

    fn cols(&self) -> usize {
        self.nonbasic.len()
    }

    fn basic(&self, row: usize) -> u32 {
        self.basic[row]
    }

    fn nonbasic(&self, col: usize) -> u32 {
        self.nonbasic[col]
    }

    fn value(&self, row: usize) -> E {
        self.slots[row].row.value
    }

    fn entry(&self, row: usize, col: usize) -> E {
        self.slots[row].row.entries[col]
    }

    fn next_entry(&self, row: usize, from: usize, _place: usize) -> Option<RowEntry<E>> {
        self.slots[row].row.next_entry(from)
    }

    fn cost(&self, col: usize) -> E {
        self.costs[col]
    }

    fn pivot(&mut self, _alloc: Global, row: usize, col: usize) -> Result<(), PivotFault> {
        match self.prepare(row, col) {
            Ok(()) => {
                self.exchange(row, col);
                Ok(())
            }
            Err(Left) => Err(PivotFault::Left),
        }
    }

    ghost is_dictionary = { λ s. dense_is_dictionary E.value s };
}

impl Widen<Dense<Frac128>> for Dense<Frac64> {
    fn widen(&self, alloc: Global) -> Result<Dense<Frac128>, AllocError> {
        let cols = self.nonbasic.len();
        Ok(Dense {
            slots: wide_slots(alloc, &self.slots)?,
            costs: wide_numbers(alloc, &self.costs)?,
            basic: Vec::from_slice(alloc, &self.basic)?,
            nonbasic: Vec::from_slice(alloc, &self.nonbasic)?,
            own: room(alloc, cols)?,
            spare_costs: zeros(alloc, cols)?,
        })
    }
}
