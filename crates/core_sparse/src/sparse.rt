// A tableau that keeps the entries that are not 0.
ghost use Rattle.std.specs.Prelude.{◌≡◌, ◌≢◌, ◌<◌, length, Err, OnOk, unsigned_abs};
ghost use Rattle.fractions.specs.Fraction.{zero_q};
ghost use Rattle.core_dict.specs.Variables.{HaveVariables};
ghost use Rattle.core_sparse.specs.Items.{AreItems, AreItemsOf};
ghost use Rattle.core_sparse.specs.Steps.{AreKept};

use crate::fault::Fault;
use crate::fill::{costs, room, slots};
use crate::find::{next_item, number};
use crate::own::own_row;
use crate::row::{Item, Row, Slot};
use crate::shift::{column_of, make_values, place_values};
use crate::steps::{exchange_all, exchange_costs, make_costs, make_others};
use crate::widen::{wide_items, wide_slots};
use core_dict::{PivotFault, Programme, RowEntry, Shift, Store, Widen, variables_from};
use exact_frac::{Exact, Frac64, Frac128, Left};
use std::alloc::{AllocError, Global};
use std::mem;

/// A dictionary that keeps the entries that are not 0, and room for what a pivot makes of its rows.
/// A row with entry 0 in the pivot's column is neither computed nor copied nor moved.
#[derive(Drop)]
pub struct Sparse<E: Exact> {
    slots: Vec<Slot<E>>,
    costs: Vec<Item<E>>,
    basic: Vec<u32>,
    nonbasic: Vec<u32>,
    own: Row<E>,
    spare_costs: Vec<Item<E>>,
    ghost rows: { length slots.items ≡ length basic.items },
    ghost kept: { AreKept E.value (length nonbasic.items) slots.items },
    ghost costs_kept: { AreItems E.value (length nonbasic.items) costs.items },
    ghost variables: { HaveVariables basic.items nonbasic.items },
}

impl<E: Exact> Sparse<E> {
    ghost use Rattle.core_dict.specs.Pivot.{pivot as pivot_of};
    ghost use Rattle.core_dict.specs.Leaving.{PivotLeaves};
    ghost use Rattle.core_sparse.specs.Sparse.{sparse_of, IsPrepared};

    /// The entries of a row that are not 0: one item for each, by rising position of its column.
    pub fn row(&self, row: usize) -> &[Item<E>]
        requires { row < (sparse_of E.value self.now).rows }
        ensures { let d = sparse_of E.value self.now in
            AreItemsOf E.value d.cols (d.entry row) result.now }
    {
        &self.slots[row].row.items
    }

    // Makes in the tableau's room what a pivot makes of it.
    fn prepare(&mut self, row: usize, col: usize) -> Result<(), Fault>
        requires row_in { row < length self.old.basic.items }
        requires col_in { col < length self.old.nonbasic.items }
        requires entry { (sparse_of E.value self.old).entry row col ≢ zero_q }
        ensures same { sparse_of E.value self.new ≡ sparse_of E.value self.old }
        ensures prepared { OnOk result
            (IsPrepared E.value row col self.new.slots.items self.new.costs.items
            self.new.basic.items self.new.nonbasic.items self.new.own self.new.spare_costs.items) }
        ensures fits { OnOk result
            (¬ (PivotLeaves (unsigned_abs E.MOST) (sparse_of E.value self.old) row col)) }
        ensures left { result ≡ Err Fault.Left
            → PivotLeaves (unsigned_abs E.MOST) (sparse_of E.value self.old) row col }
    {
        let cols = self.nonbasic.len();
        let slot = &self.slots[row];
        let pivot = number(&slot.row.items, col);
        own_row(&slot.row, pivot, col, cols, &mut self.own)?;
        make_others(&mut self.slots, &self.own, pivot, row, col, cols)?;
        make_costs(
            &self.costs,
            &self.own.items,
            pivot,
            col,
            cols,
            &mut self.spare_costs,
        )?;
        Ok(())
    }

    // Puts what is in the tableau's room in place.
    fn exchange(&mut self, row: usize, col: usize)
        requires row_in { row < length self.old.basic.items }
        requires col_in { col < length self.old.nonbasic.items }
        requires entry { (sparse_of E.value self.old).entry row col ≢ zero_q }
        requires prepared { IsPrepared E.value row col self.old.slots.items self.old.costs.items
            self.old.basic.items self.old.nonbasic.items self.old.own self.old.spare_costs.items }
        ensures { sparse_of E.value self.new ≡ pivot_of (sparse_of E.value self.old) row col }
    {
        let slot = &mut self.slots[row];
        mem::swap(&mut slot.spare, &mut self.own);
        slot.made = true;
        exchange_all(&mut self.slots);
        exchange_costs(&mut self.costs, &mut self.spare_costs, col);
        mem::swap(&mut self.basic[row], &mut self.nonbasic[col]);
    }
}

impl<E: Exact> Store<E> for Sparse<E> {
    ghost use Rattle.std.specs.Prelude.{true};
    ghost use Rattle.core_sparse.specs.Sparse.{sparse_of};
    ghost use Rattle.core_sparse.specs.SparseLaw.{sparse_is_dictionary};

    const TAKES_MEMORY: bool = true;

    ghost TAKES_MEMORY = { true };

    ghost dictionary = { sparse_of E.value };

    fn start(alloc: Global, programme: &Programme) -> Result<Self, AllocError> {
        let rows = programme.rows();
        let cols = programme.cols();
        Ok(Sparse {
            slots: slots(alloc, programme)?,
            costs: costs(alloc, cols)?,
            basic: variables_from(alloc, cols as u32 + 1, rows)?,
            nonbasic: variables_from(alloc, 1, cols)?,
            own: room(alloc),
            spare_costs: Vec::new(alloc),
        })
    }

    fn rows(&self) -> usize {
        self.basic.len()
    }

    fn cols(&self) -> usize {
        self.nonbasic.len()
    }

    fn basic(&self, row: usize) -> u32 {
        self.basic[row]
    }

    fn nonbasic(&self, col: usize) -> u32 {
        self.nonbasic[col]
    }

    fn value(&self, row: usize) -> E {
        self.slots[row].row.value
    }

    fn entry(&self, row: usize, col: usize) -> E {
        number(&self.slots[row].row.items, col)
    }

    fn next_entry(&self, row: usize, from: usize, place: usize) -> Option<RowEntry<E>> {
        next_item(&self.slots[row].row.items, from, place)
    }

    fn cost(&self, col: usize) -> E {
        number(&self.costs, col)
    }

    fn pivot(&mut self, _alloc: Global, row: usize, col: usize) -> Result<(), PivotFault> {
        match self.prepare(row, col) {
            Ok(()) => {
                self.exchange(row, col);
                Ok(())
            }
            Err(Fault::Left) => Err(PivotFault::Left),
            Err(Fault::NoMemory) => Err(PivotFault::NoMemory),
        }
    }

    ghost is_dictionary = { λ s. sparse_is_dictionary s };
}

impl Widen<Sparse<Frac128>> for Sparse<Frac64> {
    fn widen(&self, alloc: Global) -> Result<Sparse<Frac128>, AllocError> {
        Ok(Sparse {
            slots: wide_slots(alloc, &self.slots)?,
            costs: wide_items(alloc, &self.costs)?,
            basic: Vec::from_slice(alloc, &self.basic)?,
            nonbasic: Vec::from_slice(alloc, &self.nonbasic)?,
            own: room(alloc),
            spare_costs: Vec::new(alloc),
        })
    }
}

impl Shift for Sparse<Frac128> {
    fn shift(&mut self, _alloc: Global, row: usize, by: i64) -> Result<(), PivotFault> {
        let variable = self.nonbasic.len() + row + 1;
        let col = column_of(&self.nonbasic, variable);
        let by = Frac128::of_whole(by);
        match make_values(&mut self.slots, &self.basic, variable, col, by) {
            Ok(()) => {
                place_values(&mut self.slots);
                Ok(())
            }
            Err(Left) => Err(PivotFault::Left),
        }
    }
}
