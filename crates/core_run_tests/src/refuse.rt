// A dictionary that is refused memory at one of its pivots.
use core_dict::{Dense, PivotFault, Programme, RowEntry, Store, Widen};
use exact_frac::{Exact, Frac64, Frac128};
use std::alloc::{AllocError, Global};

/// A dense dictionary whose K-th pivot, counted from its start or its widening, has no memory. Where K is 0 each has.
#[derive(Drop)]
pub struct Refuse<E, const K: u64> {
    calls: u64,
    under: Dense<E>,
}

impl<E: Exact, const K: u64> Store<E> for Refuse<E, K> {
    ghost use Rattle.std.specs.Prelude.{true};
    ghost use Rattle.core_dict.specs.Dense.{dense_of};
    ghost use Rattle.core_dict.specs.DenseLaw.{dense_is_dictionary};

    const TAKES_MEMORY: bool = true;

    ghost TAKES_MEMORY = { true };

    ghost dictionary = { λ s. dense_of E.value s.under };

    fn start(alloc: Global, programme: &Programme) -> Result<Self, AllocError> {
        Ok(Refuse {
            calls: 0,
            under: Dense::start(alloc, programme)?,
        })
    }

    fn rows(&self) -> usize {
        self.under.rows()
    }

    fn cols(&self) -> usize {
        self.under.cols()
    }

    fn basic(&self, row: usize) -> u32 {
        self.under.basic(row)
    }

    fn nonbasic(&self, col: usize) -> u32 {
        self.under.nonbasic(col)
    }

    fn value(&self, row: usize) -> E {
        self.under.value(row)
    }

    fn entry(&self, row: usize, col: usize) -> E {
        self.under.entry(row, col)
    }

    fn next_entry(&self, row: usize, from: usize, place: usize) -> Option<RowEntry<E>> {
        self.under.next_entry(row, from, place)
    }

    fn cost(&self, col: usize) -> E {
        self.under.cost(col)
    }

    fn pivot(&mut self, alloc: Global, row: usize, col: usize) -> Result<(), PivotFault> {
        self.calls = self.calls.saturating_add(1);
        if K != 0 && self.calls == K {
            return Err(PivotFault::NoMemory);
        }
        self.under.pivot(alloc, row, col)
    }

    ghost is_dictionary = { λ s. dense_is_dictionary E.value s.under };
}

impl<const A: u64, const B: u64> Widen<Refuse<Frac128, B>> for Refuse<Frac64, A> {
    fn widen(&self, alloc: Global) -> Result<Refuse<Frac128, B>, AllocError> {
        Ok(Refuse {
            calls: 0,
            under: self.under.widen(alloc)?,
        })
    }
}
