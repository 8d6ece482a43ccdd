// Dictionaries that keep the entries that are not 0, beside those that keep all.
use crate::dict::{pivot_all, text_of, widened};
use crate::exact::pair;
use crate::runs::{leaves_64, leaves_128, near_62, ran_wide, run_of, start_of, two_scenarios};
use crate::same::is_same;
use core_dict::{Dense, Programme, Shift, Store, Widen};
use core_run::{End, RunFault};
use core_sparse::Sparse;
use exact_frac::{Exact, Frac64, Frac128};
use std::alloc::{AllocError, Global};
use std::process::Abort;

/// Looks that a row has these items, each a column and its numbers.
fn items_are<E: Exact>(
    rt: &impl Abort,
    dict: &Sparse<E>,
    row: usize,
    wanted: &[(usize, (i128, i128))],
) {
    assert!(rt; row < dict.rows());
    let items = dict.row(row);
    is_same(rt, items.len(), wanted.len());
    for (item, wanted) in items.iter().zip(wanted) {
        is_same(rt, (item.col, pair(item.value)), *wanted);
    }
}

#[test]
fn the_items_of_the_start(rt: HostRuntime) {
    let alloc = rt.alloc();
    let dict: Sparse<Frac64> = start_of(&rt, alloc, &two_scenarios(&rt, alloc));
    items_are(&rt, &dict, 0, &[(0, (1, 1)), (1, (1, 1))]);
    items_are(&rt, &dict, 2, &[(0, (1, 1))]);
}

/// The text of the dictionary that a run leaves, and what the run comes to.
fn text_after<E: Exact, D: Store<E>>(
    alloc: Global,
    programme: &Programme,
    budget: u64,
) -> Result<(String, Result<End, RunFault>), AllocError> {
    let (dict, end) = run_of::<E, D>(alloc, programme, budget)?;
    Ok((text_of(alloc, &dict)?, end))
}

/// What the run of a programme comes to with a budget, over two kinds of dictionaries that are the same afterwards,
/// number by number.
fn run_is_same<E: Exact, A: Store<E>, B: Store<E>>(
    rt: &impl Abort,
    alloc: Global,
    programme: &Programme,
    budget: u64,
) -> Result<Result<End, RunFault>, AllocError> {
    let (one, end) = text_after::<E, A>(alloc, programme, budget)?;
    let (other, other_end) = text_after::<E, B>(alloc, programme, budget)?;
    is_same(rt, end, other_end);
    is_same(rt, one.as_str(), other.as_str());
    Ok(end)
}

/// Looks that the runs with each budget are the same over sparse dictionaries as over dense ones, and what the last
/// comes to.
fn runs_are_same<E: Exact, A: Store<E>, B: Store<E>>(
    rt: &impl Abort,
    alloc: Global,
    programme: &Programme,
    most: u64,
    wanted: Result<End, RunFault>,
) {
    let mut end = Err(RunFault::NoMemory);
    for budget in 0..=most {
        end = run_is_same::<E, A, B>(rt, alloc, programme, budget).expect(rt, "memory");
    }
    is_same(rt, end, wanted);
}

/// Looks so at 64 and at 128 bits.
fn both_are_same(
    rt: &impl Abort,
    alloc: Global,
    programme: Programme,
    most: u64,
    narrow: Result<End, RunFault>,
    wide: Result<End, RunFault>,
) {
    runs_are_same::<Frac64, Sparse<Frac64>, Dense<Frac64>>(rt, alloc, &programme, most, narrow);
    runs_are_same::<Frac128, Sparse<Frac128>, Dense<Frac128>>(rt, alloc, &programme, most, wide);
}

#[test]
fn runs_are_those_of_dense_dictionaries(rt: HostRuntime) {
    let alloc = rt.alloc();
    let four = Ok(End::Optimal { pivots: 4 });
    both_are_same(&rt, alloc, two_scenarios(&rt, alloc), 4, four, four);
    let three = Ok(End::Optimal { pivots: 3 });
    both_are_same(&rt, alloc, near_62(&rt, alloc), 3, three, three);
    let leaves = Err(RunFault::TooWide { pivot: 1 });
    both_are_same(
        &rt,
        alloc,
        leaves_64(&rt, alloc),
        2,
        leaves,
        Ok(End::Optimal { pivots: 2 }),
    );
    both_are_same(
        &rt,
        alloc,
        leaves_128(&rt, alloc),
        2,
        leaves,
        Err(RunFault::TooWide { pivot: 2 }),
    );
}

/// The bound of a row of the programme grows by a number.
fn shift<D: Shift>(rt: &impl Abort, alloc: Global, dict: &mut D, row: usize, by: i64) {
    assert!(rt; row < dict.rows() && by.unsigned_abs() <= 1 << 62);
    is_same(rt, dict.shift(alloc, row, by), Ok(()));
}

/// Looks that the rows have these values.
fn values_are<E: Exact, D: Store<E>>(rt: &impl Abort, dict: &D, wanted: &[(i128, i128)]) {
    is_same(rt, dict.rows(), wanted.len());
    for (i, value) in wanted.iter().enumerate() {
        assert!(rt; i < dict.rows());
        is_same(rt, pair(dict.value(i)), *value);
    }
}

#[test]
fn a_shift_moves_each_value_by_its_slacks_coefficient(rt: HostRuntime) {
    let alloc = rt.alloc();
    let mut dict: Sparse<Frac128> = start_of(&rt, alloc, &two_scenarios(&rt, alloc));
    // the slack of row 6 is basic in that row alone
    shift(&rt, alloc, &mut dict, 6, 3);
    let moved = [1, -1, 1, 1, 0, 0, -7, 0, 0, -10].map(|value| (value, 1));
    values_are(&rt, &dict, &moved);
    // and after the pivot of row 6 it stands in column 0
    shift(&rt, alloc, &mut dict, 6, -3);
    pivot_all(&rt, alloc, &mut dict, &[(6, 0)]);
    shift(&rt, alloc, &mut dict, 6, -8);
    let moved = [
        (-5, 4),
        (5, 4),
        (-5, 4),
        (1, 1),
        (18, 1),
        (18, 1),
        (9, 4),
        (27, 4),
        (27, 4),
        (-13, 4),
    ];
    values_are(&rt, &dict, &moved);
}

#[test]
fn a_pivot_that_leaves_64_bits_changes_nothing(rt: HostRuntime) {
    let _wide = widened::<Sparse<Frac64>, Sparse<Frac128>>(&rt, rt.alloc());
}

/// The text of the dictionary that a run at two widths leaves, which goes on at 128 bits.
fn text_at_two_widths<N: Widen<W>, W: Store<Frac128>>(rt: &impl Abort, alloc: Global) -> String {
    let two = End::Optimal { pivots: 2 };
    let dict = ran_wide::<N, W>(rt, alloc, &leaves_64(rt, alloc), 2, two);
    text_of(alloc, &dict).expect(rt, "memory")
}

#[test]
fn a_run_at_two_widths_is_that_of_a_dense_dictionary(rt: HostRuntime) {
    let alloc = rt.alloc();
    let sparse = text_at_two_widths::<Sparse<Frac64>, Sparse<Frac128>>(&rt, alloc);
    let dense = text_at_two_widths::<Dense<Frac64>, Dense<Frac128>>(&rt, alloc);
    is_same(&rt, sparse.as_str(), dense.as_str());
}
