// The numbers that stand in the last dictionary of a run, over common denominators.
use crate::runs::{leaves_64, near_62, programme, ran_wide};
use crate::same::is_same;
use core_dict::{Dense, Programme, Store};
use core_duals::{DualFault, Scaled, duals, farkas, primal};
use core_run::End;
use exact_frac::{Frac64, Frac128};
use std::alloc::Global;
use std::process::Abort;

/// A position of 100 to be closed on five days at most 10 a day, where the price stays: its columns are what is closed
/// on each day, and the loss.
const LIMITS_TOO_SMALL: [([i64; 6], i64); 13] = [
    ([1, 1, 1, 1, 1, 0], 100),
    ([-1, -1, -1, -1, -1, 0], -100),
    ([1, 0, 0, 0, 0, 0], 10),
    ([0, 1, 0, 0, 0, 0], 10),
    ([0, 0, 1, 0, 0, 0], 10),
    ([0, 0, 0, 1, 0, 0], 10),
    ([0, 0, 0, 0, 1, 0], 10),
    ([0, 0, 0, 0, 0, -1], 0),
    ([0, 0, 0, 0, 0, -1], 0),
    ([0, 0, 0, 0, 0, -1], 0),
    ([0, 0, 0, 0, 0, -1], 0),
    ([0, 0, 0, 0, 0, -1], 0),
    ([0, 0, 0, 0, 0, -1], 0),
];

/// The last dictionary of the run of a programme, which ends as is wanted.
fn last_of(rt: &impl Abort, alloc: Global, programme: Programme, wanted: End) -> Dense<Frac128> {
    ran_wide::<Dense<Frac64>, Dense<Frac128>>(rt, alloc, &programme, 100000, wanted)
}

/// Looks that a list over a common denominator is this.
fn numbers_are(rt: &impl Abort, shown: Result<Scaled, DualFault>, den: i128, numbers: &[i128]) {
    let shown = shown.expect(rt, "a common denominator");
    is_same(rt, shown.den, den);
    is_same(rt, shown.nums.as_slice(), numbers);
}

/// The common denominator.
fn den_of(shown: Result<Scaled, DualFault>) -> Result<i128, DualFault> {
    Ok(shown?.den)
}

#[test]
fn values_that_have_no_common_denominator_of_128_bits(rt: HostRuntime) {
    let alloc = rt.alloc();
    let dict = last_of(&rt, alloc, near_62(&rt, alloc), End::Optimal { pivots: 3 });
    is_same(&rt, den_of(primal(alloc, &dict)), Err(DualFault::TooWide));
    numbers_are(&rt, duals(alloc, &dict), 1, &[1, 0, 0, 0]);
}

#[test]
fn values_of_a_run_that_goes_on_at_128_bits(rt: HostRuntime) {
    let alloc = rt.alloc();
    let dict = last_of(
        &rt,
        alloc,
        leaves_64(&rt, alloc),
        End::Optimal { pivots: 2 },
    );
    let wanted = [111111111111, 1111111, 0];
    numbers_are(&rt, primal(alloc, &dict), 1111111111111111111, &wanted);
}

#[test]
fn limits_that_are_too_small(rt: HostRuntime) {
    let alloc = rt.alloc();
    let end = End::Cannot { row: 6, pivots: 5 };
    let dict = last_of(&rt, alloc, programme(&rt, alloc, &LIMITS_TOO_SMALL), end);
    assert!(rt; 6 < dict.rows());
    let wanted = [0, 1, 1, 1, 1, 1, 1, 0, 0, 0, 0, 0, 0];
    numbers_are(&rt, farkas(alloc, &dict, 6), 1, &wanted);
}
