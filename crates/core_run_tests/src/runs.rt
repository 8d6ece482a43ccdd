// Runs of programmes written out as numbers.
ghost use Rattle.std.specs.Prelude.{IfOk};
ghost use Rattle.core_dict.specs.Dictionary.{CostsNotNegative};

use crate::exact::pair;
use crate::programmes::TWO_SCENARIOS;
use crate::refuse::Refuse;
use crate::same::is_same;
use core_dict::{Dense, Programme, Store, Widen};
use core_rules::{Cand, Rule};
use core_run::{End, Ran, RunFault, run, run_wide};
use exact_frac::{Exact, Frac64, Frac128};
use std::alloc::{AllocError, Global};
use std::process::Abort;

/// Rows whose first pivot leaves 64 bits.
const LEAVES_64: [([i64; 3], i64); 2] = [([-10000000, -1, 0], -1), ([-1, -1000000000000, 0], -1)];

/// Two lines of collateral of the greatest sizes in two scenarios, whose second pivot leaves 128 bits.
const LEAVES_128: [([i64; 3], i64); 6] = [
    ([1, 0, 0], 1),
    ([0, 1, 0], 1),
    ([1, 0, 0], 1),
    ([0, 1, 0], 1),
    ([-1000000000000000000, -1000000, -1], -1000000000000000),
    (
        [-999999999999000000, -1000000000000000000, -1],
        -1000000000000000,
    ),
];

/// Rows near the greatest number of 64 bits.
const NEAR_62: [([i64; 4], i64); 3] = [
    ([-2305843009213693952, 0, 0, 0], -1),
    ([0, -2305843009213693951, 0, 0], -1),
    ([0, 0, -2305843009213693953, 0], -1),
];

// sets the coefficient of a row in a column
fn set(rt: &impl Abort, programme: &mut Programme, row: usize, col: usize, entry: i64) {
    assert!(rt; row < programme.rows() && col < programme.cols());
    assert!(rt; entry.unsigned_abs() <= 1 << 62);
    programme.set(row, col, entry);
}

// sets the bound of a row
fn set_bound(rt: &impl Abort, programme: &mut Programme, row: usize, bound: i64) {
    assert!(rt; row < programme.rows() && bound.unsigned_abs() <= 1 << 62);
    programme.set_bound(row, bound);
}

/// The programme of some rows with their bounds.
pub(crate) fn programme<const N: usize>(
    rt: &impl Abort,
    alloc: Global,
    rows: &[([i64; N], i64)],
) -> Programme {
    assert!(rt; N >= 1 && N <= 65535 && rows.len() <= 65535);
    let mut programme = Programme::make(alloc, rows.len(), N).expect(rt, "memory");
    for (i, (entries, bound)) in rows.iter().enumerate() {
        set_bound(rt, &mut programme, i, *bound);
        for (j, entry) in entries.iter().enumerate() {
            set(rt, &mut programme, i, j, *entry);
        }
    }
    programme
}

/// The programme of [`TWO_SCENARIOS`].
pub(crate) fn two_scenarios(rt: &impl Abort, alloc: Global) -> Programme {
    let programme = programme(rt, alloc, &TWO_SCENARIOS);
    is_same(rt, (programme.rows(), programme.cols()), (10, 3));
    programme
}

/// The programme of [`LEAVES_64`].
pub(crate) fn leaves_64(rt: &impl Abort, alloc: Global) -> Programme {
    programme(rt, alloc, &LEAVES_64)
}

/// The programme of [`LEAVES_128`].
pub(crate) fn leaves_128(rt: &impl Abort, alloc: Global) -> Programme {
    programme(rt, alloc, &LEAVES_128)
}

/// The programme of [`NEAR_62`].
pub(crate) fn near_62(rt: &impl Abort, alloc: Global) -> Programme {
    programme(rt, alloc, &NEAR_62)
}

/// The start dictionary of a programme.
pub(crate) fn started<E: Exact, D: Store<E>>(
    alloc: Global,
    programme: &Programme,
) -> Result<D, AllocError>
    ensures { IfOk result (λ d. CostsNotNegative (D.dictionary d)) }
{
    let dict = D::start(alloc, programme)?;
    Ok(dict)
}

/// The same, where memory is there.
pub(crate) fn start_of<E: Exact, D: Store<E>>(
    rt: &impl Abort,
    alloc: Global,
    programme: &Programme,
) -> D {
    started(alloc, programme).expect(rt, "memory")
}

/// The dictionary that a run from the start by the least variable leaves, and what the run comes to.
pub(crate) fn run_of<E: Exact, D: Store<E>>(
    alloc: Global,
    programme: &Programme,
    budget: u64,
) -> Result<(D, Result<End, RunFault>), AllocError> {
    let rule = Rule::keep(0, |kept: &Cand, next: &Cand| next.var < kept.var);
    let mut dict: D = started(alloc, programme)?;
    let end = run(alloc, &mut dict, &rule, budget);
    Ok((dict, end))
}

/// The dictionary that such a run leaves, where it comes to what is wanted.
pub(crate) fn ran<E: Exact, D: Store<E>>(
    rt: &impl Abort,
    alloc: Global,
    programme: &Programme,
    budget: u64,
    wanted: Result<End, RunFault>,
) -> D {
    let (dict, end) = run_of(alloc, programme, budget).expect(rt, "memory");
    is_same(rt, end, wanted);
    dict
}

/// Looks that such a run comes to what is wanted.
fn comes_to<E: Exact, D: Store<E>>(
    rt: &impl Abort,
    alloc: Global,
    programme: &Programme,
    budget: u64,
    wanted: Result<End, RunFault>,
) {
    let _dict: D = ran(rt, alloc, programme, budget, wanted);
}

/// Such a run at two widths.
fn run_wide_of<N: Widen<W>, W: Store<Frac128>>(
    alloc: Global,
    programme: &Programme,
    budget: u64,
) -> Result<Ran<W>, RunFault> {
    let rule = Rule::keep(0, |kept: &Cand, next: &Cand| next.var < kept.var);
    run_wide::<N, W, _>(alloc, programme, &rule, budget)
}

/// The dictionary that such a run leaves, where it ends as is wanted.
pub(crate) fn ran_wide<N: Widen<W>, W: Store<Frac128>>(
    rt: &impl Abort,
    alloc: Global,
    programme: &Programme,
    budget: u64,
    wanted: End,
) -> W {
    let ran = run_wide_of::<N, W>(alloc, programme, budget).expect(rt, "an end");
    is_same(rt, ran.end, wanted);
    ran.dict
}

/// The value of a variable: 0 where it is not basic.
fn value_of<E: Exact, D: Store<E>>(dict: &D, variable: u32) -> (i128, i128) {
    for i in 0..dict.rows() {
        if dict.basic(i) == variable {
            return pair(dict.value(i));
        }
    }
    (0, 1)
}

/// Looks that variables have these values.
fn values_are<E: Exact, D: Store<E>>(rt: &impl Abort, dict: &D, wanted: &[(u32, (i128, i128))]) {
    for (variable, value) in wanted {
        is_same(rt, value_of(dict, *variable), *value);
    }
}

/// Three rows whose columns enter one after the other, with no number above 2^62.
fn each_column_enters<E: Exact, D: Store<E>>(rt: &impl Abort, alloc: Global) {
    let three = Ok(End::Optimal { pivots: 3 });
    let dict: D = ran(rt, alloc, &near_62(rt, alloc), 100000, three);
    let wanted = [
        (1, (1, 2305843009213693952)),
        (2, (1, 2305843009213693951)),
        (3, (1, 2305843009213693953)),
    ];
    values_are(rt, &dict, &wanted);
}

#[test]
fn a_run_near_the_greatest_numbers(rt: HostRuntime) {
    each_column_enters::<Frac64, Dense<Frac64>>(&rt, rt.alloc());
    each_column_enters::<Frac128, Dense<Frac128>>(&rt, rt.alloc());
}

/// The basic variables, by row.
fn basics<E: Exact, D: Store<E>>(alloc: Global, dict: &D) -> Result<Vec<u32>, AllocError> {
    let mut variables = Vec::with_capacity(alloc, dict.rows())?;
    for i in 0..dict.rows() {
        variables.push(dict.basic(i))?;
    }
    Ok(variables)
}

/// Those that a run leaves, where it comes to what is wanted.
fn basics_after<E: Exact, D: Store<E>>(
    rt: &impl Abort,
    alloc: Global,
    programme: &Programme,
    budget: u64,
    wanted: Result<End, RunFault>,
) -> Vec<u32> {
    let dict: D = ran(rt, alloc, programme, budget, wanted);
    basics(alloc, &dict).expect(rt, "memory")
}

/// The first variable that is none of those before.
fn entered(variables: &[u32], before: &[u32]) -> Option<u32> {
    for variable in variables {
        if !before.contains(variable) {
            return Some(*variable);
        }
    }
    None
}

/// What the run of the two scenarios comes to, which ends after four pivots.
fn end_of_four(budget: u64) -> Result<End, RunFault> {
    if budget < 4 {
        return Err(RunFault::Spent { pivots: budget });
    }
    Ok(End::Optimal { pivots: 4 })
}

#[test]
fn the_variables_of_two_scenarios_enter_in_turn(rt: HostRuntime) {
    let alloc = rt.alloc();
    let programme = two_scenarios(&rt, alloc);
    let mut before = basics_after::<Frac64, Dense<Frac64>>(
        &rt,
        alloc,
        &programme,
        0,
        end_of_four(0),
    );
    // the column of day 1, the slack of row 2, the loss, the column of day 2
    for (budget, wanted) in [(1, 1), (2, 5), (3, 3), (4, 2)] {
        let after = basics_after::<Frac64, Dense<Frac64>>(
            &rt,
            alloc,
            &programme,
            budget,
            end_of_four(budget),
        );
        is_same(&rt, entered(&after, &before), Some(wanted));
        before = after;
    }
}

#[test]
fn the_values_of_two_scenarios(rt: HostRuntime) {
    let alloc = rt.alloc();
    let dict: Dense<Frac64> = ran(&rt, alloc, &two_scenarios(&rt, alloc), 4, end_of_four(4));
    values_are(&rt, &dict, &[(1, (4, 9)), (2, (5, 9)), (3, (16, 3))]);
}

#[test]
fn a_budget_is_spent_exactly(rt: HostRuntime) {
    let alloc = rt.alloc();
    let programme = two_scenarios(&rt, alloc);
    for budget in [3, 4, 100000] {
        comes_to::<Frac128, Dense<Frac128>>(&rt, alloc, &programme, budget, end_of_four(budget));
    }
}

#[test]
fn a_run_that_leaves_64_bits_goes_on_at_128(rt: HostRuntime) {
    let alloc = rt.alloc();
    let programme = leaves_64(&rt, alloc);
    let leaves = Err(RunFault::TooWide { pivot: 1 });
    comes_to::<Frac64, Dense<Frac64>>(&rt, alloc, &programme, 9, leaves);
    let two = End::Optimal { pivots: 2 };
    let dict = ran_wide::<Dense<Frac64>, Dense<Frac128>>(&rt, alloc, &programme, 2, two);
    let wanted = [
        (1, (111111111111, 1111111111111111111)),
        (2, (1111111, 1111111111111111111)),
        (3, (0, 1)),
    ];
    values_are(&rt, &dict, &wanted);
}

/// How a run at two widths ends.
fn end_of<N: Widen<W>, W: Store<Frac128>>(
    alloc: Global,
    programme: &Programme,
) -> Result<End, RunFault> {
    let ran = run_wide_of::<N, W>(alloc, programme, 100000)?;
    Ok(ran.end)
}

/// Looks what the run of a programme comes to where memory is refused at one pivot of 64 bits, or at one of 128.
fn refused_at<const A: u64, const B: u64>(
    rt: &impl Abort,
    alloc: Global,
    programme: &Programme,
    wanted: Result<End, RunFault>,
) {
    let end = end_of::<Refuse<Frac64, A>, Refuse<Frac128, B>>(alloc, programme);
    is_same(rt, end, wanted);
}

#[test]
fn want_of_memory_is_handed_on_from_both_widths(rt: HostRuntime) {
    let alloc = rt.alloc();
    let narrow = two_scenarios(&rt, alloc);
    let none = Err(RunFault::NoMemory);
    refused_at::<1, 0>(&rt, alloc, &narrow, none);
    refused_at::<4, 0>(&rt, alloc, &narrow, none);
    refused_at::<5, 0>(&rt, alloc, &narrow, end_of_four(100000));
    refused_at::<0, 1>(&rt, alloc, &narrow, end_of_four(100000));
    let wide = leaves_128(&rt, alloc);
    refused_at::<0, 1>(&rt, alloc, &wide, none);
    refused_at::<0, 0>(&rt, alloc, &wide, Err(RunFault::TooWide { pivot: 2 }));
}

#[test]
fn a_run_without_memory_stands_after_its_last_pivot(rt: HostRuntime) {
    let alloc = rt.alloc();
    let programme = two_scenarios(&rt, alloc);
    let none = Err(RunFault::NoMemory);
    let refused = basics_after::<Frac64, Refuse<Frac64, 3>>(&rt, alloc, &programme, 9, none);
    let spent = end_of_four(2);
    let twice = basics_after::<Frac64, Dense<Frac64>>(&rt, alloc, &programme, 2, spent);
    is_same(&rt, refused.as_slice(), twice.as_slice());
}
