use crate::exact::pair;
use crate::runs::{leaves_64, near_62, start_of, two_scenarios};
use crate::same::is_same;
use core_dict::{Dense, PivotFault, Store, Widen, is_zero};
use core_sparse::Sparse;
use exact_frac::{Exact, Frac64, Frac128};
use std::alloc::{AllocError, Global};
use std::process::Abort;

// a whole number between two texts
fn push(
    alloc: Global,
    text: &mut String,
    before: &str,
    number: i128,
    after: &str,
) -> Result<(), AllocError> {
    let part = format!(in alloc; "{before}{number}{after}")?;
    text.push_str(part.as_str())
}

fn push_number<E: Exact>(alloc: Global, text: &mut String, x: E) -> Result<(), AllocError> {
    let (num, den) = pair(x);
    if den == 1 {
        return push(alloc, text, " ", num, "");
    }
    push(alloc, text, " ", num, "/")?;
    push(alloc, text, "", den, "")
}

// each row as its variable, its value and its entries
fn push_rows<E: Exact, D: Store<E>>(
    alloc: Global,
    text: &mut String,
    dict: &D,
) -> Result<(), AllocError> {
    for i in 0..dict.rows() {
        push(alloc, text, "", i128::from(dict.basic(i)), ":")?;
        push_number(alloc, text, dict.value(i))?;
        for j in 0..dict.cols() {
            push_number(alloc, text, dict.entry(i, j))?;
        }
        text.push_str("\n")?;
    }
    Ok(())
}

// the columns' variables and costs
fn push_costs<E: Exact, D: Store<E>>(
    alloc: Global,
    text: &mut String,
    dict: &D,
) -> Result<(), AllocError> {
    for j in 0..dict.cols() {
        push(alloc, text, "", i128::from(dict.nonbasic(j)), ":")?;
        push_number(alloc, text, dict.cost(j))?;
        text.push_str("\n")?;
    }
    Ok(())
}

// the rows and then the costs
pub(crate) fn text_of<E: Exact, D: Store<E>>(
    alloc: Global,
    dict: &D,
) -> Result<String, AllocError> {
    let mut text = String::new(alloc);
    push_rows(alloc, &mut text, dict)?;
    push_costs(alloc, &mut text, dict)?;
    Ok(text)
}

pub(crate) fn pivot<E: Exact, D: Store<E>>(
    rt: &impl Abort,
    alloc: Global,
    dict: &mut D,
    row: usize,
    col: usize,
) -> Result<(), PivotFault> {
    assert!(rt; row < dict.rows() && col < dict.cols());
    assert!(rt; !is_zero(dict.entry(row, col)));
    dict.pivot(alloc, row, col)
}

// looks that a dictionary has that text
pub(crate) fn text_is<E: Exact, D: Store<E>>(
    rt: &impl Abort,
    alloc: Global,
    dict: &D,
    wanted: &str,
) {
    let text = text_of(alloc, dict).expect(rt, "memory");
    is_same(rt, text.as_str(), wanted);
}

// looks that each of these pivots is made
pub(crate) fn pivot_all<E: Exact, D: Store<E>>(
    rt: &impl Abort,
    alloc: Global,
    dict: &mut D,
    places: &[(usize, usize)],
) {
    for (row, col) in places {
        is_same(rt, pivot(rt, alloc, dict, *row, *col), Ok(()));
    }
}

#[test]
fn ten_rows_and_one_pivot(rt: HostRuntime) {
    let alloc = rt.alloc();
    let mut dict: Dense<Frac64> = start_of(&rt, alloc, &two_scenarios(&rt, alloc));
    let start =
        "4: 1 1 1 0\n5: -1 -1 -1 0\n6: 1 1 0 0\n7: 1 0 1 0\n8: 0 -8 0 -1\n9: 0 -8 -2 -1\n10: -10 -8 -2 -1\n11: 0 -3 0 -1\n12: 0 -3 -6 -1\n13: -10 -3 -6 -1\n1: 0\n2: 0\n3: 1\n";
    text_is(&rt, alloc, &dict, start);
    pivot_all(&rt, alloc, &mut dict, &[(6, 0)]);
    let after =
        "4: -1/4 1/8 3/4 -1/8\n5: 1/4 -1/8 -3/4 1/8\n6: -1/4 1/8 -1/4 -1/8\n7: 1 0 1 0\n8: 10 -1 2 0\n9: 10 -1 0 0\n1: 5/4 -1/8 1/4 1/8\n11: 15/4 -3/8 3/4 -5/8\n12: 15/4 -3/8 -21/4 -5/8\n13: -25/4 -3/8 -21/4 -5/8\n10: 0\n2: 0\n3: 1\n";
    text_is(&rt, alloc, &dict, after);
}

#[test]
fn large_numbers_that_fit(rt: HostRuntime) {
    let alloc = rt.alloc();
    let mut dict: Dense<Frac64> = start_of(&rt, alloc, &near_62(&rt, alloc));
    pivot_all(&rt, alloc, &mut dict, &[(0, 0), (2, 2)]);
    let after =
        "1: 1/2305843009213693952 -1/2305843009213693952 0 0 0\n6: -1 0 -2305843009213693951 0 0\n3: 1/2305843009213693953 0 0 -1/2305843009213693953 0\n5: 0\n2: 0\n7: 0\n4: 1\n";
    text_is(&rt, alloc, &dict, after);
}

// looks that a pivot leaves 64 bits and changes nothing, and hands on the same dictionary at 128 bits
pub(crate) fn widened<N: Widen<W>, W: Store<Frac128>>(rt: &impl Abort, alloc: Global) -> W {
    let mut dict: N = start_of(rt, alloc, &leaves_64(rt, alloc));
    let answer = pivot(rt, alloc, &mut dict, 0, 0);
    is_same(rt, answer, Err(PivotFault::Left));
    let before = "4: -1 -10000000 -1 0\n5: -1 -1 -1000000000000 0\n1: 0\n2: 0\n3: 1\n";
    text_is(rt, alloc, &dict, before);
    let wide = dict.widen(alloc).expect(rt, "memory");
    text_is(rt, alloc, &wide, before);
    wide
}

#[test]
fn a_pivot_that_leaves_64_bits(rt: HostRuntime) {
    let alloc = rt.alloc();
    let mut wide = widened::<Dense<Frac64>, Dense<Frac128>>(&rt, alloc);
    pivot_all(&rt, alloc, &mut wide, &[(0, 0)]);
    let after =
        "1: 1/10000000 -1/10000000 1/10000000 0\n5: -9999999/10000000 -1/10000000 -9999999999999999999/10000000 0\n4: 0\n2: 0\n3: 1\n";
    text_is(&rt, alloc, &wide, after);
}

// the first entry of a row from a column on that is not 0, entry by entry: its column and numbers
fn first_entry<E: Exact, D: Store<E>>(
    rt: &impl Abort,
    dict: &D,
    row: usize,
    from: usize,
) -> Option<(usize, (i128, i128))> {
    assert!(rt; row < dict.rows());
    for col in from..dict.cols() {
        let value = dict.entry(row, col);
        if !is_zero(value) {
            return Some((col, pair(value)));
        }
    }
    None
}

// those of the next entry of a row, where the search for it begins at a place
fn next_entry<E: Exact, D: Store<E>>(
    rt: &impl Abort,
    dict: &D,
    row: usize,
    from: usize,
    place: usize,
) -> Option<(usize, (i128, i128))> {
    assert!(rt; row < dict.rows());
    let next = dict.next_entry(row, from, place)?;
    Some((next.col, pair(next.value)))
}

// looks that it is the first one, wherever the search begins, in each row
fn each_next_entry_is_the_first<E: Exact, D: Store<E>>(rt: &impl Abort, dict: &D) {
    for row in 0..dict.rows() {
        for from in 0..dict.cols() {
            let first = first_entry(rt, dict, row, from);
            for place in 0..dict.cols() {
                is_same(rt, next_entry(rt, dict, row, from, place), first);
            }
        }
    }
}

// the columns and numbers of the entries that are not 0, along the row
fn walked<E: Exact, D: Store<E>>(
    rt: &impl Abort,
    alloc: Global,
    dict: &D,
    row: usize,
) -> Result<Vec<(usize, (i128, i128))>, AllocError> {
    assert!(rt; row < dict.rows());
    let mut along = Vec::new(alloc);
    let (mut from, mut place) = (0, 0);
    for _ in 0..dict.cols() {
        if let Some(next) = dict.next_entry(row, from, place) {
            along.push((next.col, pair(next.value)))?;
            from = next.col.saturating_add(1);
            place = next.place;
        }
    }
    Ok(along)
}

// looks that a walk along a row of the start meets its entries, and that after these pivots each search in every row
// finds the first one
fn walks<D: Store<Frac64>>(rt: &impl Abort, alloc: Global, places: &[(usize, usize)]) {
    let mut dict: D = start_of(rt, alloc, &two_scenarios(rt, alloc));
    let along = [(0, (-8, 1)), (2, (-1, 1))];
    let walked = walked(rt, alloc, &dict, 4).expect(rt, "memory");
    is_same(rt, walked.as_slice(), along.as_slice());
    pivot_all(rt, alloc, &mut dict, places);
    each_next_entry_is_the_first(rt, &dict);
}

#[test]
fn a_walk_along_a_row(rt: HostRuntime) {
    walks::<Dense<Frac64>>(&rt, rt.alloc(), &[]);
    walks::<Sparse<Frac64>>(&rt, rt.alloc(), &[(6, 0)]);
}
