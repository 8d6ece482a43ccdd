// A million of each operation on fractions.
use crate::clock::spent;
use anyhow::Result;
use exact_frac::{Exact, Frac64, Frac128};
use std::alloc::{AllocError, Global};
use std::io;
use std::time::CpuClock;

// How many operands are made, and how often each operation is done on all of them.
const OPERANDS: u64 = 1_000;

const ROUNDS: u64 = 1_000;

#[derive(Clone, Copy)]
enum Operation {
    Plus,
    Minus,
    Times,
    Over,
    Cmp,
}

const OPERATIONS: [(Operation, &str); 5] = [
    (Operation::Plus, "plus"),
    (Operation::Minus, "minus"),
    (Operation::Times, "times"),
    (Operation::Over, "over"),
    (Operation::Cmp, "cmp"),
];

/// Prints for each operation, width and kind of operands the nanoseconds of a million operations.
pub fn run<R: Print + AllocGlobal + CpuClock>(rt: &R) -> Result<()> {
    rt.println("operation,bits,operands,nanoseconds")?;
    report::<R, Frac64>(rt, "64,small", 1 << 10, 1 << 10)?;
    report::<R, Frac64>(rt, "64,wide", 1 << 30, 1 << 30)?;
    report::<R, Frac64>(rt, "64,whole", 1 << 30, 1)?;
    report::<R, Frac128>(rt, "128,small", 1 << 10, 1 << 10)?;
    report::<R, Frac128>(rt, "128,wide", 1 << 61, 1 << 61)?;
    report::<R, Frac128>(rt, "128,whole", 1 << 61, 1)
}

// A line for each operation on fractions whose numbers are at most as given.
fn report<R: Print + AllocGlobal + CpuClock, E: Exact>(
    rt: &R,
    kind: &str,
    num: u64,
    den: u64,
) -> Result<()> {
    let all = operands::<E>(rt.alloc(), num, den)?;
    for (operation, name) in OPERATIONS {
        let time = time_exact(rt, operation, &all)?;
        rt.println(format_args!("{name},{kind},{time}"))?;
    }
    Ok(())
}

// Fractions of both signs, always the same.
fn operands<E: Exact>(
    alloc: Global,
    num: u64,
    den: u64,
) -> std::result::Result<Vec<E>, AllocError> {
    let mut all = Vec::new(alloc);
    let mut state = 1;
    for _ in 0..OPERANDS {
        let first = next(state);
        state = next(first);
        let f = quotient(whole::<E>(first, num), whole::<E>(state, den));
        all.push(if first % 2 == 0 { f } else { f.negated() })?;
    }
    Ok(all)
}

// The next state of a linear congruential generator (Knuth's constants for 64 bits).
fn next(state: u64) -> u64 {
    state
        .wrapping_mul(6364136223846793005)
        .wrapping_add(1442695040888963407)
}

// A whole number from 1 to the bound, which is at most 2^61.
fn whole<E: Exact>(state: u64, bound: u64) -> E {
    let below = (state >> 2) % bound.max(1);
    E::of_whole(below.min(1 << 61) as i64 + 1)
}

// n over d, or n where there is no quotient.
fn quotient<E: Exact>(n: E, d: E) -> E {
    if d.sign() == 0 {
        n
    } else {
        n.over(d).unwrap_or(n)
    }
}

// The nanoseconds that the operation takes on each two operands in turn.
fn time_exact<R: CpuClock, E: Exact>(rt: &R, operation: Operation, all: &[E]) -> io::Result<u128> {
    let start = rt.thread_cpu_time()?;
    let mut sum = 0u128;
    for _ in 0..ROUNDS {
        let mut last = E::one();
        for f in all {
            sum ^= exact_answer(operation, last, *f);
            last = *f;
        }
    }
    Ok(spent(start, rt.thread_cpu_time()?, sum))
}

fn exact_answer<E: Exact>(operation: Operation, a: E, b: E) -> u128 {
    let answer = match operation {
        Operation::Plus => a.plus(b),
        Operation::Minus => a.minus(b),
        Operation::Times => a.times(b),
        Operation::Over => Ok(quotient(a, b)),
        Operation::Cmp => Ok(if a < b { a } else { b }),
    };
    answer.unwrap_or(a).num().unsigned_abs()
}
