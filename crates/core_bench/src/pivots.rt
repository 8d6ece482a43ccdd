// The first pivots of the programme of a case.
ghost use Rattle.std.specs.Prelude.{◌≡◌, ◌<◌};
ghost use Rattle.core_rules.specs.Rules.{rule_view, plain_rule, Keeps};

use crate::books::case_of;
use crate::clock::spent;
use crate::file::file_bytes;
use anyhow::{Result, bail};
use core_dict::{Dense, Programme, Store};
use core_flows::Flows;
use core_io::Shelf;
use core_lp::build;
use core_rules::{Cand, Rule};
use core_run::{End, RunFault};
use core_sparse::Sparse;
use exact_frac::{Exact, Frac64, Frac128};
use std::time::CpuClock;

// The most pivots that are made.
const PIVOTS: u64 = 100;

/// Prints for the first pivots by the least variable over one kind of tableau, which a word names, how many were made,
/// how many nanoseconds they took, and how many entries there are after them, in all and other than 0. With the word
/// `none` no tableau is made, so that the memory of one can be told from that of its programme.
pub fn run<R: Print + AllocGlobal + CpuClock, S: Shelf>(
    rt: &R,
    shelf: &mut S,
    kind: &str,
    name: &str,
) -> Result<()> {
    let alloc = rt.alloc();
    let bytes = file_bytes(alloc, shelf, name)?;
    let case = case_of(alloc, &bytes)?;
    let built = build(alloc, &case, &Flows::make(alloc, &case)?)?;
    let programme = built.programme();
    let rule = Rule::keep(0, |kept: &Cand, next: &Cand| next.var < kept.var);
    rt.println("pivots,nanoseconds,entries,kept")?;
    match kind {
        "dense64" => time::<R, Frac64, Dense<Frac64>, _>(rt, programme, &rule),
        "dense128" => time::<R, Frac128, Dense<Frac128>, _>(rt, programme, &rule),
        "sparse64" => time::<R, Frac64, Sparse<Frac64>, _>(rt, programme, &rule),
        "sparse128" => time::<R, Frac128, Sparse<Frac128>, _>(rt, programme, &rule),
        "none" => Ok(()),
        _ => bail!("the kinds are `dense64`, `dense128`, `sparse64`, `sparse128` and `none`"),
    }
}

// Makes the pivots over one kind of tableau, and prints the line.
fn time<'a, R: Print + AllocGlobal + CpuClock, E: Exact, D: Store<E>, F: Fn(&Cand, &Cand) -> bool>(
    rt: &R,
    programme: &Programme,
    rule: &Rule<'a, F>,
) -> Result<()>
    requires keeps { Keeps F.pre F.post rule.now }
    requires number { rule_view rule.now ≡ plain_rule 0 }
{
    let mut dict = D::start(rt.alloc(), programme)?;
    let start = rt.thread_cpu_time()?;
    let answer = core_run::run(rt.alloc(), &mut dict, rule, PIVOTS);
    let time = spent(start, rt.thread_cpu_time()?, 0);
    let pivots = match answer {
        Ok(End::Optimal { pivots } | End::Cannot { pivots, .. }) => pivots,
        Err(RunFault::Spent { pivots }) => pivots,
        Err(RunFault::TooWide { pivot }) => pivot.saturating_sub(1),
        Err(RunFault::NoMemory) => bail!("memory was refused"),
    };
    let (rows, cols) = (dict.rows() as u128, dict.cols() as u128);
    let (entries, kept) = (rows.saturating_mul(cols), entries_kept(&dict));
    rt.println(format_args!("{pivots},{time},{entries},{kept}"))?;
    Ok(())
}

// The number of entries other than 0.
fn entries_kept<E: Exact, D: Store<E>>(dict: &D) -> u64 {
    let mut kept = 0u64;
    for row in 0..dict.rows() {
        kept = kept.saturating_add(kept_of_row(dict, row));
    }
    kept
}

// Those of a row.
fn kept_of_row<E: Exact, D: Store<E>>(dict: &D, row: usize) -> u64
    requires { row < (D.dictionary dict.now).rows }
{
    let mut kept = 0u64;
    for col in 0..dict.cols() {
        if dict.entry(row, col).sign() != 0 {
            kept = kept.saturating_add(1);
        }
    }
    kept
}
