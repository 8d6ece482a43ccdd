// The margin of a case, by step.
ghost use Rattle.std.specs.Prelude.{◌≡◌, ◌≤◌, length};
ghost use Rattle.core_rules.specs.Rules.{rule_view, plain_rule, Keeps};
ghost use Rattle.core_lp.specs.Named.{named_of};
ghost use Rattle.core_margin.specs.Last.{turn_of, IsReached};

use crate::books::case_of;
use crate::clock::spent;
use anyhow::{Result, bail};
use core_book::Case;
use core_cert::write_cert;
use core_dict::{Dense, Store, Widen};
use core_flows::Flows;
use core_lp::{Built, build};
use core_margin::{last_cert, run_reaches};
use core_rules::{Cand, Rule};
use core_run::{End, Ran, run_wide};
use core_sparse::Sparse;
use exact_frac::{Frac64, Frac128};
use std::time::CpuClock;

// The most pivots of a run.
const BUDGET: u64 = 100_000;

/// Prints how many nanoseconds each step takes from the text of a case to that of its certificate: the reading, the
/// flows and the programme, and then, over dense and sparse tableaus, at 64 bits first and at 128 bits alone, the run by
/// the least variable, with the number of its pivots, the certificate and its text.
pub fn run<R: Print + AllocGlobal + CpuClock>(rt: &R, bytes: &[u8]) -> Result<()>
    requires { length bytes.now ≤ 4194304 }
{
    let alloc = rt.alloc();
    let start = rt.thread_cpu_time()?;
    let case = case_of(alloc, bytes)?;
    let read = rt.thread_cpu_time()?;
    let flows = Flows::make(alloc, &case)?;
    let made = rt.thread_cpu_time()?;
    let built = build(alloc, &case, &flows)?;
    let end = rt.thread_cpu_time()?;
    let rows = built.programme().rows() as u128;
    rt.println("tableau,bits,step,nanoseconds,pivots")?;
    report(rt, "any,any,reading", spent(start, read, rows), 0)?;
    report(rt, "any,any,flows", spent(read, made, rows), 0)?;
    report(rt, "any,any,programme", spent(made, end, rows), 0)?;
    let rule = Rule::keep(0, |kept: &Cand, next: &Cand| next.var < kept.var);
    time_64_first::<R, Dense<Frac64>, Dense<Frac128>, _>(
        rt,
        &case,
        &built,
        &rule,
        "dense,64 first",
    )?;
    time_128::<R, Dense<Frac128>, _>(rt, &case, &built, &rule, "dense,128")?;
    time_64_first::<R, Sparse<Frac64>, Sparse<Frac128>, _>(
        rt,
        &case,
        &built,
        &rule,
        "sparse,64 first",
    )?;
    time_128::<R, Sparse<Frac128>, _>(rt, &case, &built, &rule, "sparse,128")
}

fn report<R: Print>(rt: &R, step: &str, nanoseconds: u128, pivots: u64) -> Result<()> {
    rt.println(format_args!("{step},{nanoseconds},{pivots}"))?;
    Ok(())
}

// The steps from the run on, which begins at 64 bits.
fn time_64_first<
    'a,
    R: Print + AllocGlobal + CpuClock,
    N: Widen<W>,
    W: Store<Frac128>,
    F: Fn(&Cand, &Cand) -> bool,
>(rt: &R, case: &Case, built: &Built, rule: &Rule<'a, F>, name: &str) -> Result<()>
    requires built { built.now ≡ named_of case.now }
    requires keeps { Keeps F.pre F.post rule.now }
    requires number { rule_view rule.now ≡ plain_rule 0 }
{
    run_reaches();
    let start = rt.thread_cpu_time()?;
    let answer = run_wide::<N, W, F>(rt.alloc(), built.programme(), rule, BUDGET);
    let time = spent(start, rt.thread_cpu_time()?, 0);
    match answer {
        Ok(ran) => time_end(rt, case, built, &ran, name, time),
        Err(fault) => bail!("the run did not end: {fault:?}"),
    }
}

// The same at 128 bits alone.
fn time_128<'a, R: Print + AllocGlobal + CpuClock, W: Store<Frac128>, F: Fn(&Cand, &Cand) -> bool>(
    rt: &R,
    case: &Case,
    built: &Built,
    rule: &Rule<'a, F>,
    name: &str,
) -> Result<()>
    requires built { built.now ≡ named_of case.now }
    requires keeps { Keeps F.pre F.post rule.now }
    requires number { rule_view rule.now ≡ plain_rule 0 }
{
    run_reaches();
    let start = rt.thread_cpu_time()?;
    let mut dict = W::start(rt.alloc(), built.programme())?;
    let answer = core_run::run(rt.alloc(), &mut dict, rule, BUDGET);
    let time = spent(start, rt.thread_cpu_time()?, 0);
    match answer {
        Ok(end) => time_end(rt, case, built, &Ran { end, dict }, name, time),
        Err(fault) => bail!("the run did not end: {fault:?}"),
    }
}

// The steps after a run that took so many nanoseconds, after its own line.
fn time_end<R: Print + AllocGlobal + CpuClock, W: Store<Frac128>>(
    rt: &R,
    case: &Case,
    built: &Built,
    ran: &Ran<W>,
    name: &str,
    time: u128,
) -> Result<()>
    requires built { built.now ≡ named_of case.now }
    requires reached { IsReached case.now (W.dictionary ran.now.dict) (turn_of ran.now.end) }
{
    let (End::Optimal { pivots } | End::Cannot { pivots, .. }) = ran.end;
    let start = rt.thread_cpu_time()?;
    let cert = match last_cert(rt.alloc(), case, built, ran) {
        Ok(cert) => cert,
        Err(fault) => bail!("there is no certificate: {fault:?}"),
    };
    let made = rt.thread_cpu_time()?;
    let text = write_cert(rt.alloc(), case, &cert)?;
    let end = rt.thread_cpu_time()?;
    let size = text.len() as u128;
    rt.println(format_args!("{name},run,{time},{pivots}"))?;
    rt.println(format_args!("{name},certificate,{},{pivots}", spent(start, made, size)))?;
    rt.println(format_args!("{name},text,{},{pivots}", spent(made, end, size)))?;
    Ok(())
}
