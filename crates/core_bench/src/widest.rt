// The widest number of a run.
ghost use Rattle.std.specs.Prelude.{◌≡◌, ◌≤◌, ◌<◌, length};
ghost use Rattle.core_dict.specs.Dictionary.{CostsNotNegative};
ghost use Rattle.core_rules.specs.Rules.{rule_view, plain_rule, Keeps};

use crate::books::case_of;
use anyhow::Result;
use core_dict::{Dense, Programme, Store};
use core_flows::Flows;
use core_lp::build;
use core_rules::{Cand, Rule};
use core_run::{RunFault, run_laws};
use exact_frac::{Exact, Frac128};
use std::alloc::Global;

// The most pivots of a run.
const PIVOTS: u64 = 100_000;

/// Prints the most bits of a numerator or denominator in all dictionaries of the run of a case by the least variable.
pub fn run<R: Print + AllocGlobal>(rt: &R, bytes: &[u8]) -> Result<()>
    requires { length bytes.now ≤ 4194304 }
{
    let alloc = rt.alloc();
    let case = case_of(alloc, bytes)?;
    let built = build(alloc, &case, &Flows::make(alloc, &case)?)?;
    let rule = Rule::keep(0, |kept: &Cand, next: &Cand| next.var < kept.var);
    let widest = widest_met::<Frac128, Dense<Frac128>, _>(alloc, built.programme(), &rule, PIVOTS)?;
    rt.println("bits")?;
    rt.println(format_args!("{widest}"))?;
    Ok(())
}

// The most bits of a number of the dictionaries of a run, of which each pivot is made alone, to its end and for at most
// so many pivots.
fn widest_met<'a, E: Exact, D: Store<E>, F: Fn(&Cand, &Cand) -> bool>(
    alloc: Global,
    programme: &Programme,
    rule: &Rule<'a, F>,
    pivots: u64,
) -> Result<u32>
    requires keeps { Keeps F.pre F.post rule.now }
    requires number { rule_view rule.now ≡ plain_rule 0 }
{
    let mut dict = D::start(alloc, programme)?;
    let mut most = widest(&dict);
    for _ in 0..pivots {
        let goes_on = pivots_once(alloc, &mut dict, rule);
        most = most.max(widest(&dict));
        if !goes_on {
            break;
        }
    }
    Ok(most)
}

// Makes one pivot, and tells whether the run goes on.
fn pivots_once<'a, E: Exact, D: Store<E>, F: Fn(&Cand, &Cand) -> bool>(
    alloc: Global,
    dict: &mut D,
    rule: &Rule<'a, F>,
) -> bool
    requires costs { CostsNotNegative (D.dictionary dict.old) }
    requires keeps { Keeps F.pre F.post rule.now }
    requires number { rule_view rule.now ≡ plain_rule 0 }
    ensures { CostsNotNegative (D.dictionary dict.new) }
{
    run_laws();
    matches!(
        core_run::run(alloc, dict, rule, 1),
        Err(RunFault::Spent { .. })
    )
}

// The most bits of a number of a dictionary.
fn widest<E: Exact, D: Store<E>>(dict: &D) -> u32 {
    let mut most = 0;
    for row in 0..dict.rows() {
        most = most.max(widest_of_row(dict, row));
    }
    for col in 0..dict.cols() {
        most = most.max(bits(dict.cost(col)));
    }
    most
}

// The most bits of a row's entries and its value.
fn widest_of_row<E: Exact, D: Store<E>>(dict: &D, row: usize) -> u32
    requires { row < (D.dictionary dict.now).rows }
{
    let mut most = bits(dict.value(row));
    for col in 0..dict.cols() {
        most = most.max(bits(dict.entry(row, col)));
    }
    most
}

// The bits of the numerator or the denominator, whichever has more.
fn bits<E: Exact>(number: E) -> u32 {
    let greatest = number.num().unsigned_abs().max(number.den().unsigned_abs());
    128 - greatest.leading_zeros()
}
