// A run that is made at 64 bits as far as it fits them, and then at 128.
ghost use Rattle.std.specs.Prelude.{◌≡◌, ◌≢◌, ◌+◌, ◌^◌, ◌≤◌, ◌<◌, Ok, Err};
ghost use Rattle.std.specs.Prelude.{IfOk, IfErr, IfSome, option_map};
ghost use Rattle.core_sums.specs.Widths.{most, most64};
ghost use Rattle.core_dict.specs.Dictionary.{Dictionary, CostsNotNegative, start};
ghost use Rattle.core_rules.specs.Candidates.{before};
ghost use Rattle.core_rules.specs.Rules.{rule_view, Keeps};
ghost use Rattle.core_run.specs.Answers.{outcome_of, IsAnswer};
ghost use Rattle.core_run.specs.Counts.{pivots_named};
ghost use Rattle.core_run.specs.Laws.{after};
ghost use Rattle.core_run.specs.Ranked.{AreRanked, GoesByVariable};
ghost use Rattle.core_run.specs.Widths.{ComesTo, HasRun};

use crate::{End, RunFault, run};
use core_dict::{Programme, Store, Widen};
use core_rules::{Cand, Rule};
use exact_frac::Frac128;
use std::alloc::Global;

/// A run that has ended: how, with the number of its pivots, and the dictionary that the last of
/// them has left.
#[derive(Drop)]
pub struct Ran<W> {
    pub end: End,
    pub dict: W,
}

/// The run from the start dictionary of a programme. It is made at 64 bits up to the first pivot
/// that leaves them, and from that pivot on at 128. The answer is the one of the run that is made
/// at 128 bits from the start.
///
/// `TooWide` comes exactly where a pivot within the budget leaves 128 bits, after pivots that all
/// fit, and names that pivot, counted from 1. `Spent` comes exactly where the run has not ended
/// after `budget` pivots that all fit, and names the budget; never where the rule goes by the
/// variables' numbers (Bland 1977) and the budget is at least 2 to the power of rows and columns
/// together. Memory is wanted for the start, for widening, and where a store wants it for a pivot.
pub fn run_wide<'a, N: Widen<W>, W: Store<Frac128>, F: Fn(&Cand, &Cand) -> bool>(
    alloc: Global,
    programme: &Programme,
    rule: &Rule<'a, F>,
    budget: u64,
) -> Result<Ran<W>, RunFault>
    requires keeps { Keeps F.pre F.post rule.now }
    requires ranked { AreRanked (rule_view rule.now) (start programme.now) }
    ensures ended { let better = before (rule_view rule.now) in
        IfOk result (λ r. IsAnswer most better (start programme.now) budget
        (W.dictionary r.dict) (outcome_of (Ok r.end))) }
    ensures fault { let better = before (rule_view rule.now) in
        IfErr result (λ f. IfSome (outcome_of (Err f))
        (ComesTo most better (start programme.now) budget)) }
    ensures spent { (b : _) → result ≡ Err (RunFault.Spent b) → b ≡ budget }
    ensures serves { let d = start programme.now in GoesByVariable (rule_view rule.now) d
        → 2 ^ (d.rows + d.cols) ≤ budget → (b : _) → result ≢ Err (RunFault.Spent b) }
{
    let Ok(mut narrow) = N::start(alloc, programme) else {
        return Err(RunFault::NoMemory);
    };
    match run(alloc, &mut narrow, rule, budget) {
        Ok(end) => widened(alloc, &narrow, end),
        Err(RunFault::TooWide { pivot }) => go_on(alloc, &narrow, rule, budget, pivot - 1),
        Err(RunFault::Spent { pivots }) => Err(RunFault::Spent { pivots }),
        Err(RunFault::NoMemory) => Err(RunFault::NoMemory),
    }
}

// The end of a run with its dictionary at 128 bits.
fn widened<N: Widen<W>, W: Store<Frac128>>(
    alloc: Global,
    narrow: &N,
    end: End,
) -> Result<Ran<W>, RunFault>
    ensures end { IfOk result (λ r. r.end ≡ end) }
    ensures dict { IfOk result (λ r. W.dictionary r.dict ≡ N.dictionary narrow.now) }
    ensures fault { IfErr result (λ f. f ≡ RunFault.NoMemory) }
{
    let Ok(dict) = narrow.widen(alloc) else {
        return Err(RunFault::NoMemory);
    };
    Ok(Ran { end, dict })
}

// Goes on at 128 bits after so many whole pivots, which are counted with the further ones.
fn go_on<'a, N: Widen<W>, W: Store<Frac128>, F: Fn(&Cand, &Cand) -> bool>(
    alloc: Global,
    narrow: &N,
    rule: &Rule<'a, F>,
    budget: u64,
    made: u64,
) -> Result<Ran<W>, RunFault>
    requires within { made ≤ budget }
    requires costs { CostsNotNegative (N.dictionary narrow.now) }
    requires keeps { Keeps F.pre F.post rule.now }
    requires ranked { AreRanked (rule_view rule.now) (N.dictionary narrow.now) }
    ensures ended { (d : Dictionary) → let better = before (rule_view rule.now) in
        HasRun most64 better d made (N.dictionary narrow.now)
        → IfOk result (λ r. IsAnswer most better d budget
        (W.dictionary r.dict) (outcome_of (Ok r.end))) }
    ensures fault { (d : Dictionary) → let better = before (rule_view rule.now) in
        HasRun most64 better d made (N.dictionary narrow.now)
        → IfErr result (λ f. IfSome (outcome_of (Err f)) (ComesTo most better d budget)) }
    ensures spent { (b : _) → result ≡ Err (RunFault.Spent b) → b ≡ budget }
{
    let Ok(mut dict) = narrow.widen(alloc) else {
        return Err(RunFault::NoMemory);
    };
    let rest = run(alloc, &mut dict, rule, budget - made);
    let end = counted_on(made, rest)?;
    Ok(Ran { end, dict })
}

// The answer of a run whose pivots are counted on from those that were made before.
fn counted_on(made: u64, rest: Result<End, RunFault>) -> Result<End, RunFault>
    requires { made + pivots_named rest < 2 ^ 64 }
    ensures outcome { outcome_of result ≡ option_map (after made) (outcome_of rest) }
    ensures spent { (b : _) → result ≡ Err (RunFault.Spent b)
        → (n : _) × (rest ≡ Err (RunFault.Spent n)) × (b ≡ made + n) }
{
    match rest {
        Ok(End::Optimal { pivots }) => Ok(End::Optimal {
            pivots: made + pivots,
        }),
        Ok(End::Cannot { row, pivots }) => Ok(End::Cannot {
            row,
            pivots: made + pivots,
        }),
        Err(RunFault::TooWide { pivot }) => Err(RunFault::TooWide {
            pivot: made + pivot,
        }),
        Err(RunFault::Spent { pivots }) => Err(RunFault::Spent {
            pivots: made + pivots,
        }),
        Err(RunFault::NoMemory) => Err(RunFault::NoMemory),
    }
}
