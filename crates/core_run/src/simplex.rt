// The run.
ghost use Rattle.std.specs.Prelude.{◌≡◌, ◌≢◌, ◌+◌, ◌^◌, ◌≤◌, IfOk, IfErr, true, unsigned_abs};
ghost use Rattle.core_dict.specs.Dictionary.{CostsNotNegative};
ghost use Rattle.core_rules.specs.Candidates.{before};
ghost use Rattle.core_rules.specs.Rules.{Keeps, rule_view};
ghost use Rattle.core_run.specs.Answers.{outcome_of, IsAnswer};
ghost use Rattle.core_run.specs.Ranked.{AreRanked, GoesByVariable};
ghost use Rattle.core_run.specs.Run.{turn as turn_of, Pivots};
ghost use Rattle.core_run.specs.Steps.{IsEnd};

use crate::turn::{Step, make_turn, next_turn};
use crate::{End, RunFault};
use core_dict::Store;
use core_rules::{Cand, Rule};
use exact_frac::{Exact, Left};
use std::alloc::Global;

/// Runs the dual simplex method (Lemke 1954) from a dictionary with no negative cost, for at most
/// `budget` pivots. The dictionary becomes the one after the last whole pivot.
///
/// Each turn takes, of the rows with a negative value, the one that the rule picks, and of the
/// columns with a negative entry there the one with the least ratio of its cost over minus its
/// entry, of equal ones that with the least variable; and pivots on them. The run has ended where
/// no value is negative, or where the row has no negative entry.
///
/// `TooWide` comes exactly where a ratio or another operation of a pivot within the budget leaves
/// the type, after pivots that all fit, and names that pivot, counted from 1. `Spent` comes exactly
/// where the run has not ended after `budget` pivots that all fit; never where the rule goes by the
/// variables' numbers (Bland 1977) and the budget is at least 2 to the power of rows and columns
/// together. `NoMemory` comes only where the store takes memory.
pub fn run<'a, E: Exact, D: Store<E>, F: Fn(&Cand, &Cand) -> bool>(
    alloc: Global,
    dict: &mut D,
    rule: &Rule<'a, F>,
    budget: u64,
) -> Result<End, RunFault>
    requires costs { CostsNotNegative (D.dictionary dict.old) }
    requires keeps { Keeps F.pre F.post rule.now }
    requires ranked { AreRanked (rule_view rule.now) (D.dictionary dict.old) }
    ensures answer { IsAnswer (unsigned_abs E.MOST) (before (rule_view rule.now))
        (D.dictionary dict.old) budget (D.dictionary dict.new) (outcome_of result) }
    ensures spent { (b : _) → result ≡ Err (RunFault.Spent b) → b ≡ budget }
    ensures serves { let d = D.dictionary dict.old in
        GoesByVariable (rule_view rule.now) d → 2 ^ (d.rows + d.cols) ≤ budget
        → (b : _) → result ≢ Err (RunFault.Spent b) }
    ensures memory { result ≡ Err RunFault.NoMemory → D.TAKES_MEMORY ≡ true }
{
    for pivots in 0..budget {
        if let Some(end) = make_turn(alloc, dict, rule, pivots)? {
            return Ok(end);
        }
    }
    end_after(dict, rule, budget)
}

// The end of the run, where it has ended after so many pivots, and Spent where it has not, whether
// the turn that follows fits or not.
fn end_after<'a, E: Exact, D: Store<E>, F: Fn(&Cand, &Cand) -> bool>(
    dict: &D,
    rule: &Rule<'a, F>,
    pivots: u64,
) -> Result<End, RunFault>
    requires keeps { Keeps F.pre F.post rule.now }
    requires ranked { AreRanked (rule_view rule.now) (D.dictionary dict.now) }
    ensures ended { let d = D.dictionary dict.now in
        IfOk result (IsEnd pivots (turn_of (before (rule_view rule.now)) d)) }
    ensures spent { let d = D.dictionary dict.now in IfErr result
        (λ x. (x ≡ RunFault.Spent pivots) × Pivots (turn_of (before (rule_view rule.now)) d)) }
{
    match next_turn(dict, rule, pivots) {
        Ok(Step::Ends(end)) => Ok(end),
        Ok(Step::Pivot { .. }) | Err(Left) => Err(RunFault::Spent { pivots }),
    }
}
