// One turn of the run.
ghost use Rattle.std.specs.Prelude.{◌≡◌, ◌+◌, ◌-◌, ◌^◌, ◌<◌, ◌↔◌, IfOk, IsErr, true, unsigned_abs};
ghost use Rattle.core_rules.specs.Candidates.{before};
ghost use Rattle.core_rules.specs.Rules.{Keeps, rule_view};
ghost use Rattle.core_run.specs.Ranked.{AreRanked};
ghost use Rattle.core_run.specs.Run.{turn as turn_of};
ghost use Rattle.core_run.specs.Steps.{IsStep, RatiosLeave, HasTurned};

use crate::entering::entering_column;
use crate::leaving::leaving_row;
use crate::{End, RunFault};
use core_dict::{PivotFault, Store};
use core_rules::{Cand, Rule};
use exact_frac::{Exact, Left};
use std::alloc::Global;

/// A turn ends the run, or pivots on a row and a column.
#[derive(Clone, Copy)]
pub enum Step {
    Ends(End),
    Pivot { row: usize, col: usize },
}

/// The turn that follows so many pivots. `Left` exactly where it pivots and one of its ratios
/// leaves.
pub fn next_turn<'a, E: Exact, D: Store<E>, F: Fn(&Cand, &Cand) -> bool>(
    dict: &D,
    rule: &Rule<'a, F>,
    pivots: u64,
) -> Result<Step, Left>
    requires keeps { Keeps F.pre F.post rule.now }
    requires ranked { AreRanked (rule_view rule.now) (D.dictionary dict.now) }
    ensures step { let d = D.dictionary dict.now in
        IfOk result (IsStep pivots (turn_of (before (rule_view rule.now)) d)) }
    ensures left { let d = D.dictionary dict.now in
        IsErr result
        ↔ RatiosLeave (unsigned_abs E.MOST) d (turn_of (before (rule_view rule.now)) d) }
{
    let Some(row) = leaving_row(dict, rule) else {
        return Ok(Step::Ends(End::Optimal { pivots }));
    };
    match entering_column(dict, row)? {
        Some(col) => Ok(Step::Pivot { row, col }),
        None => Ok(Step::Ends(End::Cannot { row, pivots })),
    }
}

/// Makes the turn that follows so many pivots: an end where it ends the run, and none where it has
/// pivoted. A fault changes nothing.
pub fn make_turn<'a, E: Exact, D: Store<E>, F: Fn(&Cand, &Cand) -> bool>(
    alloc: Global,
    dict: &mut D,
    rule: &Rule<'a, F>,
    pivots: u64,
) -> Result<Option<End>, RunFault>
    requires keeps { Keeps F.pre F.post rule.now }
    requires ranked { AreRanked (rule_view rule.now) (D.dictionary dict.old) }
    requires counted { pivots < 2 ^ 64 - 1 }
    ensures turned { HasTurned (unsigned_abs E.MOST) (before (rule_view rule.now))
        (D.dictionary dict.old) pivots (D.dictionary dict.new) result }
    ensures memory { result ≡ Err RunFault.NoMemory → D.TAKES_MEMORY ≡ true }
{
    let pivot = pivots + 1;
    match next_turn(dict, rule, pivots) {
        Ok(Step::Ends(end)) => Ok(Some(end)),
        Ok(Step::Pivot { row, col }) => match dict.pivot(alloc, row, col) {
            Ok(()) => Ok(None),
            Err(PivotFault::Left) => Err(RunFault::TooWide { pivot }),
            Err(PivotFault::NoMemory) => Err(RunFault::NoMemory),
        },
        Err(Left) => Err(RunFault::TooWide { pivot }),
    }
}
