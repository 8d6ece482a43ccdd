ghost use Rattle.std.specs.Prelude.{◌≡◌, ◌≤◌, length, unsigned_abs};
ghost use Rattle.core_sums.specs.Widths.{most64};
ghost use Rattle.core_rules.specs.Candidates.{before, IsRanked};
ghost use Rattle.core_rules.specs.Rules.{candidate_of, rule_by, rule_view, Keeps};

use crate::same::is_same;
use core_rules::{Cand, Ranks, Rule};
use exact_frac::{Exact, Frac128};
use std::process::Abort;
use std::test::Fail;

fn cand(var: u32, value: i64) -> Cand
    requires { unsigned_abs value ≤ most64 }
    ensures { result.var ≡ var }
{
    let value = Frac128::of_whole(value);
    Cand { var, value }
}

// The variable that a walk over four candidates, by number and value, keeps at its end.
fn chosen<F: Fn(&Cand, &Cand) -> bool>(rt: &impl Abort, rule: &Rule<F>) -> u32
    requires keeps { Keeps F.pre F.post rule.now }
    requires ranked { (v : _) → 1 ≤ v → v ≤ 9 → IsRanked (rule_view rule.now) v }
{
    let mut kept = cand(3, -1);
    for (var, value) in [(9, -2), (5, -2), (7, -1)] {
        assert!(rt; 1 <= var && var <= 9 && -2 <= value && value <= 0);
        let next = cand(var, value);
        if rule.prefers(&kept, &next) {
            kept = next;
        }
    }
    kept.var
}

#[test]
fn numbers_choose_among_four(rt: HostRuntime) {
    let variable = Rule::keep(0, |kept: &Cand, next: &Cand| next.var < kept.var);
    let value = Rule::keep(1, |kept: &Cand, next: &Cand| {
        next.value < kept.value || (next.value == kept.value && next.var < kept.var)
    });
    let last = Rule::keep(2, |_kept: &Cand, _next: &Cand| true);
    is_same(&rt, (variable.id(), chosen(&rt, &variable)), (0, 3));
    is_same(&rt, (value.id(), chosen(&rt, &value)), (1, 5));
    is_same(&rt, (last.id(), chosen(&rt, &last)), (2, 7));
}

// Variable 9, which no other number chooses, has the least rank of the four.
#[test]
fn ranks_choose_among_four(rt: HostRuntime) -> Result<(), Fail> {
    let mut ranks = Ranks::make(rt.alloc(), 9)?;
    ranks.set(3, 2);
    ranks.set(5, 255);
    ranks.set(7, 2);
    is_same(
        &rt,
        (ranks.len(), ranks.rank(5), ranks.rank(9)),
        (9, 255, 0),
    );
    let rule = Rule::keep_ranks(
        &ranks,
        |kept: &Cand, next: &Cand| -> bool
            requires kept_ranked { IsRanked (rule_by ranks) kept.now.var }
            requires next_ranked { IsRanked (rule_by ranks) next.now.var }
            ensures { let better = before (rule_by ranks) in
                result ≡ better (candidate_of kept.now) (candidate_of next.now) }
        {
            let (new, old) = (ranks.rank(next.var), ranks.rank(kept.var));
            new < old || (new == old && next.var < kept.var)
        },
    );
    is_same(&rt, (rule.id(), chosen(&rt, &rule)), (3, 9));
    Ok(())
}
