// Which row leaves.
ghost use Rattle.std.specs.Prelude.{◌≡◌, ◌+◌, ◌<◌};
ghost use Rattle.core_rules.specs.Candidates.{before};
ghost use Rattle.core_rules.specs.Rules.{Keeps, rule_view};
ghost use Rattle.core_run.specs.Choice.{leaving_row as leaving_row_of};
ghost use Rattle.core_run.specs.SoFar.{IsRowSoFar};
ghost use Rattle.core_run.specs.Ranked.{AreRanked};

use crate::signs::is_negative;
use core_dict::Store;
use core_rules::{Cand, Rule};
use exact_frac::Exact;

/// A row that may leave, by its position from 0, with its basic variable and its value.
#[derive(Clone, Copy)]
pub struct RowSoFar {
    row: usize,
    cand: Cand,
}

/// The row that the rule picks of those with a negative value, and none where no value is negative.
pub fn leaving_row<'a, E: Exact, D: Store<E>, F: Fn(&Cand, &Cand) -> bool>(
    dict: &D,
    rule: &Rule<'a, F>,
) -> Option<usize>
    requires keeps { Keeps F.pre F.post rule.now }
    requires ranked { AreRanked (rule_view rule.now) (D.dictionary dict.now) }
    ensures { result ≡ leaving_row_of (before (rule_view rule.now)) (D.dictionary dict.now) }
{
    let mut so_far = None;
    for row in 0..dict.rows() {
        so_far = row_after(dict, rule, row, so_far);
    }
    so_far.map(|k: RowSoFar| k.row)
}

// The row so far, after one more row.
fn row_after<'a, E: Exact, D: Store<E>, F: Fn(&Cand, &Cand) -> bool>(
    dict: &D,
    rule: &Rule<'a, F>,
    row: usize,
    so_far: Option<RowSoFar>,
) -> Option<RowSoFar>
    requires keeps { Keeps F.pre F.post rule.now }
    requires ranked { AreRanked (rule_view rule.now) (D.dictionary dict.now) }
    requires row_in { row < (D.dictionary dict.now).rows }
    requires so_far { IsRowSoFar (before (rule_view rule.now)) (D.dictionary dict.now) row so_far }
    ensures { IsRowSoFar (before (rule_view rule.now)) (D.dictionary dict.now) (row + 1) result }
{
    let value = dict.value(row);
    if !is_negative(value) {
        return so_far;
    }
    let cand = Cand {
        var: dict.basic(row),
        value: value.wide(),
    };
    let Some(held) = so_far else {
        return Some(RowSoFar { row, cand });
    };
    if rule.prefers(&held.cand, &cand) {
        Some(RowSoFar { row, cand })
    } else {
        Some(held)
    }
}
