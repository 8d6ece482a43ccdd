// The rules by name, and the margin of a case under each.
ghost use Rattle.std.specs.Prelude.{◌≡◌};
ghost use Rattle.core_rules.specs.Candidates.{before, IsRanked};
ghost use Rattle.core_rules.specs.Rules.{candidate_of, plain_rule, rule_by};
ghost use Rattle.core_lp.specs.Ranks.{ranked};
ghost use Rattle.core_margin.specs.Answers.{MarginOwed};
ghost use Rattle.core_margin.specs.Orders.{rule_in};

use crate::fault::MarginFault;
use crate::over::{built_of, margin, margin_of_programme_over};
use core_book::Case;
use core_lp::ranks_of;
use core_model::Cert;
use core_rules::{Cand, Rule};
use core_sparse::Sparse;
use exact_frac::{Frac64, Frac128};
use std::alloc::Global;

/// Which of the rows that may leave does, in a turn of the run.
#[derive(Clone, Copy, Debug)]
pub enum Order {
    /// That of the least variable (Bland 1977).
    LeastVariable,
    /// That of the least value, and of equal ones that of the least variable.
    LeastValue,
    /// The last one.
    LastRow,
    /// That whose kind comes first among the letters, and of one kind that of the least variable. The letters are C
    /// for the columns, F for full rows, B back, L limit, P pool and S loss; a kind that they lack comes last.
    Kinds([u8; 6]),
}

/// The margin of a case where the row of the least variable leaves.
fn margin_by_variable(alloc: Global, case: &Case, budget: u64) -> Result<Cert, MarginFault>
    ensures { MarginOwed case.now (plain_rule 0) budget result }
{
    let rule = Rule::keep(0, |kept: &Cand, next: &Cand| next.var < kept.var);
    margin(alloc, case, &rule, budget)
}

/// The margin of a case where the row of the least value leaves.
fn margin_by_value(alloc: Global, case: &Case, budget: u64) -> Result<Cert, MarginFault>
    ensures { MarginOwed case.now (plain_rule 1) budget result }
{
    let rule = Rule::keep(1, |kept: &Cand, next: &Cand| {
        next.value < kept.value || (next.value == kept.value && next.var < kept.var)
    });
    margin(alloc, case, &rule, budget)
}

/// The margin of a case where the last row leaves.
fn margin_by_place(alloc: Global, case: &Case, budget: u64) -> Result<Cert, MarginFault>
    ensures { MarginOwed case.now (plain_rule 2) budget result }
{
    let rule = Rule::keep(2, |_kept: &Cand, _next: &Cand| true);
    margin(alloc, case, &rule, budget)
}

/// The margin of a case where the row leaves whose kind comes first among the letters.
fn margin_by_kinds(
    alloc: Global,
    case: &Case,
    letters: [u8; 6],
    budget: u64,
) -> Result<Cert, MarginFault>
    ensures { MarginOwed case.now (ranked case.now letters) budget result }
{
    let built = built_of(alloc, case)?;
    let ranks = ranks_of(alloc, &built, letters)?;
    let rule = Rule::keep_ranks(
        &ranks,
        |kept: &Cand, next: &Cand| -> bool
            requires kept_ranked { IsRanked (rule_by ranks) kept.now.var }
            requires next_ranked { IsRanked (rule_by ranks) next.now.var }
            ensures { let better = before (rule_by ranks) in
                result ≡ better (candidate_of kept.now) (candidate_of next.now) }
        {
            let (new, old) = (ranks.rank(next.var), ranks.rank(kept.var));
            new < old || (new == old && next.var < kept.var)
        },
    );
    margin_of_programme_over::<Sparse<Frac64>, Sparse<Frac128>, _>(
        alloc, case, &built, &rule, budget,
    )
}

/// The margin of a case under a rule by name: see [`margin`](crate::margin), whose errors and claims it has. With
/// letters, want of memory for the ranks is `NoMemory` too.
pub fn margin_by(alloc: Global, case: &Case, order: Order, budget: u64) -> Result<Cert, MarginFault>
    ensures { MarginOwed case.now (rule_in case.now order) budget result }
{
    match order {
        Order::LeastVariable => margin_by_variable(alloc, case, budget),
        Order::LeastValue => margin_by_value(alloc, case, budget),
        Order::LastRow => margin_by_place(alloc, case, budget),
        Order::Kinds(letters) => margin_by_kinds(alloc, case, letters, budget),
    }
}
