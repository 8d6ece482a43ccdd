// The margin of a case, by the run of its programme.
ghost use Rattle.std.specs.Prelude.{◌≡◌, IfOk};
ghost use Rattle.core_rules.specs.Candidates.{before};
ghost use Rattle.core_rules.specs.Rules.{Keeps, rule_view};
ghost use Rattle.core_run.specs.Ranked.{AreRanked};
ghost use Rattle.core_lp.specs.Named.{named_of};
ghost use Rattle.core_margin.specs.Last.{start_of};
ghost use Rattle.core_margin.specs.Outcomes.{EndsAt};
ghost use Rattle.core_margin.specs.Answers.{MarginOwed, cert_of};

use crate::fault::MarginFault;
use crate::last::{Solved, last_cert};
use crate::{run_reaches, valid_margins};
use core_book::Case;
use core_dict::{Store, Widen};
use core_flows::Flows;
use core_lp::{Built, build};
use core_model::Cert;
use core_rules::{Cand, Rule};
use core_run::{Ran, run_wide};
use core_sparse::Sparse;
use exact_frac::{Frac64, Frac128};
use std::alloc::{AllocError, Global};

/// The last dictionary of the run of a case's programme, over given stores, and its certificate: see [`margin_over`],
/// whose errors and claims it has.
pub fn solve<'a, N: Widen<W>, W: Store<Frac128>, F: Fn(&Cand, &Cand) -> bool>(
    alloc: Global,
    case: &Case,
    built: &Built,
    rule: &Rule<'a, F>,
    budget: u64,
) -> Result<Solved<W>, MarginFault>
    requires built { built.now ≡ named_of case.now }
    requires keeps { Keeps F.pre F.post rule.now }
    requires ranked { AreRanked (rule_view rule.now) (start_of case.now) }
    ensures ends { let better = before (rule_view rule.now) in IfOk result
        (λ r. EndsAt case.now better budget (start_of case.now) (W.dictionary r.dict) r.cert) }
    ensures owed { MarginOwed case.now (rule_view rule.now) budget (cert_of result) }
{
    run_reaches();
    valid_margins();
    case.well_formed();
    let ran: Ran<W> = run_wide::<N, W, F>(alloc, built.programme(), rule, budget)?;
    let cert = last_cert(alloc, case, built, &ran)?;
    let Ran { dict, .. } = ran;
    Ok(Solved { dict, cert })
}

/// The certificate of a case whose programme is built, over given stores: see [`margin_over`].
pub(crate) fn margin_of_programme_over<
    'a,
    N: Widen<W>,
    W: Store<Frac128>,
    F: Fn(&Cand, &Cand) -> bool,
>(
    alloc: Global,
    case: &Case,
    built: &Built,
    rule: &Rule<'a, F>,
    budget: u64,
) -> Result<Cert, MarginFault>
    requires built { built.now ≡ named_of case.now }
    requires keeps { Keeps F.pre F.post rule.now }
    requires ranked { AreRanked (rule_view rule.now) (start_of case.now) }
    ensures { MarginOwed case.now (rule_view rule.now) budget result }
{
    match solve::<N, W, F>(alloc, case, built, rule, budget) {
        Ok(Solved { cert, .. }) => Ok(cert),
        Err(fault) => Err(fault),
    }
}

/// The programme of a case, with its names. The only error is want of memory.
pub(crate) fn built_of(alloc: Global, case: &Case) -> Result<Built, AllocError>
    ensures { IfOk result (λ built. built ≡ named_of case.now) }
{
    let flows = Flows::make(alloc, case)?;
    build(alloc, case, &flows)
}

/// The certificate of a case, over given stores of 64 and of 128 bits: a calendar with the least worst loss, that loss
/// and weights that bound every loss by it, or weights that refuse every calendar. It is read off the last dictionary
/// of the run of the case's programme by the dual simplex method (Lemke 1954), whose leaving rows the rule picks.
///
/// `Pivot` comes exactly where a pivot within the budget leaves 128 bits, after pivots that all fit, and names that
/// pivot, counted from 1. `Common` comes exactly where the run has ended within the budget, and a number that the
/// certificate is made from is above 2^127 - 1 in absolute value, printed or not: see [`last_cert`]. `Spent` comes
/// exactly where the run has not ended after `budget` pivots that all fit, and names the budget; never where the rule
/// goes by the variables' numbers (Bland 1977) and the budget is at least 2 to the power of the programme's rows and
/// columns together. `NoMemory` comes for want of memory alone.
pub fn margin_over<'a, N: Widen<W>, W: Store<Frac128>, F: Fn(&Cand, &Cand) -> bool>(
    alloc: Global,
    case: &Case,
    rule: &Rule<'a, F>,
    budget: u64,
) -> Result<Cert, MarginFault>
    requires keeps { Keeps F.pre F.post rule.now }
    requires ranked { AreRanked (rule_view rule.now) (start_of case.now) }
    ensures { MarginOwed case.now (rule_view rule.now) budget result }
{
    let built = built_of(alloc, case)?;
    margin_of_programme_over::<N, W, F>(alloc, case, &built, rule, budget)
}

/// The certificate of a case, over dictionaries that keep only what is not 0: see [`margin_over`], whose errors and
/// claims it has.
pub fn margin<'a, F: Fn(&Cand, &Cand) -> bool>(
    alloc: Global,
    case: &Case,
    rule: &Rule<'a, F>,
    budget: u64,
) -> Result<Cert, MarginFault>
    requires keeps { Keeps F.pre F.post rule.now }
    requires ranked { AreRanked (rule_view rule.now) (start_of case.now) }
    ensures { MarginOwed case.now (rule_view rule.now) budget result }
{
    margin_over::<Sparse<Frac64>, Sparse<Frac128>, F>(alloc, case, rule, budget)
}
