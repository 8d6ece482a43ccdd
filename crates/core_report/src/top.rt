// The greatest losses of a calendar.
ghost use Rattle.std.specs.Prelude.{◌≡◌, ◌≤◌, ◌≤ℤ◌, ◌<◌, ◌++◌, ℕ, pos, neg_ℤ, suc, length, IfOk, IfErr, OnOk};
ghost use Rattle.std.proofs.Common.{rules};
ghost use Rattle.std.specs.Cmp.{partial_order_from_own_ties};
ghost use Rattle.std.specs.Cmp.Rules.{comparing};
ghost use Rattle.std.specs.Ordering.{int_cmp, nat_cmp, on, flip_args, then_cmp, as_partial_cmp};
ghost use Rattle.itertools.specs.Extremes.{IsKLeast, by_cmp};
ghost use Rattle.core_sums.specs.Places.{at};
ghost use Rattle.core_rows.specs.Written.{rows_text};
ghost use Rattle.core_model.specs.OfCase.{planned};
ghost use Rattle.core_model.specs.Fits.{AreKept, IsWithin128};
ghost use Rattle.core_replay.specs.Ledger.{NoneLeaves};
ghost use Rattle.core_report.specs.declared.fault.ReportFault.TheVariants.{NoMemory};
ghost use Rattle.core_report.specs.Ranking.{loss_on, losses, losses_by_day};
ghost use Rattle.core_report.specs.Records.{loss_at, top_record, top_records};
ghost use Rattle.core_report.specs.Stays.{IsPlaced};

use crate::accepted::AcceptedCalendar;
use crate::fault::ReportFault;
use crate::numbers::number;
use crate::row::{Row, put};
use core_book::Case;
use core_replay::{Ledger, replay};
use itertools::Itertools;
use std::alloc::{AllocError, Global};
use std::cmp::Ordering;

/// The loss of a scenario, from 0, on a house day, as a numerator over the calendar's denominator. The greater loss
/// comes first, and of equal ones that of the earlier scenario, and in it that of the earlier day.
#[derive(Clone, Copy, Debug, PartialEq, Eq)]
pub struct Loss {
    pub loss: i128,
    pub scenario: usize,
    pub day: u8,
}

impl Ord for Loss {
    ghost cmp = { then_cmp (flip_args (on (λ l. l.loss) int_cmp)) (then_cmp (on (λ l. l.scenario) nat_cmp) (on (λ l. l.day) nat_cmp)) };

    ghost total = { Prim.search (comparing, rules) depth 9 };

    ghost matches_partial_cmp = { Prim.search (comparing, rules) };

    ghost matches_eq = { Prim.search (comparing, rules) depth 9 };

    fn cmp(&self, other: &Loss) -> Ordering {
        other.loss.cmp(&self.loss).then(
            self.scenario
                .cmp(&other.scenario)
                .then(self.day.cmp(&other.day)),
        )
    }
}

impl PartialOrd for Loss {
    ghost partial_cmp = { as_partial_cmp (then_cmp (flip_args (on (λ l. l.loss) int_cmp)) (then_cmp (on (λ l. l.scenario) nat_cmp) (on (λ l. l.day) nat_cmp))) };

    ghost laws = { partial_order_from_own_ties (Prim.search (comparing, rules) depth 9) (Prim.search (comparing, rules) depth 9) };

    fn partial_cmp(&self, other: &Loss) -> Option<Ordering> {
        Some(self.cmp(other))
    }
}

/// The loss of a house day of a scenario's ledger: minus its total.
fn loss_on(ledger: &Ledger, scenario: usize, day: u8) -> Loss
    requires day { day < length ledger.now.total }
    requires kept { IsWithin128 (at ledger.now.total day) }
    ensures { result ≡ loss_on scenario (λ t. neg_ℤ (at ledger.now.total t)) day }
{
    let loss = -number(&ledger.total, usize::from(day));
    Loss {
        loss,
        scenario,
        day,
    }
}

/// Puts the losses of a scenario's ledger behind others, by house day.
fn put_losses(
    list: &mut Vec<Loss>,
    case: &Case,
    ledger: &Ledger,
    scenario: usize,
) -> Result<(), AllocError>
    requires { AreKept (suc case.now.last) ledger.now.total }
    ensures { OnOk result (list.new.items ≡ list.old.items
        ++ losses_by_day case.now scenario (λ t. neg_ℤ (at ledger.now.total t))) }
{
    let last = case.last();
    for day in 0..last + 1 {
        let loss = loss_on(ledger, scenario, day);
        list.push(loss)?;
    }
    Ok(())
}

/// The losses of all scenarios, by scenario and then by house day, of a calendar whose replays stay within 128 bits.
pub(crate) fn losses(alloc: Global, accepted: &AcceptedCalendar) -> Result<Vec<Loss>, ReportFault>
    requires stays { NoneLeaves accepted.now.calendar.case (planned accepted.now.calendar) }
    ensures listed { IfOk result (λ list. list.items
        ≡ losses accepted.now.calendar.case (planned accepted.now.calendar)) }
    ensures memory { IfErr result (λ fault. fault ≡ NoMemory) }
{
    let case = accepted.case();
    let calendar = accepted.calendar.calendar();
    let mut list = Vec::new(alloc);
    for scenario in 0..case.scenarios() {
        let ledger = replay(alloc, case, calendar, scenario)?;
        put_losses(&mut list, case, &ledger, scenario)?;
    }
    Ok(list)
}

/// The greatest of some losses, the greatest first.
pub(crate) fn greatest(alloc: Global, losses: Vec<Loss>) -> Result<Vec<Loss>, AllocError>
    ensures { IfOk result (λ top.
        IsKLeast (by_cmp ⟦<Loss as Ord>⟧.cmp) 5 losses.items top.items) }
{
    losses.into_iter().k_smallest(alloc, 5)?.collect(alloc)
}

/// A loss of a rank from 1.
fn top_row(
    alloc: Global,
    accepted: &AcceptedCalendar,
    rank: usize,
    loss: Loss,
) -> Result<Row, AllocError>
    requires { IsPlaced accepted.now.calendar.case loss }
    ensures { IfOk result (λ row. row
        ≡ top_record accepted.now.calendar.case accepted.now.dates.now
        accepted.now.calendar.calendar.den rank loss) }
{
    let mut row = Row::start(alloc, b"top")?;
    row.push_number(rank as i128)?;
    row.push_name(accepted.case().scenario(loss.scenario))?;
    row.push_date(accepted.dates, loss.day)?;
    row.push_ratio(loss.loss, accepted.den())?;
    Ok(row)
}

/// Prints losses of a calendar by rank.
pub(crate) fn put_top(
    alloc: Global,
    out: &mut Vec<u8>,
    accepted: &AcceptedCalendar,
    top: &[Loss],
) -> Result<(), AllocError>
    requires few { length top.now ≤ 5 }
    requires placed { (n : ℕ) → n < length top.now → IsPlaced accepted.now.calendar.case (loss_at
        top.now n) }
    ensures { OnOk result (out.new.items ≡ out.old.items
        ++ rows_text (top_records accepted.now.calendar.case accepted.now.dates.now
        accepted.now.calendar.calendar.den top.now)) }
{
    for n in 0..top.len() {
        let row = top_row(alloc, accepted, n + 1, top[n])?;
        put(alloc, out, &row)?;
    }
    Ok(())
}
