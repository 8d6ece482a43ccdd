// The flows of a line on a day of a replay.
ghost use Rattle.std.specs.Prelude.{◌≡◌, ℕ, ◌<◌, ◌≤◌, ◌++◌, ◌∷◌, [], pos, suc, true, false, length, map, MatchOption, IfOk, IfErr};
ghost use Rattle.core_sums.specs.Widths.{any_leaves};
ghost use Rattle.core_book.specs.View.{instrument_of, is_open, day_before, pays};
ghost use Rattle.core_model.specs.Closing.{IsClosingDay, IsTierNumber, line_count, kind_of, size, price_change, flow, cost_flow};
ghost use Rattle.core_model.specs.OfCase.{planned};
ghost use Rattle.core_replay.specs.Ledger.{closings, sold_by, costly_tiers, line_flows, flow_numbers};
ghost use Rattle.core_wide.specs.Steps.{Leaves, Stays, summed};
ghost use Rattle.core_replay.specs.Steps.{unit_of, base_of, cost_flows, with_flows, IsStanding};
ghost use Rattle.core_replay.specs.Answers.{StopsOn};

use crate::fault::ReplayFault;
use crate::lines::Standing;
use crate::payable::PayableFlows;
use core_book::{Case, Kind};
use core_model::CaseCalendar;
use core_wide::{add_each, plus, times};

/// The sign of a line times its multiplier: at most 10^6 in absolute value.
fn size(case: &Case, l: usize) -> i64
    requires line { l < line_count case.now }
    ensures { result ≡ size case.now l }
{
    case.well_formed();
    let line = case.line(l);
    i64::from(line.sign) * case.instrument(line.instrument).mult
}

/// The change of a line's price since the last open day, at most 2 * 10^12 in absolute value.
fn price_change(case: &Case, scenario: usize, l: usize, t: u8, marked_on: u8) -> i64
    requires scenario { scenario < length case.now.scenarios }
    requires line { l < line_count case.now }
    requires day { t ≤ case.now.last }
    requires marked { marked_on ≡ day_before case.now (instrument_of case.now l) t }
    ensures { result ≡ price_change case.now scenario l t }
{
    case.well_formed();
    let i = case.line(l).instrument;
    case.price(scenario, i, t) - case.price(scenario, i, marked_on)
}

/// What one unit pays on an open day: the mark of a future, the price of a security. At most 2 * 10^18 in absolute value.
fn unit_of(case: &Case, scenario: usize, l: usize, t: u8, marked_on: u8) -> i64
    requires scenario { scenario < length case.now.scenarios }
    requires line { l < line_count case.now }
    requires day { t ≤ case.now.last }
    requires marked { marked_on ≡ day_before case.now (instrument_of case.now l) t }
    ensures { result ≡ unit_of case.now scenario l t }
{
    case.well_formed();
    let i = case.line(l).instrument;
    match case.instrument(i).kind {
        Kind::Future => size(case, l) * price_change(case, scenario, l, t, marked_on),
        Kind::Security => size(case, l) * case.price(scenario, i, t),
    }
}

/// What is closed of a line on a closing day, tier by tier, or None where a sum on the way leaves.
fn closed_on(calendar: &CaseCalendar, l: usize, t: u8) -> Option<i128>
    requires line { l < line_count calendar.now.case }
    requires day { IsClosingDay calendar.now.case t }
    ensures { result ≡ summed (pos 0) [] (closings calendar.now.case (planned calendar.now) l t) }
{
    let case = calendar.case();
    add_each(0, usize::from(case.tiers()), |sum, j| {
        plus(sum, calendar.amount(l, t, j as u8 + 1))
    })
}

/// On what the flow of an open day comes: of a future on what is open, of a security on what is closed then. None where
/// a sum on the way leaves.
fn base_of(calendar: &CaseCalendar, l: usize, t: u8, standing: Standing) -> Option<i128>
    requires line { l < line_count calendar.now.case }
    requires day { 1 ≤ t }
    requires open { is_open calendar.now.case (instrument_of calendar.now.case l) t ≡ true }
    requires standing { IsStanding calendar.now.case (planned calendar.now) l t standing }
    ensures { let plan = planned calendar.now in
        let sold = sold_by (kind_of calendar.now.case l) calendar.now.case plan t l in
        MatchOption result (any_leaves sold ≡ true)
        (λ base. (base ≡ base_of calendar.now.case plan l t) × (any_leaves sold ≡ false)) }
{
    let case = calendar.case();
    match case.instrument(case.line(l).instrument).kind {
        Kind::Future => Some(standing.still_open),
        Kind::Security if t <= case.horizon() => closed_on(calendar, l, t),
        Kind::Security => Some(0),
    }
}

/// The mark or sale of a line on a day, as a numerator, or None where it leaves or what is sold does on the way.
fn flow(
    calendar: &CaseCalendar,
    scenario: usize,
    l: usize,
    t: u8,
    standing: Standing,
) -> Option<i128>
    requires scenario { scenario < length calendar.now.case.scenarios }
    requires line { l < line_count calendar.now.case }
    requires from { 1 ≤ t }
    requires to { t ≤ calendar.now.case.last }
    requires standing { IsStanding calendar.now.case (planned calendar.now) l t standing }
    ensures { let plan = planned calendar.now in
        let z = flow calendar.now.case plan scenario l t in
        let sold = sold_by (kind_of calendar.now.case l) calendar.now.case plan t l in
        let numbers = sold ++ (z ∷ []) in
        MatchOption result (any_leaves numbers ≡ true)
        (λ flow. (flow ≡ z) × (any_leaves numbers ≡ false)) }
{
    let case = calendar.case();
    if case.is_open(case.line(l).instrument, t) {
        let unit = unit_of(case, scenario, l, t, standing.marked_on);
        let base = base_of(calendar, l, t, standing)?;
        times(i128::from(unit), base)
    } else {
        Some(0)
    }
}

/// What the closings of a line on a day in a tier cost, as a flow and a numerator, or None where it leaves.
fn cost_flow(calendar: &CaseCalendar, l: usize, t: u8, j: u8) -> Option<i128>
    requires line { l < line_count calendar.now.case }
    requires from { 1 ≤ t }
    requires to { t ≤ calendar.now.case.last }
    requires tier { IsTierNumber calendar.now.case j }
    ensures { let z = cost_flow calendar.now.case (planned calendar.now) l t j in
        MatchOption result (Leaves z) (λ flow. (flow ≡ z) × Stays z) }
{
    let case = calendar.case();
    let i = case.line(l).instrument;
    if case.is_open(i, t) && t <= case.horizon() {
        let cost = case.cost(i, j);
        times(-i128::from(cost), calendar.amount(l, t, j))
    } else {
        Some(0)
    }
}

/// The day on which a line's flows of day t are paid, None where there is none.
fn pay_day(case: &Case, l: usize, t: u8) -> Option<u8>
    requires line { l < line_count case.now }
    requires day { t ≤ case.now.last }
    ensures { result ≡ pays case.now (instrument_of case.now l) t }
{
    case.well_formed();
    case.pays(case.line(l).instrument, t)
}

/// Puts what a line's closings of a day in a tier cost on the list of their pay day, where the tier has a cost.
fn put_cost(
    calendar: &CaseCalendar,
    scenario: usize,
    l: usize,
    t: u8,
    j: u8,
    payable: &mut PayableFlows,
) -> Result<(), ReplayFault>
    requires line { l < line_count calendar.now.case }
    requires from { 1 ≤ t }
    requires to { t ≤ calendar.now.case.last }
    requires tier { IsTierNumber calendar.now.case j }
    requires payable { length payable.old ≡ suc calendar.now.case.last }
    ensures payable { IfOk result (λ _. payable.new ≡ with_flows payable.old
        (pays calendar.now.case (instrument_of calendar.now.case l) t)
        (cost_flows calendar.now.case (planned calendar.now) l t j)) }
    ensures stays { IfOk result
        (λ _. any_leaves (cost_flows calendar.now.case (planned calendar.now) l t j) ≡ false) }
    ensures stops { IfErr result
        (StopsOn scenario t (cost_flows calendar.now.case (planned calendar.now) l t j)) }
{
    let case = calendar.case();
    if case.cost(case.line(l).instrument, j) == 0 {
        return Ok(());
    }
    let Some(flow) = cost_flow(calendar, l, t, j) else {
        return Err(ReplayFault::TooWide { scenario, day: t });
    };
    let paid_on = pay_day(case, l, t);
    payable.add(paid_on, flow)?;
    Ok(())
}

/// Puts what a line's closings of a day cost on the list of their pay day, by tier.
fn put_costs(
    calendar: &CaseCalendar,
    scenario: usize,
    l: usize,
    t: u8,
    payable: &mut PayableFlows,
) -> Result<(), ReplayFault>
    requires line { l < line_count calendar.now.case }
    requires from { 1 ≤ t }
    requires to { t ≤ calendar.now.case.last }
    requires payable { length payable.old ≡ suc calendar.now.case.last }
    ensures payable { IfOk result (λ _. payable.new ≡ with_flows payable.old
        (pays calendar.now.case (instrument_of calendar.now.case l) t)
        (map (cost_flow calendar.now.case (planned calendar.now) l t)
        (costly_tiers calendar.now.case (instrument_of calendar.now.case l)))) }
    ensures stays { IfOk result
        (λ _. any_leaves (map (cost_flow calendar.now.case (planned calendar.now) l t)
        (costly_tiers calendar.now.case (instrument_of calendar.now.case l))) ≡ false) }
    ensures stops { IfErr result
        (StopsOn scenario t (map (cost_flow calendar.now.case (planned calendar.now) l t)
        (costly_tiers calendar.now.case (instrument_of calendar.now.case l)))) }
{
    let case = calendar.case();
    for j in 0..case.tiers() {
        put_cost(calendar, scenario, l, t, j + 1, payable)?;
    }
    Ok(())
}

/// Puts a line's flows of a day on the list of their pay day: the mark or sale, and then what its closings cost.
pub(crate) fn put_flows(
    calendar: &CaseCalendar,
    scenario: usize,
    l: usize,
    t: u8,
    standing: Standing,
    payable: &mut PayableFlows,
) -> Result<(), ReplayFault>
    requires scenario { scenario < length calendar.now.case.scenarios }
    requires line { l < line_count calendar.now.case }
    requires from { 1 ≤ t }
    requires to { t ≤ calendar.now.case.last }
    requires standing { IsStanding calendar.now.case (planned calendar.now) l t standing }
    requires payable { length payable.old ≡ suc calendar.now.case.last }
    ensures payable { IfOk result (λ _. payable.new ≡ with_flows payable.old
        (pays calendar.now.case (instrument_of calendar.now.case l) t)
        (line_flows calendar.now.case (planned calendar.now) scenario l t)) }
    ensures stays { IfOk result (λ _. any_leaves
        (flow_numbers calendar.now.case (planned calendar.now) scenario t l) ≡ false) }
    ensures stops { IfErr result (StopsOn scenario t
        (flow_numbers calendar.now.case (planned calendar.now) scenario t l)) }
{
    let case = calendar.case();
    let Some(flow) = flow(calendar, scenario, l, t, standing) else {
        return Err(ReplayFault::TooWide { scenario, day: t });
    };
    payable.add(pay_day(case, l, t), flow)?;
    put_costs(calendar, scenario, l, t, payable)?;
    Ok(())
}
